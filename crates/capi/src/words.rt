// A ring's head as five words: count, record, offset, tally, prefilled count. Words that are no head are read as a ring of no records,
// which every call refuses with 5.
ghost use Rattle.std.specs.Prelude.{◌≡◌};
ghost use Rattle.descriptors.specs.Cells.{next_cell};
ghost use Rattle.capi.specs.Words.{is_head, head_in, head_now, head_made, is_place, next_in, place_now};

use descriptors::record::LIMIT;
use descriptors::ring::Head;

pub(crate) const WORDS: usize = 5;

#[tactic(auto, unfolding(crate::specs::Words::is_head))]
fn is_head(head: &[u64]) -> bool
    ensures { result ≡ is_head head.now }
{
    head.len() == WORDS && head[3] <= u64::from(u32::MAX)
}

// The head that the words are; `ready` says whether all else that was lent can be used.
#[tactic(auto, using(crate::specs::laws::Words::of_head), unfolding(crate::specs::Words::head_in))]
pub(crate) fn head_of(head: &[u64], ready: bool) -> Head
    ensures { result ≡ head_in ready head.now }
{
    if !ready || !is_head(head) {
        return Head::default();
    }
    Head {
        count: head[0] as usize,
        descriptor_idx: head[1] as usize,
        descriptor_offset: head[2] as usize,
        tally: head[3] as u32,
        pre_filled: head[4] as usize,
    }
}

// The five stores. u64 and usize have no From between them.
#[tactic(auto, unfolding(crate::specs::Words::head_made))]
pub(crate) fn put(head: &mut [u64], h: Head)
    ensures { head.new ≡ head_made head.old h }
{
    if head.len() != WORDS {
        return;
    }
    head[0] = h.count as u64;
    head[1] = h.descriptor_idx as u64;
    head[2] = h.descriptor_offset as u64;
    head[3] = u64::from(h.tally);
    head[4] = h.pre_filled as u64;
}

// The words of the head that a call leaves: words that are no head stay as they are.
#[tactic(auto, using(crate::specs::laws::Words::of_head), unfolding(crate::specs::Words::head_now))]
pub(crate) fn put_head(head: &mut [u64], ready: bool, h: Head)
    ensures { head.new ≡ head_now ready head.old h }
{
    if ready && is_head(head) {
        put(head, h);
    }
}

// ---- the device's place as one word: 0 stopped, i + 1 on record i

// A word above the most records of a ring names no record of any.
#[tactic(auto, unfolding(crate::specs::Words::is_place))]
pub(crate) fn is_place(device: &[u64]) -> bool
    ensures { result ≡ is_place device.now }
{
    device.len() == 1 && device[0] <= LIMIT as u64
}

#[tactic(auto, using(crate::specs::laws::Words::of_place), unfolding(crate::specs::Words::next_in))]
pub(crate) fn place_of(device: &[u64], ready: bool) -> Option<u16>
    ensures { result ≡ next_in ready device.now }
{
    if !ready || !is_place(device) {
        return None;
    }
    match device[0] {
        0 => None,
        place => Some((place - 1) as u16),
    }
}

fn place_word(place: Option<u16>) -> u64
    ensures { result ≡ next_cell place }
{
    match place {
        None => 0,
        Some(i) => u64::from(i) + 1,
    }
}

#[tactic(auto, using(crate::specs::laws::Words::of_place), unfolding(crate::specs::Words::place_now))]
pub(crate) fn put_place(device: &mut [u64], ready: bool, place: Option<u16>)
    ensures { device.new ≡ place_now ready device.old place }
{
    if ready && is_place(device) {
        device[0] = place_word(place);
    }
}
