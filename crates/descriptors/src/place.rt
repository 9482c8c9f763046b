// Places round a ring of n records.
ghost use Rattle.std.specs.Prelude.{◌≡◌};
ghost use Rattle.descriptors.specs.Place.{before, after};

// The record before i: the last one before the first.
pub fn before(n: usize, i: usize) -> usize
    ensures { result ≡ before n i }
{
    if i != 0 { i - 1 } else { n.saturating_sub(1) }
}

// The record after i: the first one after the last.
pub fn after(n: usize, i: usize) -> usize
    ensures { result ≡ after n i }
{
    if i < n.saturating_sub(1) { i + 1 } else { 0 }
}
