// Where a step finds the device: on a record of a sound ring, or refused.
ghost use Rattle.std.specs.Prelude.{◌≡◌, Some};
ghost use Rattle.descriptors.specs.Ring.{ring_of};
ghost use Rattle.device.specs.Device.{stand_of, stands_on};

use descriptors::record::TransferDirection;
use descriptors::refusal::DmaBufError;
use descriptors::ring;
use descriptors::ring::Head;

// "starting at record 0"
pub fn start() -> Option<u16>
    ensures { result ≡ Some 0 }
{
    Some(0)
}

// 5 for a ring that is not sound or a record that is not below n, then 7 for a device that stopped.
pub fn find<'a>(
    dir: TransferDirection,
    s: &'a [u32],
    w: &'a [u16],
    h: Head,
    len: usize,
    device: Option<u16>,
) -> Result<usize, DmaBufError>
    ensures { result ≡ stand_of dir (ring_of s.now w.now h) len device }
{
    ring::judge(dir, s, w, h, len)?;
    on_record(h.count, device)
}

fn on_record(n: usize, device: Option<u16>) -> Result<usize, DmaBufError>
    ensures { result ≡ stands_on n device }
{
    let Some(i) = device else {
        return Err(DmaBufError::Stopped);
    };
    let at = i as usize;
    if n <= at {
        return Err(DmaBufError::BadState);
    }
    Ok(at)
}
