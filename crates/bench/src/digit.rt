// A digit's value and a value's digit.
ghost use Rattle.std.specs.Prelude.{◌≡◌, ◌<◌, ◌%◌, IfSome};
ghost use Rattle.bench.specs.Digit.{value_of, digit_of};

#[tactic(auto, unfolding(crate::specs::Digit::value_of))]
pub fn value_of(b: u8) -> Option<u8>
    ensures value { result ≡ value_of b }
    ensures small { IfSome result (λ d. d < 16) }
{
    match b {
        b'0'..=b'9' => Some(b - b'0'),
        b'A'..=b'F' => Some(b - b'A' + 10),
        b'a'..=b'f' => Some(b - b'a' + 10),
        _ => None,
    }
}

// The digit of a value's last four bits. A sum, and not a choice of two: spelled in a row, digits then take fewer steps.
#[tactic(auto, unfolding(crate::specs::Digit::digit_of))]
pub fn digit_of(v: u8) -> u8
    ensures { result ≡ digit_of (v % 16) }
{
    let d = v % 16;
    let gap = if d < 10 { 0 } else { b'a' - 10 - b'0' };
    b'0' + d + gap
}
