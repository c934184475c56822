//! Numbers in decimal digits.
ghost use Rattle.std.specs.Prelude.{◌≡◌};
ghost use Rattle.eu_base.specs.Digits.{digits};

/// Up to 19 decimal digits as a number, 0 for none: that many fit. None for any other text. Takes no memory.
pub fn read_digits(text: &[u8]) -> Option<u64>
    ensures { result ≡ digits text.now }
{
    if text.len() > 19 {
        return None;
    }
    let mut value = 0;
    for byte in text {
        if !byte.is_ascii_digit() {
            return None;
        }
        value = value * 10 + u64::from(*byte - b'0');
    }
    Some(value)
}
