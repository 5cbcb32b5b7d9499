ghost use Rattle.std.specs.Prelude.{◌≡◌, ◌+◌, ◌-◌, ◌*◌};
ghost use Rattle.text.specs.Numerals.{fitting, numeral};

// The number that digits write, if it fits 32 bits. The loop is no try_fold: from what that says of a call that broke
// off, no proof was found that more digits do not help.
pub fn numeral(digits: &[u8]) -> Option<u32>
    ensures { result ≡ numeral digits.now }
{
    let mut value: u32 = 0;
    for digit in digits {
        value = appended(value, *digit)?;
    }
    Some(value)
}

// The number with one more digit behind it, if it fits 32 bits.
fn appended(value: u32, digit: u8) -> Option<u32>
    ensures { result ≡ fitting (value * 10 + (digit - 48)) }
{
    let tens = value.checked_mul(10)?;
    tens.checked_add(u32::from(digit.saturating_sub(b'0')))
}
