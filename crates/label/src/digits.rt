ghost use Rattle.std.specs.Prelude.{◌≡◌, ◌≤◌, ◌+◌, ◌%◌, length, drop};
ghost use Rattle.label.specs.Days.{two_digits as two_digits_lem};

/// The number that two bytes write, if they are digits.
pub(crate) fn two_digits(text: &[u8], at: usize) -> u32
    requires { at + 2 ≤ length text.now }
    ensures value { result ≡ two_digits_lem (drop at text.now) }
    ensures bound { result ≤ 2277 }
{
    let tens = u32::from(text[at].saturating_sub(b'0'));
    let units = u32::from(text[at + 1].saturating_sub(b'0'));
    10 * tens + units
}

/// The last decimal digit of a number.
pub(crate) fn digit(number: u32) -> u8
    ensures { result ≡ 48 + number % 10 }
{
    b'0' + (number % 10) as u8
}
