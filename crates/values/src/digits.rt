ghost use Rattle.std.specs.Prelude.{◌≡◌, ◌<◌, ◌≤◌, ◌^◌, length};
ghost use Rattle.std.specs.Str.{all_ascii_digits};
ghost use Rattle.values.specs.Values.{number_from};

/// Whether each byte is a decimal digit.
pub fn are_digits(text: &[u8]) -> bool
    ensures { result ≡ all_ascii_digits text.now }
{
    text.iter().all(|c| c.is_ascii_digit())
}

/// The number that at most nine decimal digits write, the first of them the highest: below 1,000,000,000, and 0 of none. That
/// they are digits is not tested.
pub fn written_number(digits: &[u8]) -> u64
    requires { length digits.now ≤ 9 }
    ensures value { result ≡ number_from 0 digits.now }
    ensures small { length digits.now ≤ 7 → result < 2 ^ 32 }
{
    let mut n = 0;
    for c in digits {
        n = n * 10 + c.saturating_sub(b'0') as u64;
    }
    n
}
