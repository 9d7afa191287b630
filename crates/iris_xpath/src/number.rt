//! The numbers that texts are.
ghost use Rattle.std.specs.Prelude.{◌≡◌, ◌<◌, ◌^◌, IfSome};
ghost use Rattle.iris_base.specs.declared.limits.TheConstants.{MAX_DIGITS};
ghost use Rattle.iris_xpath.specs.Meaning.{is_blank, without_leading_blanks, trimmed, number_of_digits, number_in, number_of};
ghost use Rattle.iris_xpath.specs.Values.{without_trailing_blanks};

use iris_tree::MAX_DIGITS;

fn is_blank(byte: u8) -> bool
    ensures { result ≡ is_blank byte }
{
    matches!(byte, b' ' | b'\t' | b'\n' | b'\r')
}

fn without_leading_blanks(bytes: &[u8]) -> &[u8]
    ensures { result.now ≡ without_leading_blanks bytes.now }
{
    for (at, byte) in bytes.iter().enumerate() {
        if !is_blank(*byte) {
            return &bytes[at..];
        }
    }
    &[]
}

fn without_trailing_blanks(bytes: &[u8]) -> &[u8]
    ensures { result.now ≡ without_trailing_blanks bytes.now }
{
    let mut end = bytes.len();
    while end > 0 && is_blank(bytes[end - 1]) {
        end -= 1;
    }
    &bytes[..end]
}

// The number that 1 to 18 digits write.
fn number_of_digits(digits: &[u8]) -> Option<u64>
    ensures value { result ≡ number_of_digits digits.now }
    ensures small { IfSome result (λ number. number < 10 ^ MAX_DIGITS) }
{
    if digits.is_empty() || digits.len() > MAX_DIGITS {
        return None;
    }
    let mut number: u64 = 0;
    for digit in digits {
        if !digit.is_ascii_digit() {
            return None;
        }
        number = number * 10 + u64::from(*digit - b'0');
    }
    Some(number)
}

/// The whole number that a text is, blanks at its ends aside; none where it is not a number of up to 18
/// digits.
pub fn number_of(text: &str) -> Option<i64>
    ensures { result ≡ number_of text.now }
{
    let written = without_trailing_blanks(without_leading_blanks(text.as_bytes()));
    let (first, digits) = written.split_first()?;
    if *first == b'-' {
        let number = number_of_digits(digits)?;
        return Some(-(number as i64));
    }
    let number = number_of_digits(written)?;
    Some(number as i64)
}
