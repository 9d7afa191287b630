//! Numbers of a tariff, as attributes tell them.
ghost use Rattle.std.specs.Prelude.{◌≡◌, ◌≤◌, ◌<◌, ◌^◌, IfSome};
ghost use Rattle.iris_tree.specs.Attrs.{value_of};
ghost use Rattle.iris_finder.specs.declared.limits.TheConstants.{MAX_AMOUNT_DIGITS};
ghost use Rattle.iris_finder.specs.Tariff.{number_of, told};

use crate::limits::MAX_AMOUNT_DIGITS;
use iris_tree::Attrs;

/// The number that the attribute of that name tells, from `least` to `most`; where the attribute is
/// absent, `default`. None where it is there and tells no such number.
pub fn amount_of(attrs: &Attrs, name: &str, least: u32, most: u32, default: u32) -> Option<u32>
    requires least { least ≤ default }
    requires most { default ≤ most }
    ensures value { result ≡ told least most default (value_of attrs.now name.now) }
    ensures least { IfSome result (λ number. least ≤ number) }
    ensures most { IfSome result (λ number. number ≤ most) }
{
    let Some(text) = attrs.get(name) else {
        return Some(default);
    };
    let number = number_of(text.as_bytes())?;
    if number < least || most < number {
        return None;
    }
    Some(number)
}

// The number that 1 to 8 digits write.
fn number_of(digits: &[u8]) -> Option<u32>
    ensures value { result ≡ number_of digits.now }
    ensures small { IfSome result (λ number. number < 10 ^ MAX_AMOUNT_DIGITS) }
{
    if digits.is_empty() || digits.len() > MAX_AMOUNT_DIGITS {
        return None;
    }
    let mut number: u32 = 0;
    for digit in digits {
        if !digit.is_ascii_digit() {
            return None;
        }
        number = number * 10 + u32::from(*digit - b'0');
    }
    Some(number)
}
