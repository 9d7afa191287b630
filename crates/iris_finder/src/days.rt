//! The days of a tariff, as an attribute tells them.
ghost use Rattle.std.specs.Prelude.{◌≡◌, codes};
ghost use Rattle.iris_tree.specs.Attrs.{value_of};
ghost use Rattle.iris_finder.specs.Tariff.{days_of, days_told};

use crate::limits::DAYS_A_WEEK;
use iris_tree::Attrs;

/// The days from Monday to Sunday, and whether each is charged, as the attribute `days` tells them: all,
/// where it is absent. None where it is there and is not seven of `0` and `1`.
pub fn days_of(attrs: &Attrs) -> Option<[bool; 7]>
    ensures { result ≡ days_told (value_of attrs.now (codes "days")) }
{
    match attrs.get("days") {
        None => Some([true; 7]),
        Some(text) => days_in(text.as_bytes()),
    }
}

// The days that seven of `0` and `1` tell.
fn days_in(text: &[u8]) -> Option<[bool; 7]>
    ensures { result ≡ days_of text.now }
{
    if text.len() != DAYS_A_WEEK {
        return None;
    }
    let mut days = [false; 7];
    for (i, day) in text.iter().enumerate() {
        if *day != b'0' && *day != b'1' {
            return None;
        }
        days[i] = *day == b'1';
    }
    Some(days)
}
