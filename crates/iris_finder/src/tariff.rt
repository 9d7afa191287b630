//! Tariffs of blocks.
ghost use Rattle.std.specs.Prelude.{◌≡◌, ◌<◌, ◌≤◌, option_map};
ghost use Rattle.iris_base.specs.declared.limits.TheConstants.{MAX_STAY, MINUTES_A_DAY};
ghost use Rattle.iris_finder.specs.declared.limits.TheConstants.{MAX_RATE, MAX_CAP};

use crate::amount::amount_of;
use crate::days::days_of;
use crate::limits::{DEFAULT_UNIT, MAX_CAP, MAX_RATE};
use iris_tree::{Attrs, MAX_STAY, MINUTES_A_DAY};

/// What a block charges for a stay. Money is in cents, and times are in minutes.
#[derive(Clone, Copy, Debug, PartialEq, Eq)]
pub struct Tariff {
    /// Cents for each started unit of charged minutes.
    pub rate: u32,
    /// The minutes of a unit.
    pub unit: u32,
    /// How many minutes at the beginning of a stay are not charged.
    pub free: u32,
    /// The greatest price in cents; 0 where there is none.
    pub cap: u32,
    /// The longest stay that is permitted; 0 where there is none.
    pub most: u32,
    /// The first minute of the day that is charged, counted from 0.
    pub from: u32,
    /// The first minute of the day after it that is no more charged.
    pub to: u32,
    /// Whether a day is charged, from Monday to Sunday.
    pub days: [bool; 7],
    ghost rate_fits: { rate ≤ MAX_RATE },
    ghost unit_begins: { 0 < unit },
    ghost unit_fits: { unit ≤ MINUTES_A_DAY },
    ghost free_fits: { free ≤ MAX_STAY },
    ghost cap_fits: { cap ≤ MAX_CAP },
    ghost most_fits: { most ≤ MAX_STAY },
    ghost some_charged: { from < to },
    ghost to_fits: { to ≤ MINUTES_A_DAY },
}

impl Tariff {
    ghost use Rattle.iris_finder.specs.Tariff.{terms, terms_of};

    /// The tariff that the attributes of a block tell: `rate`, `unit`, `free`, `cap`, `most`, `from`, `to`
    /// and `days`. An absent one has its default: a unit of 60 minutes, the whole day and each day, and 0
    /// for the others. None where one that is there tells nothing, or `from` is not less than `to`.
    pub fn read(attrs: &Attrs) -> Option<Tariff>
        ensures { option_map terms result ≡ terms_of attrs.now }
    {
        let rate = amount_of(attrs, "rate", 0, MAX_RATE, 0)?;
        let unit = amount_of(attrs, "unit", 1, MINUTES_A_DAY, DEFAULT_UNIT)?;
        let free = amount_of(attrs, "free", 0, MAX_STAY, 0)?;
        let cap = amount_of(attrs, "cap", 0, MAX_CAP, 0)?;
        let most = amount_of(attrs, "most", 0, MAX_STAY, 0)?;
        let from = amount_of(attrs, "from", 0, MINUTES_A_DAY - 1, 0)?;
        let to = amount_of(attrs, "to", 1, MINUTES_A_DAY, MINUTES_A_DAY)?;
        let days = days_of(attrs)?;
        if to <= from {
            return None;
        }
        Some(Tariff {
            rate,
            unit,
            free,
            cap,
            most,
            from,
            to,
            days,
        })
    }
}
