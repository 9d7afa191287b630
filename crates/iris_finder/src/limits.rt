//! The limits of tariffs, each said once.

/// The greatest number of cents of a started unit.
pub const MAX_RATE: u32 = 100_000;

/// The minutes of a unit, where a tariff does not tell them.
pub const DEFAULT_UNIT: u32 = 60;

/// The greatest number of cents that a tariff may name as the greatest price.
pub const MAX_CAP: u32 = 10_000_000;

/// The greatest number of digits of a number in a tariff.
pub const MAX_AMOUNT_DIGITS: usize = 8;

/// The days of a week.
pub const DAYS_A_WEEK: usize = 7;
