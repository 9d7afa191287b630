//! What a stay costs.
ghost use Rattle.std.specs.Prelude.{◌≡◌, ◌<◌, ◌≤◌, IfOk, IfErr, is_err};
ghost use Rattle.iris_base.specs.declared.limits.TheConstants.{MAX_STAY};
ghost use Rattle.iris_finder.specs.Tariff.{terms};
ghost use Rattle.iris_finder.specs.Price.{charged, charged_on, price_of, is_too_long};

use crate::limits::DAYS_A_WEEK;
use crate::tariff::Tariff;
use iris_json::Arrival;
use iris_tree::{MAX_STAY, MINUTES_A_DAY};
use thiserror::Error;

/// The stay is longer than the tariff permits.
#[derive(Clone, Copy, Debug, PartialEq, Eq, Error)]
#[error("at most {most} minutes are permitted")]
pub struct TooLong {
    /// The minutes of the longest stay that is permitted.
    pub most: u32,
}

/// What a stay of so many minutes costs, in cents. It takes no memory.
pub fn price(tariff: &Tariff, arrival: &Arrival, stay: u32) -> Result<u64, TooLong>
    requires begins { 0 < stay }
    requires fits { stay ≤ MAX_STAY }
    ensures price { IfOk result (λ price. price ≡ price_of (terms tariff.now) arrival.now stay) }
    ensures too_long { is_err result ≡ is_too_long (terms tariff.now) stay }
    ensures most { IfErr result (λ error. error.most ≡ tariff.now.most) }
{
    if tariff.most != 0 && tariff.most < stay {
        return Err(TooLong { most: tariff.most });
    }
    let units = charged(tariff, arrival, stay).div_ceil(tariff.unit);
    let price = u64::from(tariff.rate) * u64::from(units);
    if tariff.cap == 0 {
        return Ok(price);
    }
    Ok(price.min(u64::from(tariff.cap)))
}

// How many days a stay touches at most.
const MOST_DAYS: u32 = 8;

// How many minutes of the stay are charged.
fn charged(tariff: &Tariff, arrival: &Arrival, stay: u32) -> u32
    requires { stay ≤ MAX_STAY }
    ensures value { result ≡ charged (terms tariff.now) arrival.now stay }
    ensures few { result ≤ stay }
{
    let mut total = 0;
    for day in 0..MOST_DAYS {
        total += charged_on(tariff, arrival, stay, day);
    }
    total
}

// How many of them lie on one day, counted from that of the arrival: those from the later of two moments,
// the first charged minute of the day and the end of the free minutes, up to the earlier of two others.
fn charged_on(tariff: &Tariff, arrival: &Arrival, stay: u32, day: u32) -> u32
    requires { day < MOST_DAYS }
    ensures { result ≡ charged_on (terms tariff.now) arrival.now stay day }
{
    let weekday = (usize::from(arrival.weekday) + day as usize) % DAYS_A_WEEK;
    if !tariff.days[weekday] {
        return 0;
    }
    let midnight = MINUTES_A_DAY * day;
    let begin = (midnight + tariff.from).saturating_sub(arrival.minute);
    let end = (midnight + tariff.to).saturating_sub(arrival.minute);
    end.min(stay).saturating_sub(begin.max(tariff.free))
}
