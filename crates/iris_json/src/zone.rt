//! The zone of a city's clocks.
ghost use Rattle.std.specs.Prelude.{◌≡◌, ◌≤◌, ◌+◌, ◌*◌, pos, IfOk, IfErr, codes};
ghost use Rattle.jiff.specs.Words.{weekday_of};
ghost use Rattle.iris_base.specs.declared.limits.TheConstants.{MAX_ARRIVAL};
ghost use Rattle.iris_json.specs.declared.zone.ZoneError.{ZoneError};
ghost use Rattle.iris_json.specs.Zones.{IsZone, IsArrival};

use crate::find::Arrival;
use iris_tree::{MAX_ARRIVAL, Mem, Memory, Text};
use jiff::Timestamp;
use jiff::civil::DateTime;
use jiff::tz::TimeZone;
use std::alloc::{AllocError, Global};
use std::fmt;
use std::marker::Model;
use thiserror::Error;

/// The text of the zone whose clocks show the time of UTC.
pub const UTC: &str = "UTC0";

/// Why a text gave no zone.
#[derive(Clone, Copy, Debug, PartialEq, Eq, Error)]
pub enum ZoneError {
    /// It is not the text of a POSIX zone.
    #[error("the text is that of no zone")]
    BadZone,
    /// There was no memory.
    #[error("out of memory")]
    Memory,
}

impl From<Memory> for ZoneError {
    ghost use Rattle.std.specs.Prelude.{◌≡◌};
    ghost use Rattle.iris_json.specs.declared.zone.ZoneError.TheVariants.{Memory};

    ghost from_gives = { λ _ e. e ≡ Memory };

    fn from(_error: Memory) -> ZoneError {
        ZoneError::Memory
    }
}

/// A zone by its POSIX text (POSIX.1-2024, 8.3, `TZ`), as `EST5EDT,M3.2.0,M11.1.0`, and seen as that text.
#[derive(Drop)]
pub struct Zone {
    text: Text,
    rule: TimeZone<'static>,
}

impl Model for Zone {
    ghost use Rattle.std.specs.Prelude.{ℕ, List};
    ghost use Rattle.jiff.specs.Placed.{IsPosixZone};
    ghost use Rattle.jiff.specs.ZoneView.{plain_zone};

    ghost Value = { List ℕ };

    ghost view = { λ zone. zone.text };

    ghost invariant = { λ zone. IsPosixZone zone.text (plain_zone zone.rule) };
}

// A moment as a signed number.
fn as_signed(ms: u64) -> i64
    requires { ms ≤ MAX_ARRIVAL }
    ensures { result ≡ pos ms }
{
    ms as i64
}

// When a car arrives that a clock shows so.
fn arrival_at(local: DateTime) -> Arrival
    ensures weekday { result.weekday ≡ weekday_of local.date }
    ensures minute { result.minute ≡ 60 * local.time.hour + local.time.minute }
{
    Arrival {
        weekday: local.weekday().to_monday_zero_offset() as u8,
        minute: 60 * local.hour() as u32 + local.minute() as u32,
    }
}

impl Zone {
    /// The zone of that text. `BadZone` comes exactly where `jiff` refuses the text as a POSIX zone.
    pub fn read(alloc: Global, text: &str) -> Result<Zone, ZoneError>
        ensures found { IfOk result (λ zone. zone ≡ text.now) }
        ensures form { IfOk result (λ zone. IsZone text.now) }
        ensures refused { IfErr result (λ e. e ≡ ZoneError.BadZone → IsZone text.now → ⊥) }
    {
        let Ok(rule) = TimeZone::posix(text) else {
            return Err(ZoneError::BadZone);
        };
        let text = Text::of(alloc, text)?;
        Ok(Zone { text, rule })
    }

    /// The zone whose clocks show the time of UTC.
    pub fn utc(alloc: Global) -> Mem<Zone>
        ensures { IfOk result (λ zone. zone ≡ codes "UTC0") }
    {
        match Zone::read(alloc, UTC) {
            Ok(zone) => Ok(zone),
            Err(_) => Err(Memory),
        }
    }

    /// Its text.
    pub fn as_str(&self) -> &str
        ensures text { result.now ≡ self.now }
        ensures form { IsZone self.now }
    {
        self.text.as_str()
    }

    /// A copy, by the same allocator.
    pub fn copy(&self) -> Mem<Zone>
        ensures { IfOk result (λ copy. copy ≡ self.now) }
    {
        Ok(self.clone()?)
    }

    /// What the zone's clocks show at a moment, in milliseconds since 1970, as `jiff` states it. It takes
    /// no memory.
    pub fn arrival(&self, ms: u64) -> Arrival
        requires { ms ≤ MAX_ARRIVAL }
        ensures { IsArrival self.now ms result }
    {
        match Timestamp::from_millisecond(as_signed(ms)) {
            Ok(moment) => arrival_at(self.rule.to_datetime(moment)),
            Err(_) => unreachable!(),
        }
    }
}

impl Clone for Zone {
    ghost is_clone = { λ zone copy. copy ≡ zone };

    fn clone(&self) -> Result<Zone, AllocError> {
        Ok(Zone {
            text: self.text.clone()?,
            rule: self.rule,
        })
    }
}

impl fmt::Debug for Zone {
    fn fmt<W: fmt::Write>(&self, f: &mut fmt::Formatter<W>) -> fmt::Result {
        fmt::Debug::fmt(&self.text, f)
    }
}
