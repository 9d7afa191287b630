//! What the parking finder is asked, and what it offers.
ghost use Rattle.std.specs.Prelude.{◌≡◌, ◌≤◌, ◌<◌, IfOk, IfSome};
ghost use Rattle.std.proofs.Props.{props};
ghost use Rattle.iris_base.specs.declared.limits.TheConstants.{MAX_ARRIVAL, MAX_NUMBER, MAX_OFFERS, MAX_STAY, MINUTES_A_DAY};
ghost use Rattle.iris_base.specs.Forms.{IsId};

use iris_tree::{Id, Mem, Name};
use std::alloc::AllocError;

/// A question for parking: blocks of a hood with free spaces, ranked by what a stay costs.
#[derive(Clone, Copy, Debug, PartialEq, Eq)]
pub struct Find {
    /// The id of a node of kind `hood` right below the top node.
    pub hood: Id,
    /// The moment of the arrival, in milliseconds since 1970, at most `MAX_ARRIVAL`.
    pub arrive: u64,
    /// The minutes of the stay, 1 to `MAX_STAY`.
    pub stay: u32,
    /// How many offers are wanted at most, 1 to `MAX_OFFERS`.
    pub top: u32,
    /// How old a copy may be that the offers rest on, in milliseconds, at most `MAX_NUMBER`; none where
    /// any age will do.
    pub bound: Option<u64>,
    ghost hood_fits: { IsId hood },
    ghost arrive_fits: { arrive ≤ MAX_ARRIVAL },
    ghost stay_begins: { 0 < stay },
    ghost stay_fits: { stay ≤ MAX_STAY },
    ghost some_wanted: { 0 < top },
    ghost few_wanted: { top ≤ MAX_OFFERS },
    ghost bound_fits: { IfSome bound (λ b. b ≤ MAX_NUMBER) } by { Prim.hlevel props },
}

/// When a car arrives, by the clocks of the city.
#[derive(Clone, Copy, Debug, PartialEq, Eq)]
pub struct Arrival {
    /// The day of the week, from Monday, which is 0, to Sunday, which is 6.
    pub weekday: u8,
    /// The minute of the day, from 0 on.
    pub minute: u32,
    ghost weekday_fits: { weekday ≤ 6 },
    ghost minute_fits: { minute < MINUTES_A_DAY },
}

/// A space that is offered.
#[derive(Debug, Drop)]
pub struct Offer {
    /// The space's name.
    pub name: Name,
    /// What the stay costs there, in cents.
    pub price: u64,
}

impl Clone for Offer {
    ghost is_clone = { λ offer copy. copy ≡ offer };

    fn clone(&self) -> Result<Offer, AllocError> {
        Ok(Offer {
            name: self.name.clone()?,
            price: self.price,
        })
    }
}

impl Offer {
    /// A copy, by the same allocator.
    pub fn copy(&self) -> Mem<Offer>
        ensures { IfOk result (λ copy. copy ≡ self.now) }
    {
        Ok(self.clone()?)
    }
}
