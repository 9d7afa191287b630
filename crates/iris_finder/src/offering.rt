//! The offers of an answer.
ghost use Rattle.std.specs.Prelude.{◌≡◌, ◌++◌, true, false, List, IfOk, OnOk, Ok, Err, take};
ghost use Rattle.iris_base.specs.declared.name.Label.{Label};
ghost use Rattle.iris_finder.specs.declared.offering.OfferError.TheVariants as errors;
ghost use Rattle.iris_finder.specs.Offers.{is_free_space, free_spaces, item_offers, is_bad, ranked, offers_of};

use crate::pricing::price;
use crate::tariff::Tariff;
use iris_json::{Arrival, Find, Offer};
use iris_tree::{Element, Item, Mem, Memory, Name, Sequence, Tree};
use std::alloc::{AllocError, Global};
use thiserror::Error;

/// Why nothing is offered.
#[derive(Debug, Drop, Error)]
pub enum OfferError {
    /// The block of that name is the first whose attributes tell no tariff.
    #[error("a block has no tariff that can be read")]
    BadTariff { name: Name },
    /// Memory ran out.
    #[error("out of memory")]
    Memory,
}

impl From<Memory> for OfferError {
    ghost use Rattle.std.specs.Prelude.{◌≡◌};
    ghost use Rattle.iris_finder.specs.declared.offering.OfferError.TheVariants.{Memory};

    ghost from_gives = { λ _ e. e ≡ Memory };

    fn from(_error: Memory) -> OfferError {
        OfferError::Memory
    }
}

/// What the items of an answer to `query_of` offer: the free spaces of each block whose tariff permits the
/// stay, by price and then by name, at most `find.top` of them. An item that is a plain element offers
/// nothing.
pub fn offers(
    alloc: Global,
    items: &[Item],
    find: &Find,
    arrival: &Arrival,
) -> Result<Sequence<Offer>, OfferError>
    ensures offers { IfOk result (λ offers. offers_of items.now find.now arrival.now ≡ Ok offers) }
    ensures bad_tariff { (name : List Label) → result ≡ Err (errors.BadTariff name) → offers_of items.now find.now arrival.now ≡ Err name }
{
    let mut all = Vec::new(alloc);
    for item in items {
        push_offers(&mut all, item, find, arrival)?;
    }
    Ok(first_ranked(all, find.top))
}

// Adds what an item offers.
fn push_offers(
    all: &mut Vec<Offer>,
    item: &Item,
    find: &Find,
    arrival: &Arrival,
) -> Result<(), OfferError>
    ensures added { OnOk result (all.new.items ≡ all.old.items ++ item_offers find.now.stay arrival.now item.now) }
    ensures has_tariff { OnOk result (is_bad item.now ≡ false) }
    ensures bad_tariff { (name : List Label) → result ≡ Err (errors.BadTariff name) → (is_bad item.now ≡ true) × (item.now.at ≡ name) }
{
    let Element::Node(block) = &item.is else {
        return Ok(());
    };
    let Some(tariff) = Tariff::read(&block.local().attrs) else {
        return Err(OfferError::BadTariff {
            name: item.at.copy()?,
        });
    };
    match price(&tariff, arrival, find.stay) {
        Ok(price) => Ok(push_spaces(all, &item.at, block.children(), price)?),
        Err(_) => Ok(()),
    }
}

// The first so many offers, by price and then by name.
fn first_ranked(mut all: Vec<Offer>, top: u32) -> Sequence<Offer>
    ensures { result ≡ take top (ranked all.items) }
{
    all.sort_unstable_by(|a, b| a.price.cmp(&b.price).then(a.name.cmp(&b.name)));
    all.truncate(top as usize);
    Sequence::from_vec(all)
}

// Adds an offer of each free space.
fn push_spaces(all: &mut Vec<Offer>, at: &Name, nodes: &[Tree], price: u64) -> Mem<()>
    ensures { OnOk result (all.new.items ≡ all.old.items ++ free_spaces at.now price nodes.now) }
{
    for node in nodes {
        if is_free_space(node) {
            all.push(Offer {
                name: at.child(*node.label())?,
                price,
            })?;
        }
    }
    Ok(())
}

fn is_free_space(node: &Tree) -> bool
    ensures { result ≡ is_free_space node.now }
{
    if node.label().kind.as_str() != "space" {
        return false;
    }
    match node.local().attrs.get("free") {
        Some(value) => value == "yes",
        None => false,
    }
}
