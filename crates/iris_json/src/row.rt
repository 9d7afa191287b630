//! A line of a run as a row of fields.
ghost use Rattle.std.specs.Prelude.{◌≡◌, ◌++◌, string_bytes, OnOk, IfOk};
ghost use Rattle.serde_json.specs.Data.{string};
ghost use Rattle.serde_json.specs.Written.{compact_text};
ghost use Rattle.iris_base.specs.NameText.{name_text};
ghost use Rattle.iris_tree.specs.LocalText.{value_tokens};
ghost use Rattle.iris_json.specs.Rows.{cite_data, cites_data, offer_data, offers_data, state_text, state_data, states_data, row_data, field_data, fields_of};

use crate::find::Offer;
use crate::item::put_items;
use iris_tree::{Cite, Item, JsonText, Mem, Name, State, name_text};
use std::alloc::Global;

/// What a line of a run has at a key.
#[derive(Clone, Copy)]
pub enum Field<'a> {
    /// A whole number.
    Number(u64),
    /// A text.
    Text(&'a str),
    /// `true` or `false`.
    Boolean(bool),
    /// The text of a name.
    Name(&'a Name),
    /// A list of items.
    Items(&'a [Item]),
    /// A list of cites.
    Cites(&'a [Cite]),
    /// A list of offers.
    Offers(&'a [Offer]),
    /// A list of states of an evaluation.
    States(&'a [State]),
}

// Writes a cite: the list of a name, a version and a moment.
#[tactic(auto, using(std::proofs::lemmas::List::append_assoc), unfolding(iris_tree::specs::LocalText::value_tokens))]
fn put_cite(alloc: Global, cite: &Cite, out: &mut JsonText) -> Mem<()>
    ensures { OnOk result (out.new ≡ out.old ++ value_tokens (cite_data cite.now)) }
{
    let name = name_text(alloc, &cite.name)?;
    out.begin_array()?;
    out.string(name.as_str())?;
    out.number(cite.version)?;
    out.number(cite.stamp)?;
    out.end_array()?;
    Ok(())
}

fn put_cites(alloc: Global, cites: &[Cite], out: &mut JsonText) -> Mem<()>
    ensures { OnOk result (out.new ≡ out.old ++ value_tokens (cites_data cites.now)) }
{
    out.begin_array()?;
    for cite in cites {
        put_cite(alloc, cite, out)?;
    }
    out.end_array()?;
    Ok(())
}

// Writes an offer: the list of a name and a price.
#[tactic(auto, using(std::proofs::lemmas::List::append_assoc), unfolding(iris_tree::specs::LocalText::value_tokens))]
fn put_offer(alloc: Global, offer: &Offer, out: &mut JsonText) -> Mem<()>
    ensures { OnOk result (out.new ≡ out.old ++ value_tokens (offer_data offer.now)) }
{
    let name = name_text(alloc, &offer.name)?;
    out.begin_array()?;
    out.string(name.as_str())?;
    out.number(offer.price)?;
    out.end_array()?;
    Ok(())
}

fn put_offers(alloc: Global, offers: &[Offer], out: &mut JsonText) -> Mem<()>
    ensures { OnOk result (out.new ≡ out.old ++ value_tokens (offers_data offers.now)) }
{
    out.begin_array()?;
    for offer in offers {
        put_offer(alloc, offer, out)?;
    }
    out.end_array()?;
    Ok(())
}

// The text of a state: its word, and the step where it has one.
fn state_text(alloc: Global, state: State) -> Mem<String>
    ensures { IfOk result (λ text. string_bytes text ≡ state_text state) }
{
    let text = match state {
        State::At(step) => format!(in alloc; "at {step}")?,
        State::Seek(step) => format!(in alloc; "seek {step}")?,
        State::Test(step) => format!(in alloc; "test {step}")?,
        State::Whole => String::from_str(alloc, "whole")?,
    };
    Ok(text)
}

// Writes the text of a state.
#[tactic(auto, unfolding(iris_tree::specs::LocalText::value_tokens))]
fn put_state(alloc: Global, state: &State, out: &mut JsonText) -> Mem<()>
    ensures { OnOk result (out.new ≡ out.old ++ value_tokens (state_data state.now)) }
{
    let text = state_text(alloc, *state)?;
    out.string(text.as_str())
}

fn put_states(alloc: Global, states: &[State], out: &mut JsonText) -> Mem<()>
    ensures { OnOk result (out.new ≡ out.old ++ value_tokens (states_data states.now)) }
{
    out.begin_array()?;
    for state in states {
        put_state(alloc, state, out)?;
    }
    out.end_array()?;
    Ok(())
}

// Writes the text of a name.
#[tactic(auto, unfolding(iris_tree::specs::LocalText::value_tokens))]
fn put_name(alloc: Global, name: &Name, out: &mut JsonText) -> Mem<()>
    ensures { OnOk result (out.new ≡ out.old ++ value_tokens (string (name_text name.now))) }
{
    let text = name_text(alloc, name)?;
    out.string(text.as_str())
}

#[tactic(auto, unfolding(iris_tree::specs::LocalText::value_tokens))]
fn put_field(alloc: Global, field: &Field, out: &mut JsonText) -> Mem<()>
    ensures { OnOk result (out.new ≡ out.old ++ value_tokens (field_data field.now)) }
{
    match field {
        Field::Number(number) => out.number(*number),
        Field::Text(text) => out.string(text),
        Field::Boolean(boolean) => out.boolean(*boolean),
        Field::Name(name) => put_name(alloc, name, out),
        Field::Items(items) => put_items(alloc, items, out),
        Field::Cites(cites) => put_cites(alloc, cites, out),
        Field::Offers(offers) => put_offers(alloc, offers, out),
        Field::States(states) => put_states(alloc, states, out),
    }
}

/// The compact text of an object with these keys and fields, in their order.
pub fn write_row(alloc: Global, row: &[(&str, Field)]) -> Mem<Vec<u8>>
    ensures { IfOk result (λ text. text.items ≡ compact_text (row_data (fields_of row.now))) }
{
    let mut out = JsonText::new(alloc);
    out.begin_object()?;
    for (key, field) in row {
        out.key(key)?;
        put_field(alloc, field, &mut out)?;
    }
    out.end_object()?;
    Ok(out.into_bytes())
}
