//! The city line, written.
ghost use Rattle.std.specs.Prelude.{◌≡◌, ◌≤◌, ◌++◌, [], ◌∷◌, length, OnOk, IfOk};
ghost use Rattle.std.specs.Str.{IsUtf8};
ghost use Rattle.serde_json.specs.Written.{compact_text};
ghost use Rattle.iris_base.specs.declared.limits.TheConstants.{MAX_CITY_BYTES};
ghost use Rattle.iris_tree.specs.LocalText.{value_tokens};
ghost use Rattle.iris_tree.specs.Universe.{IsOrdered};
ghost use Rattle.iris_base.specs.NameText.{name_text};
ghost use Rattle.iris_json.specs.CityKeys.{texts_data, numbers_data, places_data, show_text};
ghost use Rattle.iris_json.specs.CityLine.{ReadsCity};
ghost use Rattle.iris_json.specs.CityText.{city_data, front_tokens, back_tokens};
ghost use Rattle.iris_json.specs.Zones.{IsZone};

use crate::city::{City, Show};
use crate::item::put_tree;
use iris_tree::{AgentId, JsonText, Mem, Name, Short, Spelled, name_text};
use std::alloc::Global;

// Writes a list of short texts.
fn put_texts<F: Spelled, const N: usize>(words: &[Short<F, N>], out: &mut JsonText) -> Mem<()>
    ensures { OnOk result (out.new ≡ out.old ++ value_tokens (texts_data words.now)) }
{
    out.begin_array()?;
    for word in words {
        out.string(word.as_str())?;
    }
    out.end_array()?;
    Ok(())
}

// Writes a list of capacities.
fn put_caps(caps: &[u32], out: &mut JsonText) -> Mem<()>
    ensures { OnOk result (out.new ≡ out.old ++ value_tokens (numbers_data caps.now)) }
{
    out.begin_array()?;
    for cap in caps {
        out.number(*cap as u64)?;
    }
    out.end_array()?;
    Ok(())
}

// Writes a name and its agent.
#[tactic(auto, using(std::proofs::lemmas::List::append_assoc), unfolding(iris_tree::specs::LocalText::value_tokens))]
fn put_place(alloc: Global, name: &Name, agent: &AgentId, out: &mut JsonText) -> Mem<()>
    ensures { OnOk result (out.new ≡ out.old ++ value_tokens (texts_data (name_text name.now ∷ agent.now ∷ []))) }
{
    let name = name_text(alloc, name)?;
    out.begin_array()?;
    out.string(name.as_str())?;
    out.string(agent.as_str())?;
    out.end_array()?;
    Ok(())
}

// Writes the list of the names that are placed, each with its agent.
fn put_places(alloc: Global, places: &[(Name, AgentId)], out: &mut JsonText) -> Mem<()>
    ensures { OnOk result (out.new ≡ out.old ++ value_tokens (places_data places.now)) }
{
    out.begin_array()?;
    for (name, agent) in places {
        put_place(alloc, name, agent, out)?;
    }
    out.end_array()?;
    Ok(())
}

// The word of what is shown.
fn show_word(show: Show) -> &'static str
    ensures { result.now ≡ show_text show }
{
    match show {
        Show::All => "all",
        Show::Summary => "summary",
    }
}

// Writes the keys of a city up to `place`.
fn put_front(alloc: Global, city: &City, out: &mut JsonText) -> Mem<()>
    ensures { OnOk result (out.new ≡ out.old ++ front_tokens city.now) }
{
    out.key("agents")?;
    put_texts(city.agents.as_slice(), out)?;
    out.key("caps")?;
    put_caps(city.caps.as_slice(), out)?;
    out.key("kinds")?;
    put_texts(city.kinds.as_slice(), out)?;
    out.key("place")?;
    put_places(alloc, city.place.as_slice(), out)?;
    Ok(())
}

// Writes the keys of a city from `show` on.
fn put_back(city: &City, out: &mut JsonText) -> Mem<()>
    ensures text { OnOk result (out.new ≡ out.old ++ back_tokens city.now) }
    ensures ordered { OnOk result (IsOrdered city.now.tree) }
    ensures zone { OnOk result (IsZone city.now.zone) }
    ensures utf8 { OnOk result (IsUtf8 city.now.zone) }
{
    out.key("show")?;
    out.string(show_word(city.show))?;
    out.key("tree")?;
    put_tree(&city.tree, out)?;
    out.key("zone")?;
    out.string(city.zone.as_str())?;
    Ok(())
}

// Writes a city: its keys in the order of their bytes.
fn put_city(alloc: Global, city: &City, out: &mut JsonText) -> Mem<()>
    ensures text { OnOk result (out.new ≡ out.old ++ value_tokens (city_data city.now)) }
    ensures ordered { OnOk result (IsOrdered city.now.tree) }
    ensures zone { OnOk result (IsZone city.now.zone) }
    ensures utf8 { OnOk result (IsUtf8 city.now.zone) }
{
    out.begin_object()?;
    put_front(alloc, city, out)?;
    put_back(city, out)?;
    out.end_object()?;
    Ok(())
}

/// The city line of a city, without its LF: compact, all keys in the order of their bytes, the nodes
/// in the order of their labels, each with its attributes and plain elements also where there are none.
/// Where it is no longer than a city line may be, `read_city` gives the city back.
pub fn write_city(alloc: Global, city: &City) -> Mem<Vec<u8>>
    ensures text { IfOk result (λ line. line.items ≡ compact_text (city_data city.now)) }
    ensures read_again { IfOk result (λ line. length line.items ≤ MAX_CITY_BYTES → ReadsCity line.items city.now) }
{
    let mut out = JsonText::new(alloc);
    put_city(alloc, city, &mut out)?;
    Ok(out.into_bytes())
}
