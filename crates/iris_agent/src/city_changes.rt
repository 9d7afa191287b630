//! Changes in a city.
ghost use Rattle.std.specs.Prelude.{◌≡◌, Ok, IfOk, IfErr};
ghost use Rattle.std.specs.List.{position};
ghost use Rattle.iris_tree.specs.NamesKind.{change_names_kind};
ghost use Rattle.iris_agent.specs.CityChanges.{changes_in_city, RefusesInCity};

use iris_tree::{Change, ChangeError, Kind, Local};

// The place of the first change that puts an element with the tag of a kind.
fn first_kind_put(kinds: &[Kind], changes: &[Change]) -> Option<usize>
    ensures { result ≡ position (change_names_kind kinds.now) changes.now }
{
    changes.iter().position(|change| change.names_kind(kinds))
}

/// The local information after all these changes, in a city with nodes of these kinds.
pub(crate) fn change_in_city(
    kinds: &[Kind],
    local: &Local,
    changes: &[Change],
) -> Result<Local, ChangeError>
    ensures ok { IfOk result (λ changed. changes_in_city kinds.now local.now changes.now ≡ Ok changed) }
    ensures err { IfErr result (λ error. RefusesInCity kinds.now local.now changes.now error) }
{
    let Some(at) = first_kind_put(kinds, changes) else {
        return local.change(changes);
    };
    match local.change(&changes[..at]) {
        Ok(_) => Err(ChangeError::BadChange { at }),
        Err(error) => Err(error),
    }
}
