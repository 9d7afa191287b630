//! The titles of a city's nodes at its start.
ghost use Rattle.std.specs.Prelude.{◌≡◌, [], ◌∷◌, true, IfOk, OnOk};
ghost use Rattle.std.specs.List.{IsDistinct, list_any};
ghost use Rattle.std.specs.Map.{keys_of};
ghost use Rattle.std.specs.Cmp.Lexicographic.{pointwise};
ghost use Rattle.iris_base.specs.NameOrder.{label_eq};
ghost use Rattle.iris_tree.specs.Universe.{label_of, IsOrdered};
ghost use Rattle.iris_route.specs.Start.{start_titles, placed_titles, titles_below, put_all};

use crate::titles::{Title, Titles};
use iris_tree::{AgentId, Label, Mem, Name, Tree};
use std::alloc::{AllocError, AllocFailed, Global};

/// Each node with the agent of the nearest placed name at or above it, in the order of names.
pub(crate) fn titles_at_start(alloc: Global, tree: &Tree, place: &[(Name, AgentId)]) -> Mem<Titles>
    requires once { IsDistinct (pointwise label_eq) (keys_of place.now) }
    requires top { list_any (pointwise label_eq (label_of tree.now ∷ [])) (keys_of place.now) ≡ true }
    ensures titles { IfOk result (λ titles. titles ≡ start_titles place.now tree.now) }
    ensures ordered { OnOk result (IsOrdered tree.now) }
{
    let placed = placed_titles(alloc, place)?;
    let mut titles = Titles::new(alloc);
    let mut path = Vec::new(alloc);
    let top = placed.get(&[*tree.label()]).unwrap();
    register(&mut titles, &placed, &mut path, tree, &top)?;
    Ok(titles)
}

// The titles of the placed names.
fn placed_titles(alloc: Global, place: &[(Name, AgentId)]) -> Mem<Titles>
    requires { IsDistinct (pointwise label_eq) (keys_of place.now) }
    ensures { IfOk result (λ placed. placed ≡ placed_titles place.now) }
{
    let mut placed = Titles::new(alloc);
    for (name, agent) in place {
        placed.insert(alloc, name.as_slice(), &(*agent, 0))?;
    }
    Ok(placed)
}

// Puts in the titles of a node and of all below it. `path` is the name of the node above, and `above` its
// title. At an error the path may be another.
fn register(
    titles: &mut Titles,
    placed: &Titles,
    path: &mut Vec<Label>,
    node: &Tree,
    above: &Title,
) -> Mem<()>
    ensures titles { OnOk result (titles.new ≡ put_all titles.old (titles_below placed.now path.old.items above.now node.now)) }
    ensures path { OnOk result (path.new.items ≡ path.old.items) }
    ensures ordered { OnOk result (IsOrdered node.now) }
{
    path.push(*node.label())?;
    let title = placed.get(path).unwrap_or(*above);
    titles.insert(*path.allocator(), path, &title)?;
    for child in node.children() {
        register(titles, placed, path, child, &title)?;
    }
    path.pop();
    Ok(())
}
