//! Steps from updates back to earlier ones of their nodes.
ghost use Rattle.std.specs.Prelude.{ℕ, ◌<◌, ◌≤◌, length, slice_index_or};
ghost use Rattle.iris_book.specs.declared.linked.LinkedUpdate.{LinkedUpdate};
ghost use Rattle.iris_book.specs.Linked.{IsAt, IsStep, AllLinked};

use crate::linked::LinkedUpdate;

// An earlier update of the same node, with at least so many before it.
fn step(entered: &[LinkedUpdate], at: usize, number: usize) -> usize
    requires linked { AllLinked entered.now }
    requires at { at < length entered.now }
    requires later { (d : LinkedUpdate) → number < (slice_index_or entered.now at d).before }
    ensures { (d : LinkedUpdate) → IsStep entered.now at (slice_index_or entered.now at d) number result }
{
    let update = &entered[at];
    if entered[update.jump].before >= number {
        update.jump
    } else {
        update.earlier
    }
}

// The update of that node with so many before it, found from a later one.
pub(crate) fn step_back(entered: &[LinkedUpdate], last: usize, number: usize) -> usize
    requires linked { AllLinked entered.now }
    requires last { last < length entered.now }
    requires later { (d : LinkedUpdate) → number ≤ (slice_index_or entered.now last d).before }
    ensures { (d : LinkedUpdate) → IsAt entered.now result (slice_index_or entered.now last d).node number }
{
    let mut at = last;
    while entered[at].before > number {
        at = step(entered, at, number);
    }
    at
}

// Where the second link of an update goes that follows the one at that place: over as many as the last
// two such links together, where these are equally long, and else to the one before.
pub(crate) fn jump_from(entered: &[LinkedUpdate], earlier: usize) -> usize
    requires linked { AllLinked entered.now }
    requires earlier { earlier < length entered.now }
    ensures { (d : LinkedUpdate) → (n : ℕ) × IsAt entered.now result (slice_index_or entered.now earlier d).node n × (n ≤ (slice_index_or entered.now earlier d).before) }
{
    let near = &entered[earlier];
    let far = &entered[near.jump];
    let farther = &entered[far.jump];
    if near.before - far.before == far.before - farther.before {
        far.jump
    } else {
        earlier
    }
}
