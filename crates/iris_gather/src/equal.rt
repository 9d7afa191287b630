//! Whether local information is the same.
ghost use Rattle.std.specs.Prelude.{◌≡◌, ◌≢◌, MatchBool};
ghost use Rattle.iris_gather.specs.Equal.{IsSameHead};

use iris_tree::{Label, Local, Plain, Sequence};

// Whether two elements are the same but for their kids.
fn same_head(one: &Plain, other: &Plain) -> bool
    ensures { MatchBool result (IsSameHead one.now other.now) (IsSameHead one.now other.now → ⊥) }
{
    if one.tag != other.tag || one.attrs != other.attrs {
        return false;
    }
    one.text == other.text
}

// Whether two elements are the same, with all below them.
fn same_plain(one: &Plain, other: &Plain) -> bool
    ensures { MatchBool result (one.now ≡ other.now) (one.now ≢ other.now) }
{
    if !same_head(one, other) {
        return false;
    }
    let mut rest = other.kids.as_slice();
    for kid in one.kids.as_slice() {
        let Some((first, later)) = rest.split_first() else {
            return false;
        };
        if !same_plain(kid, first) {
            return false;
        }
        rest = later;
    }
    rest.is_empty()
}

// Whether two lists of elements are the same.
fn same_all(ones: &[Plain], others: &[Plain]) -> bool
    ensures { MatchBool result (ones.now ≡ others.now) (ones.now ≢ others.now) }
{
    let mut rest = others;
    for one in ones {
        let Some((first, later)) = rest.split_first() else {
            return false;
        };
        if !same_plain(one, first) {
            return false;
        }
        rest = later;
    }
    rest.is_empty()
}

/// Whether two nodes' local information is the same.
pub(crate) fn same_local(one: &Local, other: &Local) -> bool
    ensures { MatchBool result (one.now ≡ other.now) (one.now ≢ other.now) }
{
    one.attrs == other.attrs && same_all(one.plain.as_slice(), other.plain.as_slice())
}

/// Whether two lists of labels are the same.
pub(crate) fn same_ids(one: &Sequence<Label>, other: &Sequence<Label>) -> bool
    ensures { MatchBool result (one.now ≡ other.now) (one.now ≢ other.now) }
{
    one == other
}
