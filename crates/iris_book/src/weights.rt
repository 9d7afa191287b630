//! What entries weigh.
ghost use Rattle.std.specs.Prelude.{◌≡◌, ◌+◌, ◌*◌, length};
ghost use Rattle.iris_tree.specs.TextLen.{saturated};
ghost use Rattle.iris_tree.specs.LocalText.{local_text};
ghost use Rattle.iris_tree.specs.Changes.{changes_text};

use iris_tree::{Change, Local, changes_len};

/// What each entry weighs for itself, in bytes.
pub const ENTRY_WEIGHT: u64 = 128;

/// What each cite of an answer adds, in bytes.
pub const CITE_WEIGHT: u64 = 64;

// What an update weighs.
pub(crate) fn update_weight(changes: &[Change], local: &Local) -> u64
    ensures { result ≡ saturated (ENTRY_WEIGHT + length (changes_text changes.now) + length (local_text local.now)) }
{
    changes_len(changes)
        .saturating_add(local.text_len())
        .saturating_add(ENTRY_WEIGHT)
}

// What an answer with so many cites weighs.
pub(crate) fn answer_weight(cites: usize) -> u64
    ensures { result ≡ saturated (ENTRY_WEIGHT + CITE_WEIGHT * cites) }
{
    (cites as u64)
        .saturating_mul(CITE_WEIGHT)
        .saturating_add(ENTRY_WEIGHT)
}
