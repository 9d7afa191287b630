//! How posts lie.
ghost use Rattle.std.specs.Prelude.{◌≡◌, ℕ, ◌<◌, ◌≤◌, true, length, slice_get, sum_by, IfSome, option_and_then};
ghost use Rattle.std.specs.List.{AllWithin};
ghost use Rattle.iris_tree.specs.TextLen.{saturated};
ghost use Rattle.iris_posts.specs.Posts.{kept_at};
ghost use Rattle.iris_posts.specs.Slots.{kept_in, AreNumbered, IsFirstWaiting};

use crate::post::Post;

/// A post with its number, whether it was delivered, and what its message weighs.
#[derive(Drop)]
pub(crate) struct Slot {
    pub(crate) number: u64,
    pub(crate) post: Post,
    pub(crate) delivered: bool,
    pub(crate) weight: u64,
}

// The place of the post of that number, if it is kept, by a binary search.
pub(crate) fn place_of(slots: &[Slot], number: u64) -> Option<usize>
    requires { (made : ℕ) × AreNumbered 0 made slots.now }
    ensures post { option_and_then (slice_get (kept_in slots.now)) result ≡ kept_at (kept_in slots.now) number }
    ensures within { IfSome result (λ at. at < length slots.now) }
{
    slots.binary_search_by_key(&number, |slot| slot.number).ok()
}

// The place of the first post that was not delivered, or the number of posts. All posts before `at` were
// delivered.
pub(crate) fn first_waiting(slots: &[Slot], mut at: usize) -> usize
    requires within { at ≤ length slots.now }
    requires before { AllWithin (λ s. s.delivered ≡ true) slots.now 0 at }
    ensures { IsFirstWaiting slots.now result }
{
    while at < slots.len() && slots[at].delivered {
        at += 1;
    }
    at
}

// What all of them weigh together.
pub(crate) fn weight_of_all(slots: &[Slot]) -> u64
    ensures { result ≡ saturated (sum_by (λ s. s.weight) slots.now) }
{
    let mut sum: u64 = 0;
    for slot in slots {
        sum = sum.saturating_add(slot.weight);
    }
    sum
}
