//! The posts of a city.
ghost use Rattle.std.specs.Prelude.{◌≡◌, ℕ, suc, ◌+◌, ◌<◌, ◌≤◌, nat_eq, true, false, not, if◌then◌else◌, [], ◌∷◌, ◌++◌, length, filter, Some, None, IsSome, IfSome, IfOk, option_copied};
ghost use Rattle.iris_tree.specs.TextLen.{saturated};
ghost use Rattle.iris_posts.specs.Weights.{weight_of};
ghost use Rattle.iris_posts.specs.Posts.{post_at, is_seen, bytes_of, marked, IsNext, AllSeen, MakesRoom};

use crate::growth::Growth;
use crate::post::Post;
use crate::slot::{Slot, first_waiting, place_of, weight_of_all};
use iris_migrate::Message;
use iris_tree::{AgentId, Mem};
use std::alloc::Global;
use std::marker::Model;

/// The posts of a city that are kept, in the order of their numbers. A post is found by a binary search,
/// and the first that waits for its delivery at once. Contracts see them as the `Queue` of
/// `specs/Posts.antt`.
#[derive(Drop)]
pub struct Posts {
    slots: Vec<Slot>,
    // The place of the first post that was not delivered, or the number of posts.
    first: usize,
    // The number of the next post.
    made: u64,
    // What the kept posts weigh together.
    bytes: u64,
}

impl Model for Posts {
    ghost use Rattle.iris_posts.specs.contracts.post.Post as post_type;
    ghost use Rattle.iris_posts.specs.Posts.{Queue, queue_code};
    ghost use Rattle.iris_posts.specs.Slots.{kept_in, AreKept};
    ghost use Rattle.std.specs.Prelude.{◌-◌};
    ghost use Rattle.std.specs.Vec.{vec_len, vec_capacity};

    ghost Value = { Queue };

    ghost coded = { queue_code post_type.the_row.coded };

    ghost view = { λ p. record { kept = kept_in p.slots.items; made = p.made; spare = vec_capacity p.slots - vec_len p.slots } };

    ghost invariant = { λ p. AreKept p.slots.items p.first p.made p.bytes };
}

impl Posts {
    /// No posts, of which none was made. It takes no memory.
    pub fn new(alloc: Global) -> Posts
        ensures { result ≡ record { kept = []; made = 0; spare = 0 } }
    {
        Posts {
            slots: Vec::new(alloc),
            first: 0,
            made: 0,
            bytes: 0,
        }
    }

    /// Memory for so many more posts, where there is not enough yet. It is found without a change of the posts,
    /// and `grow` takes it.
    pub fn growth(&self, n: usize) -> Mem<Growth>
        ensures { IfOk result (λ growth. MakesRoom growth self.now n) }
    {
        let alloc = *self.slots.allocator();
        let len = self.slots.len();
        if n <= self.slots.capacity() - len {
            return Ok(Growth::none(alloc));
        }
        Growth::to(alloc, len.saturating_add(n.max(len)))
    }

    /// Takes memory that was found before. It takes time for each kept post where it has more than was there.
    pub fn grow(&mut self, growth: Growth)
        ensures room { (n : ℕ) → MakesRoom growth self.old n → n ≤ self.new.spare }
        ensures kept { self.new.kept ≡ self.old.kept }
        ensures made { self.new.made ≡ self.old.made }
    {
        let mut slots = growth.into_slots();
        if slots.capacity() <= self.slots.capacity() {
            return;
        }
        if slots.append(&mut self.slots).is_err() {
            unreachable!();
        }
        self.slots = slots;
    }

    /// Makes a post of a message that weighs so much, and answers its number. It takes no memory.
    pub fn push(&mut self, to: AgentId, message: Message, weight: u64) -> u64
        requires room { 1 ≤ self.old.spare }
        requires weight { weight ≡ saturated (weight_of message) }
        requires numbers { self.old.made < u64.MAX }
        ensures number { result ≡ self.old.made }
        ensures kept { self.new.kept ≡ self.old.kept ++ record { number = self.old.made; post = record { to = to; message = message }; delivered = false } ∷ [] }
        ensures made { self.new.made ≡ suc self.old.made }
        ensures room { suc self.new.spare ≡ self.old.spare }

        // What follows of each number.
        ensures post { (other : ℕ) → post_at self.new other ≡ (if nat_eq other self.old.made then Some (record { to = to; message = message }) else post_at self.old other) }
        ensures seen { (other : ℕ) → is_seen self.new other ≡ (if nat_eq other self.old.made then false else is_seen self.old other) }
    {
        let number = self.made;
        self.slots.push_reserved(Slot {
            number,
            post: Post { to, message },
            delivered: false,
            weight,
        });
        self.made += 1;
        self.bytes = self.bytes.saturating_add(weight);
        number
    }

    /// The kept post of that number, delivered or not.
    pub fn get(&self, number: u64) -> Option<&Post>
        ensures { option_copied result ≡ post_at self.now number }
    {
        let at = place_of(self.slots.as_slice(), number)?;
        Some(&self.slots[at].post)
    }

    /// Whether a post of that number was made and was delivered. It says so of what was forgotten, too.
    pub fn is_delivered(&self, number: u64) -> bool
        ensures { result ≡ is_seen self.now number }
    {
        match place_of(self.slots.as_slice(), number) {
            Some(at) => self.slots[at].delivered,
            None => number < self.made,
        }
    }

    /// The kept post of that number was delivered, once more or for the first time. It takes no memory.
    pub fn mark(&mut self, number: u64)
        requires { IsSome (post_at self.old number) }
        ensures kept { self.new.kept ≡ marked self.old.kept number }
        ensures made { self.new.made ≡ self.old.made }
        ensures room { self.new.spare ≡ self.old.spare }

        // What follows of each number.
        ensures post { (other : ℕ) → post_at self.new other ≡ post_at self.old other }
        ensures seen { (other : ℕ) → is_seen self.new other ≡ (if nat_eq other number then true else is_seen self.old other) }
    {
        let Some(at) = place_of(self.slots.as_slice(), number) else {
            unreachable!();
        };
        let slot = &mut self.slots[at];
        slot.delivered = true;
        self.first = first_waiting(self.slots.as_slice(), self.first);
    }

    /// The lowest number of a post that waits for its delivery, if one does. It takes one look.
    pub fn next(&self) -> Option<u64>
        ensures some { IfSome result (λ number. IsNext self.now number) }
        ensures none { result ≡ None → AllSeen self.now }
    {
        Some(self.slots.get(self.first)?.number)
    }

    /// Drops the posts that were delivered, and answers how many these were. It takes no memory, and time
    /// for each kept post.
    pub fn forget(&mut self) -> u64
        ensures kept { self.new.kept ≡ filter (λ p. not p.delivered) self.old.kept }
        ensures dropped { result + length self.new.kept ≡ length self.old.kept }
        ensures made { self.new.made ≡ self.old.made }
        ensures room { self.old.spare ≤ self.new.spare }

        // What follows of each number.
        ensures post { (other : ℕ) → post_at self.new other ≡ (if is_seen self.old other then None else post_at self.old other) }
        ensures seen { (other : ℕ) → is_seen self.new other ≡ is_seen self.old other }
    {
        let before = self.slots.len();
        self.slots.retain(|slot| !slot.delivered);
        self.first = 0;
        self.bytes = weight_of_all(self.slots.as_slice());
        (before - self.slots.len()) as u64
    }

    /// The number of posts that are kept.
    pub fn count(&self) -> u64
        ensures { result ≡ length self.now.kept }
    {
        self.slots.len() as u64
    }

    /// What the messages of the kept posts weigh together, in bytes, or `u64::MAX` where it is more.
    pub fn bytes(&self) -> u64
        ensures { result ≡ bytes_of self.now }
    {
        self.bytes
    }

    /// The number of posts that were made, which is the number of the next post.
    pub fn made(&self) -> u64
        ensures number { result ≡ self.now.made }
        ensures later { (number : ℕ) → self.now.made ≤ number → post_at self.now number ≡ None }
    {
        self.made
    }
}
