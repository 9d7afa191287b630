//! What is sent and told as the steps of an event are made.
ghost use Rattle.std.specs.Prelude.{◌≡◌, ℕ, suc, ◌+◌, ◌<◌, ◌≤◌, ◌^◌, true, false, if◌then◌else◌, List, [], ◌∷◌, ◌++◌, length, Some, None, IfOk, OnOk, IsSome};
ghost use Rattle.iris_tree.specs.TextLen.{saturated};
ghost use Rattle.iris_posts.specs.Posts.{post_at, is_seen};
ghost use Rattle.iris_posts.specs.Weights.{weight_of};
ghost use Rattle.iris_agent.specs.declared.step.Step.{Step};
ghost use Rattle.iris_agent.specs.Tables.{at_number};
ghost use Rattle.iris_outbox.specs.Outbox.{IsFirst, IsMadeFor, IsReadyFor};

use crate::preparing::Preparing;
use crate::steps::{answer_cites, are_left, post_lines, post_weights};
use iris_agent::Step;
use iris_json::Out;
use iris_migrate::Message;
use iris_posts::{Growth, Posts};
use iris_tree::{AgentId, Cite, Mem, Sequence};
use std::alloc::Global;
use std::collections::VecDeque;
use std::marker::Model;
use std::mem;

/// What is made ready for the steps of an event before it changes what lasts: memory for its posts, what these
/// weigh, what its answers rest on, and the lines of its posts, by the numbers that these will have.
#[derive(Drop)]
pub struct Ready {
    growth: Growth,
    weights: VecDeque<u64>,
    cites: VecDeque<Sequence<Cite>>,
    lines: Vec<Out>,
}

impl Model for Ready {
    ghost use Rattle.std.specs.Vec.{vec_capacity};
    ghost use Rattle.iris_base.specs.contracts.cite.Cite as cite_type;
    ghost use Rattle.iris_json.specs.contracts.out.Out as out_type;
    ghost use Rattle.iris_outbox.specs.Outbox.{Readiness, readiness_code};

    ghost Value = { Readiness };

    ghost coded = { readiness_code cite_type.the_row.coded out_type.the_row.coded };

    ghost view = { λ r. record { growth = r.growth; weights = r.weights.items; cites = r.cites.items; lines = r.lines.items; room = vec_capacity r.lines } };
}

impl Ready {
    // Nothing was made ready yet. It takes no memory.
    pub(crate) fn none(alloc: Global) -> Ready {
        Ready {
            growth: Growth::none(alloc),
            weights: VecDeque::new(alloc),
            cites: VecDeque::new(alloc),
            lines: Vec::new(alloc),
        }
    }

    // All that follows from these steps, where the posts before them are those.
    pub(crate) fn make(alloc: Global, posts: &Posts, steps: &[Step]) -> Mem<Ready>
        ensures { IfOk result (λ ready. IsMadeFor posts.now ready steps.now) }
    {
        let next = posts.made();
        are_left(next, steps.len())?;
        let weights = post_weights(alloc, steps)?;
        let cites = answer_cites(alloc, steps)?;
        let lines = post_lines(alloc, next, steps)?;
        let growth = posts.growth(steps.len())?;
        Ok(Ready {
            growth,
            weights,
            cites,
            lines,
        })
    }
}

/// The posts of a city, and room for what an event sends and tells.
#[derive(Drop)]
pub struct Outbox {
    alloc: Global,
    posts: Posts,
    // What each post that comes next weighs.
    weights: VecDeque<u64>,
    // What each answer that comes next rests on, for the book.
    cites: VecDeque<Sequence<Cite>>,
    lines: Vec<Out>,
}

impl Model for Outbox {
    ghost use Rattle.std.specs.Vec.{vec_capacity};
    ghost use Rattle.iris_base.specs.contracts.cite.Cite as cite_type;
    ghost use Rattle.iris_json.specs.contracts.out.Out as out_type;
    ghost use Rattle.iris_posts.specs.contracts.posts.Posts as posts_type;
    ghost use Rattle.iris_outbox.specs.Outbox.{Outgoing, outgoing_code};

    ghost Value = { Outgoing };

    ghost coded = { outgoing_code posts_type.the_row.coded cite_type.the_row.coded out_type.the_row.coded };

    ghost view = { λ o. record { posts = o.posts; weights = o.weights.items; cites = o.cites.items; lines = o.lines.items; room = vec_capacity o.lines } };
}

impl Outbox {
    /// No posts, and room for none. It takes no memory.
    pub fn new(alloc: Global) -> Outbox
        ensures posts { result.posts ≡ record { kept = []; made = 0; spare = 0 } }
    {
        Outbox {
            alloc,
            posts: Posts::new(alloc),
            weights: VecDeque::new(alloc),
            cites: VecDeque::new(alloc),
            lines: Vec::new(alloc),
        }
    }

    /// Room for an event that is still under way. The posts are only looked at; `set` takes what was made
    /// ready.
    pub fn preparing(&self) -> Preparing<'_>
        ensures { result.posts.now ≡ self.now.posts }
    {
        Preparing::new(self.alloc, &self.posts)
    }

    /// Takes what was made ready. It takes no memory.
    pub fn set(&mut self, ready: Ready)
        ensures ready { (steps : List Step) → IsMadeFor self.old.posts ready steps → IsReadyFor self.new steps }
        ensures kept { self.new.posts.kept ≡ self.old.posts.kept }
        ensures made { self.new.posts.made ≡ self.old.posts.made }
    {
        self.posts.grow(ready.growth);
        self.weights = ready.weights;
        self.cites = ready.cites;
        self.lines = ready.lines;
    }

    /// Makes room for what follows from these steps, and changes no post.
    pub fn prepare(&mut self, steps: &[Step]) -> Mem<()>
        ensures ready { OnOk result (IsReadyFor self.new steps.now) }
        ensures kept { self.new.posts.kept ≡ self.old.posts.kept }
        ensures made { self.new.posts.made ≡ self.old.posts.made }
    {
        let ready = Ready::make(self.alloc, &self.posts, steps)?;
        self.set(ready);
        Ok(())
    }

    /// The posts.
    pub fn posts(&self) -> &Posts
        ensures { result.now ≡ self.now.posts }
    {
        &self.posts
    }

    /// The post of that number was delivered. It takes no memory.
    pub fn mark(&mut self, number: u64)
        requires { IsSome (post_at self.old.posts number) }
        ensures post { (other : ℕ) → post_at self.new.posts other ≡ post_at self.old.posts other }
        ensures seen { (other : ℕ) → is_seen self.new.posts other ≡ at_number (is_seen self.old.posts) number true other }
        ensures made { self.new.posts.made ≡ self.old.posts.made }
        ensures spare { self.new.posts.spare ≡ self.old.posts.spare }
        ensures rest { self.new ≡ record self.old { posts = self.new.posts } }
    {
        self.posts.mark(number);
    }

    /// Drops the posts that were delivered, and answers how many these were. It takes no memory.
    pub fn forget(&mut self) -> u64
        ensures dropped { result + length self.new.posts.kept ≡ length self.old.posts.kept }
        ensures post { (other : ℕ) → post_at self.new.posts other ≡ (if is_seen self.old.posts other then None else post_at self.old.posts other) }
        ensures seen { (other : ℕ) → is_seen self.new.posts other ≡ is_seen self.old.posts other }
        ensures made { self.new.posts.made ≡ self.old.posts.made }
        ensures rest { self.new ≡ record self.old { posts = self.new.posts } }
    {
        self.posts.forget()
    }

    /// Sends a message to an agent: it is the next post, and room was made for it. It takes no memory.
    pub fn send(&mut self, to: AgentId, message: Message)
        requires spare { 1 ≤ self.old.posts.spare }
        requires numbers { suc self.old.posts.made < 2 ^ 64 }
        requires weight { IsFirst self.old.weights (saturated (weight_of message)) }
        ensures post { (other : ℕ) → post_at self.new.posts other ≡ at_number (post_at self.old.posts) self.old.posts.made (Some (record { to = to; message = message })) other }
        ensures seen { (other : ℕ) → is_seen self.new.posts other ≡ at_number (is_seen self.old.posts) self.old.posts.made false other }
        ensures made { self.new.posts.made ≡ suc self.old.posts.made }
        ensures spare { suc self.new.posts.spare ≡ self.old.posts.spare }
        ensures weights { self.old.weights ≡ saturated (weight_of message) ∷ self.new.weights }
        ensures rest { self.new ≡ record self.old { posts = self.new.posts; weights = self.new.weights } }
    {
        let Some(weight) = self.weights.pop_front() else {
            unreachable!();
        };
        self.posts.push(to, message, weight);
    }

    /// Takes what an answer rests on, for the book. It takes no memory.
    pub fn next_cites(&mut self, cites: &Sequence<Cite>) -> Sequence<Cite>
        requires { IsFirst self.old.cites cites.now }
        ensures result { result ≡ cites.now }
        ensures cites { self.old.cites ≡ cites.now ∷ self.new.cites }
        ensures rest { self.new ≡ record self.old { cites = self.new.cites } }
    {
        let Some(first) = self.cites.pop_front() else {
            unreachable!();
        };
        first
    }

    /// Tells a line, for which room was made. It takes no memory.
    pub fn tell(&mut self, line: Out)
        requires { length self.old.lines < self.old.room }
        ensures { self.new ≡ record self.old { lines = self.old.lines ++ line ∷ [] } }
    {
        self.lines.push_reserved(line);
    }

    /// Takes the lines that were told. It takes no memory.
    pub fn take_lines(&mut self) -> Vec<Out>
        ensures lines { result.items ≡ self.old.lines }
        ensures rest { self.new ≡ record self.old { lines = []; room = 0 } }
    {
        mem::replace(&mut self.lines, Vec::new(self.alloc))
    }
}
