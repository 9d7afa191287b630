//! Room for an event that is under way.
ghost use Rattle.std.specs.Prelude.{◌≡◌};
ghost use Rattle.iris_outbox.specs.Outbox.{IsPrepared};

use crate::outbox::Ready;
use iris_agent::{Room, Step};
use iris_posts::Posts;
use iris_tree::Mem;
use std::alloc::Global;

/// Room for an event at an agent, where its steps will be posts behind these.
#[derive(Drop)]
pub struct Preparing<'a> {
    alloc: Global,
    pub(crate) posts: &'a Posts,
    pub(crate) ready: Ready,
}

impl Room for Preparing<'_> {
    ghost has_room = { λ before after steps. IsPrepared before.posts.now after.posts.now after.ready steps };

    fn make(&mut self, steps: &[Step]) -> Mem<()> {
        self.ready = Ready::make(self.alloc, self.posts, steps)?;
        Ok(())
    }
}

impl<'a> Preparing<'a> {
    // Nothing was made ready yet.
    pub(crate) fn new(alloc: Global, posts: &'a Posts) -> Preparing<'a>
        ensures { result.posts.now ≡ posts.now }
    {
        Preparing {
            alloc,
            posts,
            ready: Ready::none(alloc),
        }
    }

    /// What was made ready.
    pub fn ready(self) -> Ready
        ensures { result ≡ self.entry.ready }
    {
        self.ready
    }
}
