//! The arrival of a reply.
ghost use Rattle.std.specs.Prelude.{◌≡◌, true, IfOk, OnOk, OnErr, Some};
ghost use Rattle.iris_gather.specs.declared.entries.OpenGather.{OpenGather};
ghost use Rattle.iris_gather.specs.Gathers.{replied};
ghost use Rattle.iris_gather.specs.OpenGathers.{gather_at, unlent, awaits};
ghost use Rattle.iris_cache.specs.Recency.{taken_all, TookFirst};
ghost use Rattle.iris_agent.specs.Changes.{HasCache, HasGather};
ghost use Rattle.iris_agent.specs.Events.{HasReplied, IsBackBut};

use crate::agent::Agent;
use crate::room::Room;
use crate::step::{Step, nothing};
use crate::turn::Turn;
use iris_fragment::Piece;
use iris_tree::{Mem, Memory, Sequence};

impl Agent {
    // It takes in copies of pieces.
    fn take_all(&mut self, pieces: &[Piece]) -> Mem<()>
        ensures ok { OnOk result (HasCache self.old self.new (taken_all self.old.cache pieces.now)) }
        ensures err { OnErr result (TookFirst self.old.cache pieces.now self.new.cache) }
        ensures rest { self.new ≡ record self.old { cache = self.new.cache } }
    {
        self.cache.take_all(pieces)
    }

    // The gather of that number, which waits for the reply to that ask, takes copies of its pieces.
    fn reply_to(&mut self, number: u64, ask: u64, pieces: &[Piece]) -> Mem<()>
        requires { awaits ask (gather_at self.old.gathers number) ≡ true }
        ensures ok { OnOk result ((one : OpenGather) → gather_at self.old.gathers number ≡ Some one → HasGather self.old self.new number (Some (unlent (replied one.gather ask pieces.now)))) }
        ensures err { OnErr result (self.new ≡ self.old) }
    {
        self.gathers.keeps_order();
        let Some(gather) = self.gathers.get(number) else {
            unreachable!();
        };
        let Ok(gather) = gather.replied(ask, pieces) else {
            return Err(Memory);
        };
        self.gathers.reply(ask, gather)
    }

    // A reply arrives.
    pub(crate) fn arrive_reply<R: Room>(
        &mut self,
        ask: u64,
        pieces: &Sequence<Piece>,
        turn: Turn,
        room: &mut R,
    ) -> Mem<Vec<Step>>
        ensures arrived { IfOk result (λ made. HasReplied self.old self.new turn ask pieces.now made.items) }
        ensures room { IfOk result (λ made. R.has_room room.old room.new made.items) }
        ensures err { OnErr result (IsBackBut self.old self.new pieces.now) }
    {
        let steps = nothing(self.alloc, room)?;
        let Some(number) = self.awaiting(ask) else {
            return Ok(steps);
        };
        let pieces = pieces.as_slice();
        self.take_all(pieces)?;
        self.reply_to(number, ask, pieces)?;
        Ok(steps)
    }
}
