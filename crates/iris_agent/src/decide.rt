//! The decision of a gather.
ghost use Rattle.std.specs.Prelude.{◌≡◌, ◌+◌, ◌<◌, ◌^◌, ◌∷◌, ℕ, [], true, Some, None, All, length, map, IsSome, IfOk, OnOk, OnErr, option_map};
ghost use Rattle.std.specs.List.{enumerate_from};
ghost use Rattle.std.specs.Option.{ForSome, IsSomeAnd};
ghost use Rattle.iris_need.specs.Needs.{missing_of};
ghost use Rattle.iris_route.specs.Titles.{title_at};
ghost use Rattle.iris_need.specs.Pieces.{pieces_in};
ghost use Rattle.iris_gather.specs.declared.entries.OpenGather.{OpenGather};
ghost use Rattle.iris_gather.specs.Gathers.{need_at, settled};
ghost use Rattle.iris_gather.specs.OpenGathers.{gather_at, unlent, awaits, is_due, NoGather};
ghost use Rattle.iris_gather.specs.Verdicts.{asks_of};
ghost use Rattle.iris_agent.specs.Changes.{HasCache, HasGather};
ghost use Rattle.iris_agent.specs.Decisions.{laid_view, ask_posted, asks_posted, ending, all_touched, next_asks, judged, decides, AreFreeAsks, AreRouted, IsBasis, MayStart, HasDecided};
ghost use Rattle.iris_agent.specs.Handled.{Does};
ghost use Rattle.iris_agent.specs.Tables.{tables_of, with_cache, with_gather};

use crate::agent::Agent;
use crate::room::Room;
use crate::step::{Step, one_step};
use crate::turn::Turn;
use iris_cache::Cached;
use iris_fragment::Piece;
use iris_gather::{Basis, Gather, Parent, Verdict};
use iris_migrate::Message;
use iris_need::{Need, Start};
use iris_route::Registry;
use iris_tree::{AgentId, Cite, Item, Label, Mem, Memory, Sequence};
use std::alloc::Global;

// Where the evaluation of an asked need starts.
fn start_of(top: Label, need: &Need) -> Mem<Start>
    ensures { IfOk result (λ start. start ≡ Rattle.iris_agent.specs.Decisions.start_of top need.now) }
{
    let Need {
        name,
        level,
        states,
    } = need.copy()?;
    Ok(Start {
        top,
        name,
        level,
        states,
    })
}

// The ask of that number for a need of a gather.
fn ask_post(id: AgentId, gather: &Gather, ask: u64, need: &Need, registry: &Registry) -> Mem<Step>
    requires { IsSome (title_at registry.now need.now.name) }
    ensures { IfOk result (λ step. step ≡ ask_posted registry.now id gather.now (ask, need.now)) }
{
    let Some((to, epoch)) = registry.owner(&need.name) else {
        unreachable!();
    };
    Ok(Step::Post {
        to,
        message: Message::Ask {
            ask,
            from: id,
            query: gather.query().copy()?,
            start: start_of(gather.start().top, need)?,
            epoch,
            floor: gather.floor(),
        },
    })
}

// The asks for these needs of a gather, numbered from `next` on.
fn ask_posts(
    alloc: Global,
    id: AgentId,
    gather: &Gather,
    next: u64,
    needs: &[Need],
    registry: &Registry,
) -> Mem<Vec<Step>>
    requires numbers { next + length needs.now < 2 ^ 64 }
    requires routed { AreRouted registry.now needs.now }
    ensures { IfOk result (λ steps. steps.items ≡ map (ask_posted registry.now id gather.now) (enumerate_from next needs.now)) }
{
    let mut steps = Vec::with_capacity(alloc, needs.len())?;
    let mut ask = next;
    for need in needs {
        steps.push(ask_post(id, gather, ask, need, registry)?)?;
        ask += 1;
    }
    Ok(steps)
}

// What the end of a gather tells its client or posts to the agent that asked.
fn ending(gather: &Gather, items: Sequence<Item>, cites: Sequence<Cite>) -> Mem<Step>
    ensures { IfOk result (λ step. step ≡ Rattle.iris_agent.specs.Decisions.ending gather.now items cites gather.now.parent) }
{
    match gather.parent() {
        Parent::Client { request } => Ok(Step::Answered {
            request,
            query: gather.query().copy()?,
            floor: gather.floor(),
            items,
            cites,
        }),
        Parent::Ask { ask, agent } => {
            let pieces = Sequence::from_vec(gather.view().pieces()?);
            Ok(Step::Post {
                to: agent,
                message: Message::Reply { ask, pieces },
            })
        }
    }
}

// The turn once the numbers of asks for these needs are taken. The greatest number is never taken.
fn after_asks(turn: Turn, needs: &[Need]) -> Mem<Turn>
    ensures turn { IfOk result (λ after. after ≡ next_asks turn (length needs.now)) }
    ensures numbers { OnOk result (turn.next_ask + length needs.now < 2 ^ 64) }
{
    let Some(next_ask) = turn.next_ask.checked_add(needs.len() as u64) else {
        return Err(Memory);
    };
    Ok(Turn {
        now: turn.now,
        next_ask,
        next_gather: turn.next_gather,
    })
}

// Each copy among the nodes of these needs was used. It takes no memory.
fn touch_all(cache: &mut Cached, needs: &[Need])
    ensures { cache.new.cache ≡ all_touched cache.old.cache needs.now }
{
    for need in needs {
        cache.touch(&need.name);
    }
}

impl Agent {
    // What the gather of that number decides now.
    fn basis(&self, number: u64, now: u64) -> Mem<Basis>
        requires there { IsSome (gather_at self.now.gathers number) }
        requires start { ForSome (gather_at self.now.gathers number) (λ one. MayStart one.gather.start) }
        ensures { IfOk result (λ basis. (one : OpenGather) → gather_at self.now.gathers number ≡ Some one → IsBasis one.gather.query one.gather.start (laid_view self.now now one.gather) basis) }
    {
        let Some(gather) = self.gather(number) else {
            unreachable!();
        };
        let floor = gather.floor();
        let fragment = self.fragment();
        Basis::of(
            self.alloc,
            gather.query(),
            gather.start(),
            floor,
            gather.view(),
            fragment,
            now,
        )
    }

    // The gather of that number, once it took the pieces of its verdict and waits for what it asks.
    fn settled(&self, number: u64, verdict: &Verdict, pieces: &[Piece], next: u64) -> Mem<Gather>
        requires idle { IsSomeAnd (gather_at self.now.gathers number) (λ one. one.gather.pending ≡ []) }
        requires numbers { next + length (asks_of verdict.now) < 2 ^ 64 }
        ensures taken { IfOk result (λ gather. (one : OpenGather) → gather_at self.now.gathers number ≡ Some one → gather ≡ settled one.gather verdict.now pieces.now next) }
        ensures pending { IfOk result (λ gather. gather.pending ≡ enumerate_from next (asks_of verdict.now)) }
        ensures number { IfOk result (λ gather. gather.id ≡ number) }
        ensures parent { IfOk result (λ gather. IsSomeAnd (gather_at self.now.gathers number) (λ one. (one.gather.parent ≡ gather.parent) × (one.gather.pending ≡ []))) }
    {
        self.gathers.keeps_order();
        let Some(gather) = self.gathers.get(number) else {
            unreachable!();
        };
        gather.settled(verdict, pieces, next)
    }

    // Each copy among the nodes of these needs was used. It takes no memory.
    fn touch_all(&mut self, needs: &[Need])
        ensures { HasCache self.old self.new (all_touched self.old.cache needs.now) }
    {
        touch_all(&mut self.cache, needs);
    }

    // A gather that settled its verdict waits for what it asks.
    fn wait(&mut self, gather: Gather) -> Mem<()>
        requires idle { IsSomeAnd (gather_at self.old.gathers gather.id) (λ one. (one.gather.parent ≡ gather.parent) × (one.gather.pending ≡ [])) }
        requires fresh { (ask : ℕ) → IsSome (need_at gather.pending ask) → NoGather (awaits ask) self.old.gathers }
        ensures ok { OnOk result (HasGather self.old self.new gather.id (Some (unlent gather))) }
        ensures err { OnErr result (self.new ≡ self.old) }
    {
        self.gathers.wait(gather)
    }

    // The gather of that number ends with a step.
    fn end<R: Room>(
        &mut self,
        number: u64,
        step: Step,
        support: &[Need],
        room: &mut R,
    ) -> Mem<Vec<Step>>
        ensures steps { IfOk result (λ made. made.items ≡ step ∷ []) }
        ensures room { OnOk result (R.has_room room.old room.new (step ∷ [])) }
        ensures tables { OnOk result (tables_of self.new ≡ with_gather (with_cache (tables_of self.old) (all_touched self.old.cache support.now)) number None) }
        ensures err { OnErr result (self.new ≡ self.old) }
    {
        let steps = one_step(self.alloc, step)?;
        room.make(&steps)?;
        self.close(number);
        self.touch_all(support);
        Ok(steps)
    }

    // A gather that settled its verdict asks by these steps, and waits.
    fn ask<R: Room>(
        &mut self,
        number: u64,
        gather: Gather,
        steps: &[Step],
        support: &[Need],
        room: &mut R,
    ) -> Mem<()>
        requires number { gather.id ≡ number }
        requires idle { IsSomeAnd (gather_at self.old.gathers number) (λ one. (one.gather.parent ≡ gather.parent) × (one.gather.pending ≡ [])) }
        requires fresh { (ask : ℕ) → IsSome (need_at gather.pending ask) → NoGather (awaits ask) self.old.gathers }
        ensures room { OnOk result (R.has_room room.old room.new steps.now) }
        ensures tables { OnOk result (tables_of self.new ≡ with_gather (with_cache (tables_of self.old) (all_touched self.old.cache support.now)) number (Some (unlent gather))) }
        ensures err { OnErr result (self.new ≡ self.old) }
    {
        room.make(steps)?;
        self.wait(gather)?;
        self.touch_all(support);
        Ok(())
    }

    // The gather of that number takes the pieces of what it decided, and goes on.
    pub(crate) fn judge<R: Room>(
        &mut self,
        number: u64,
        basis: Basis,
        turn: &mut Turn,
        registry: &Registry,
        room: &mut R,
    ) -> Mem<Vec<Step>>
        requires idle { IsSomeAnd (gather_at self.old.gathers number) (λ one. one.gather.pending ≡ []) }
        requires fresh { AreFreeAsks self.old turn.old.next_ask }
        requires routed { AreRouted registry.now (asks_of basis.verdict) }
        ensures judged { IfOk result (λ made. (one : OpenGather) → gather_at self.old.gathers number ≡ Some one → Does self.new turn.new made.items (decides registry.now self.old turn.old number one.gather basis)) }
        ensures room { IfOk result (λ made. R.has_room room.old room.new made.items) }
        ensures err { OnErr result (self.new ≡ self.old) }
        ensures turn { OnErr result (turn.new ≡ turn.old) }
    {
        let Basis {
            verdict,
            pieces,
            cites,
        } = basis;
        let after = after_asks(*turn, verdict.asks())?;
        let gather = self.settled(number, &verdict, pieces.as_slice(), turn.next_ask)?;
        match verdict {
            Verdict::Done { support, items } => {
                let step = ending(&gather, items, cites)?;
                let steps = self.end(number, step, support.as_slice(), room)?;
                Ok(steps)
            }
            Verdict::Asks { support, missing } => {
                let needs = missing.as_slice();
                let steps = ask_posts(
                    self.alloc,
                    self.id,
                    &gather,
                    turn.next_ask,
                    needs,
                    registry,
                )?;
                self.ask(number, gather, &steps, support.as_slice(), room)?;
                *turn = after;
                Ok(steps)
            }
        }
    }

    /// A gather that is due decides, over its view laid over what the agent holds and may use for the
    /// gather's floor. With nothing missing it ends: a client gets its answer, and an asking agent all pieces
    /// of the view. Else it asks for each missing need once, in the order of names, the owner of its node by
    /// the registry, and waits. The copies on which the decision rests count as used.
    ///
    /// Where there is no memory all is as before, and room may have been made.
    pub fn decide<R: Room>(
        &mut self,
        gather: u64,
        turn: &mut Turn,
        registry: &Registry,
        room: &mut R,
    ) -> Mem<Vec<Step>>
        requires due { is_due (gather_at self.old.gathers gather) ≡ true }
        requires start { ForSome (gather_at self.old.gathers gather) (λ one. MayStart one.gather.start) }
        requires fresh { AreFreeAsks self.old turn.old.next_ask }
        requires routed { ForSome (gather_at self.old.gathers gather) (λ one. AreRouted registry.now (missing_of one.gather.query one.gather.start (laid_view self.old turn.old.now one.gather))) }
        ensures decided { IfOk result (λ made. HasDecided registry.now self.old self.new turn.old turn.new gather made.items) }
        ensures room { IfOk result (λ made. R.has_room room.old room.new made.items) }
        ensures err { OnErr result (self.new ≡ self.old) }
        ensures turn { OnErr result (turn.new ≡ turn.old) }
    {
        let basis = self.basis(gather, turn.now)?;
        self.judge(gather, basis, turn, registry, room)
    }
}
