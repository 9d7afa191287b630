//! What an evaluation from a start lacks, and what it rests on.
ghost use Rattle.std.specs.Prelude.{◌≡◌, ◌≤◌, length, map, IfOk, OnOk};
ghost use Rattle.iris_base.specs.declared.limits.TheConstants.{MAX_STEPS};
ghost use Rattle.iris_xpath.specs.Syntax.{main_of};
ghost use Rattle.iris_need.specs.Needs.{missing_of, support_of};
ghost use Rattle.std.specs.Prelude.{[], drop};
ghost use Rattle.iris_need.specs.Collected.{collected};
ghost use Rattle.iris_need.specs.Program.{gather, own_look, enter, test_at, spot_of, program};
ghost use Rattle.iris_need.specs.Walk.{Adds, spot_in, steps_entered};

use crate::looks::{Looks, Marks};
use crate::need::{Need, Start};
use crate::needs::Needs;
use crate::route::Route;
use crate::spot::Spot;
use crate::view::View;
use crate::walk::Walk;
use iris_fragment::Level;
use iris_tree::{Mem, Name, State};
use iris_xpath::{Expression, Query, Step};
use std::alloc::Global;

impl<'a> Walk<'a> {
    // Takes the step of that number from a place, with the state that was asked for.
    fn resume_step(
        &self,
        steps: &[Step<Expression>],
        number: u32,
        state: State,
        spot: &Spot,
        name: &mut Name,
        needs: &mut Needs,
    ) -> Mem<()>
        requires few { length steps.now ≤ MAX_STEPS }
        ensures name { OnOk result (name.new ≡ name.old) }
        ensures adds { OnOk result (Adds self.now needs.old needs.new (steps_entered self.now.top state number (drop number (map main_of steps.now)) (spot_in name.old spot.now))) }
    {
        let Some(route) = Route::at(steps, number) else {
            return Ok(());
        };
        self.go(&route, &Marks::Each(state), spot, name, needs)
    }

    // Tests a place by the step of that number, and goes on from it.
    fn resume_test(
        &self,
        steps: &[Step<Expression>],
        number: u32,
        spot: &Spot,
        name: &mut Name,
        needs: &mut Needs,
    ) -> Mem<()>
        requires few { length steps.now ≤ MAX_STEPS }
        ensures name { OnOk result (name.new ≡ name.old) }
        ensures adds { OnOk result (Adds self.now needs.old needs.new (test_at self.now.top number (drop number (map main_of steps.now)) (spot_in name.old spot.now))) }
    {
        let Some(route) = Route::at(steps, number) else {
            return Ok(());
        };
        self.test(&route, spot, name, needs)
    }

    // Goes on at a place as a state says.
    fn resume(
        &self,
        steps: &[Step<Expression>],
        state: State,
        spot: &Spot,
        name: &mut Name,
        needs: &mut Needs,
    ) -> Mem<()>
        requires few { length steps.now ≤ MAX_STEPS }
        ensures name { OnOk result (name.new ≡ name.old) }
        ensures adds { OnOk result (Adds self.now needs.old needs.new (enter self.now.top (map main_of steps.now) (spot_in name.old spot.now) state)) }
    {
        match state {
            State::At(i) => self.resume_step(steps, i, state, spot, name, needs),
            State::Seek(i) => self.resume_step(steps, i, state, spot, name, needs),
            State::Test(i) => self.resume_test(steps, i, spot, name, needs),
            State::Whole => { self.whole(spot, name, needs) }
        }
    }

    // Goes on at the document or at a node as each state of a start says.
    fn resume_all(
        &self,
        steps: &[Step<Expression>],
        states: &[State],
        name: &mut Name,
        needs: &mut Needs,
    ) -> Mem<()>
        requires few { length steps.now ≤ MAX_STEPS }
        ensures { OnOk result (Adds self.now needs.old needs.new (gather (enter self.now.top (map main_of steps.now) (spot_of name.old)) states.now)) }
    {
        let spot = Spot::of(name);
        // The proof of borrows is to be told that a spot may hold local information.
        let _local = spot.local();
        for state in states {
            self.resume(steps, *state, &spot, name, needs)?;
        }
        Ok(())
    }

    // Looks at the start's own node.
    fn look_at_start(&self, name: &Name, level: Level, needs: &mut Needs) -> Mem<()>
        ensures { OnOk result (Adds self.now needs.old needs.new (own_look name.now level)) }
    {
        match level {
            Level::Ids => {
                self.see_ids(name, None, needs)?;
            }
            Level::Full => {
                self.see_full(name, None, needs)?;
            }
        }
        Ok(())
    }

    // Evaluates a query from a start.
    fn evaluate(&self, query: &Query, start: &Start, needs: &mut Needs) -> Mem<()>
        requires top { self.now.top ≡ start.now.top }
        ensures { OnOk result (Adds self.now needs.old needs.new (program query.now start.now)) }
    {
        let steps = query.steps();
        let states = start.states.as_slice();
        let mut name = start.name.copy()?;
        if name.is_document() {
            return self.resume_all(steps, states, &mut name, needs);
        }
        self.look_at_start(&name, start.level, needs)?;
        self.resume_all(steps, states, &mut name, needs)
    }
}

// The looks of an evaluation from a start.
fn looks_of(
    alloc: Global,
    query: &Query,
    start: &Start,
    view: &View,
    takes: Looks,
) -> Mem<Vec<Need>>
    ensures { IfOk result (λ needs. needs.items ≡ collected takes start.now.name view.now [] (program query.now start.now)) }
{
    let mut needs = Needs::new(alloc);
    let walk = Walk {
        alloc,
        view,
        top: start.top,
        above: &start.name,
        takes,
    };
    walk.evaluate(query, start, &mut needs)?;
    needs.into_vec()
}

/// What an evaluation from a start lacks: of each look that the view doesn't meet the name, the level and
/// the states, merged by name.
pub fn missing(alloc: Global, query: &Query, start: &Start, view: &View) -> Mem<Vec<Need>>
    ensures { IfOk result (λ needs. needs.items ≡ missing_of query.now start.now view.now) }
{
    looks_of(alloc, query, start, view, Looks::Unmet)
}

/// What an evaluation from a start rests on: of each look that the view meets the name and the level,
/// merged by name.
pub fn support(alloc: Global, query: &Query, start: &Start, view: &View) -> Mem<Vec<Need>>
    ensures { IfOk result (λ needs. needs.items ≡ support_of query.now start.now view.now) }
{
    looks_of(alloc, query, start, view, Looks::Met)
}
