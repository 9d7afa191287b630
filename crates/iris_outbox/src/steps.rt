//! What the steps of an event need.
ghost use Rattle.std.specs.Prelude.{◌≡◌, ◌+◌, ◌<◌, ◌≤◌, ◌^◌, [], ◌∷◌, length, IfOk, OnOk, option_to_list};
ghost use Rattle.std.specs.List.{filter_map};
ghost use Rattle.std.specs.Vec.{vec_capacity};
ghost use Rattle.iris_outbox.specs.Lines.{post_line, post_lines};
ghost use Rattle.iris_outbox.specs.Outbox.{weight_in, cites_in};

use iris_agent::Step;
use iris_json::Out;
use iris_migrate::Message;
use iris_posts::weigh;
use iris_tree::{AgentId, Cite, Mem, Memory, Sequence, State};
use std::alloc::{AllocError, AllocFailed, Global};
use std::collections::VecDeque;

// Whether there are so many numbers from that one on.
pub(crate) fn are_left(next: u64, count: usize) -> Mem<()>
    ensures { OnOk result (next + count < 2 ^ 64) }
{
    match next.checked_add(count as u64) {
        Some(_) => Ok(()),
        None => Err(Memory),
    }
}

// A copy of a list of states, by the same allocator.
fn copy_states(states: &Sequence<State>) -> Mem<Sequence<State>>
    ensures { IfOk result (λ copy. copy ≡ states.now) }
{
    let copy = Vec::from_slice(states.allocator(), states.as_slice())?;
    Ok(Sequence::from_vec(copy))
}

// The line of a post of that number.
fn post_line(post: u64, to: AgentId, message: &Message) -> Mem<Out>
    ensures { IfOk result (λ line. line ≡ post_line post to message.now) }
{
    Ok(match message {
        Message::Query { request, .. } => Out::Query {
            post,
            request: *request,
            to,
        },
        Message::Ask { ask, start, .. } => Out::Ask {
            ask: *ask,
            level: start.level,
            name: start.name.copy()?,
            post,
            states: copy_states(&start.states)?,
            to,
        },
        Message::Reply { ask, pieces } => Out::Reply {
            ask: *ask,
            pieces: pieces.len() as u64,
            post,
            to,
        },
        Message::Update { request, .. } => Out::Update {
            post,
            request: *request,
            to,
        },
        Message::Handover(handover) => Out::Handover {
            epoch: handover.epoch,
            name: handover.name.copy()?,
            post,
            to,
        },
    })
}

// The line of a step that is a post, which has that number.
fn line_of(number: u64, step: &Step) -> Mem<Option<Out>>
    ensures { IfOk result (λ line. option_to_list line ≡ post_lines number (step.now ∷ [])) }
{
    let Step::Post { to, message } = step else {
        return Ok(None);
    };
    Ok(Some(post_line(number, *to, message)?))
}

// The lines of the posts among these steps, with the numbers from that one on, and room for a line of each
// step.
pub(crate) fn post_lines(alloc: Global, next: u64, steps: &[Step]) -> Mem<Vec<Out>>
    requires { next + length steps.now < 2 ^ 64 }
    ensures lines { IfOk result (λ lines. lines.items ≡ post_lines next steps.now) }
    ensures room { IfOk result (λ lines. length steps.now ≤ vec_capacity lines) }
{
    let mut lines = Vec::with_capacity(alloc, steps.len())?;
    let mut number = next;
    for step in steps {
        if let Some(line) = line_of(number, step)? {
            lines.push(line)?;
            number += 1;
        }
    }
    Ok(lines)
}

// What a step that is a post weighs.
fn weight_in(alloc: Global, step: &Step) -> Mem<Option<u64>>
    ensures { IfOk result (λ weight. weight ≡ weight_in step.now) }
{
    let Step::Post { message, .. } = step else {
        return Ok(None);
    };
    Ok(Some(weigh(alloc, message)?))
}

// What the posts among these steps weigh.
pub(crate) fn post_weights(alloc: Global, steps: &[Step]) -> Mem<VecDeque<u64>>
    ensures { IfOk result (λ weights. weights.items ≡ filter_map weight_in steps.now) }
{
    let mut weights = VecDeque::new(alloc);
    for step in steps {
        if let Some(weight) = weight_in(alloc, step)? {
            weights.push_back(weight)?;
        }
    }
    Ok(weights)
}

// A copy of what a step that is an answer rests on.
fn cites_in(step: &Step) -> Mem<Option<Sequence<Cite>>>
    ensures { IfOk result (λ cites. cites ≡ cites_in step.now) }
{
    let Step::Answered { cites, .. } = step else {
        return Ok(None);
    };
    Ok(Some(cites.copy()?))
}

// What the answers among these steps rest on.
pub(crate) fn answer_cites(alloc: Global, steps: &[Step]) -> Mem<VecDeque<Sequence<Cite>>>
    ensures { IfOk result (λ all. all.items ≡ filter_map cites_in steps.now) }
{
    let mut all = VecDeque::new(alloc);
    for step in steps {
        if let Some(cites) = cites_in(step)? {
            all.push_back(cites)?;
        }
    }
    Ok(all)
}
