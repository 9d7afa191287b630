//! What messages weigh.
ghost use Rattle.std.specs.Prelude.{◌≡◌, ◌+◌, length, sum_by, IfOk};
ghost use Rattle.iris_tree.specs.TextLen.{saturated};
ghost use Rattle.iris_xpath.specs.Printed.{printed};
ghost use Rattle.iris_posts.specs.Weights.{weight_of, content_weight, pieces_weight, piece_weight, full_weight};

use iris_fragment::{Full, Piece};
use iris_migrate::Message;
use iris_tree::{Mem, changes_len};
use iris_xpath::{Query, print};
use std::alloc::Global;

/// What each message weighs for itself, in bytes.
pub const MESSAGE_WEIGHT: u64 = 64;

/// What each state adds in which an ask starts, in bytes.
pub const STATE_WEIGHT: u64 = 16;

/// What each piece adds for itself, in bytes.
pub const PIECE_WEIGHT: u64 = 64;

/// What each label of a child adds in a piece, in bytes.
pub const ID_WEIGHT: u64 = 48;

/// What a message weighs, in bytes, or `u64::MAX` where it is more: `MESSAGE_WEIGHT` and besides, of a
/// query its printed form, of an ask `STATE_WEIGHT` for each state of its start, of an update its changes
/// as they are written, and of a reply or a handover its pieces. A piece weighs `PIECE_WEIGHT`, `ID_WEIGHT`
/// for each label of a child, and its local information as it is written, where it is full. A query is
/// printed by that allocator for the time of the call; no other message takes memory.
pub fn weigh(alloc: Global, message: &Message) -> Mem<u64>
    ensures { IfOk result (λ weight. weight ≡ saturated (weight_of message.now)) }
{
    Ok(content_weight(alloc, message)?.saturating_add(MESSAGE_WEIGHT))
}

fn content_weight(alloc: Global, message: &Message) -> Mem<u64>
    ensures { IfOk result (λ weight. weight ≡ saturated (content_weight message.now)) }
{
    match message {
        Message::Query { query, .. } => query_weight(alloc, query),
        Message::Ask { start, .. } => {
            Ok((start.states.len() as u64).saturating_mul(STATE_WEIGHT))
        }
        Message::Reply { pieces, .. } => Ok(pieces_weight(pieces.as_slice())),
        Message::Update { changes, .. } => Ok(changes_len(changes.as_slice())),
        Message::Handover(handover) => Ok(pieces_weight(handover.pieces.as_slice())),
    }
}

// The length of the printed query.
fn query_weight(alloc: Global, query: &Query) -> Mem<u64>
    ensures { IfOk result (λ weight. weight ≡ saturated (length (printed query.now))) }
{
    Ok(print(alloc, query)?.as_str().len() as u64)
}

fn pieces_weight(pieces: &[Piece]) -> u64
    ensures { result ≡ saturated (pieces_weight pieces.now) }
{
    let mut sum: u64 = 0;
    for piece in pieces {
        sum = sum.saturating_add(piece_weight(piece));
    }
    sum
}

fn piece_weight(piece: &Piece) -> u64
    ensures { result ≡ saturated (piece_weight piece.now) }
{
    (piece.ids.len() as u64)
        .saturating_mul(ID_WEIGHT)
        .saturating_add(full_weight(&piece.full))
        .saturating_add(PIECE_WEIGHT)
}

fn full_weight(full: &Option<Full>) -> u64
    ensures { result ≡ saturated (full_weight full.now) }
{
    match full {
        Some(full) => full.local.text_len(),
        None => 0,
    }
}
