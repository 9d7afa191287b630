//! The gathering of what a query lacks, over an agent that owns all but the second block.
ghost use Rattle.std.specs.Prelude.{◌≡◌, [], IfOk};

use crate::samples::{label, name, piece};
use iris_fragment::{Fragment, Level, Piece};
use iris_gather::{Basis, Gather, Parent, ReplyError, Verdict, lay};
use iris_need::Start;
use iris_tree::{Kind, Mem, name_text};
use iris_xpath::{Query, parse};
use std::alloc::Global;
use std::test::Fail;

// Owns the node of a piece.
fn own(fragment: &mut Fragment, piece: Piece) -> Mem<()> {
    if piece.full.is_some() && fragment.has_place(&piece.name) {
        fragment.set_owned(piece)?;
    }
    Ok(())
}

// What the agent holds.
fn fragment(alloc: Global) -> Result<Fragment, Fail> {
    let mut fragment = Fragment::new(alloc, label(alloc, "city-o")?);
    let hood = piece(alloc, "hood-n.city-o", &["block-1", "block-2"], "", 0)?;
    let block = piece(alloc, "block-1.hood-n.city-o", &[], "yes", 0)?;
    own(&mut fragment, piece(alloc, "city-o", &["hood-n"], "", 0)?)?;
    own(&mut fragment, hood)?;
    own(&mut fragment, block)?;
    Ok(fragment)
}

fn free_blocks(alloc: Global) -> Result<Query, Fail> {
    let kinds = [Kind::new("city")?, Kind::new("hood")?, Kind::new("block")?];
    let text = "/city[@id='o']/hood/block[@free='yes']";
    Ok(parse(alloc, text, &kinds)?)
}

// What a gather of that query decides at the moment 1000.
fn basis(alloc: Global, gather: &Gather) -> Result<Basis, Fail> {
    let start = Start::from_document(alloc, label(alloc, "city-o")?)?;
    let fragment = fragment(alloc)?;
    let floor = gather.floor();
    Ok(Basis::of(
        alloc,
        gather.query(),
        &start,
        floor,
        gather.view(),
        &fragment,
        1000,
    )?)
}

fn opened(alloc: Global) -> Result<Gather, Fail>
    ensures { IfOk result (λ gather. gather.pending ≡ []) }
{
    let start = Start::from_document(alloc, label(alloc, "city-o")?)?;
    let parent = Parent::Client { request: 0 };
    let query = free_blocks(alloc)?;
    Ok(Gather::open(alloc, 0, query, 500, start, None, parent)?)
}

// The gather once it asked for the second block.
fn asked(alloc: Global) -> Result<Gather, Fail> {
    let gather = opened(alloc)?;
    let basis = basis(alloc, &gather)?;
    let asks = basis.verdict.asks().len();
    if asks != 1 {
        return Err(Fail::new("not one ask"));
    }
    Ok(gather.settled(&basis.verdict, basis.pieces.as_slice(), 8)?)
}

#[test]
fn asks_for_the_other_block(rt: HostRuntime) -> Result<(), Fail> {
    let alloc = rt.alloc();
    let gather = asked(alloc)?;
    assert!(rt; gather.is_waiting() && gather.is_pending(8));
    let Some(need) = gather.need(8) else {
        return Err(Fail::new("no need"));
    };
    let asked = name_text(alloc, &need.name)?;
    assert_eq!(rt; asked.as_str(), "block-2.hood-n.city-o");
    assert!(rt; need.level == Level::Full);
    let over = lay(gather.view(), &fragment(alloc)?, 0, 1000)?;
    assert_eq!(rt; over.pieces()?.len(), 3);
    Ok(())
}

#[test]
fn answers_once_the_reply_came(rt: HostRuntime) -> Result<(), Fail> {
    let alloc = rt.alloc();
    let mut gather = asked(alloc)?;
    let reply = piece(alloc, "block-2.hood-n.city-o", &[], "yes", 600)?;
    let block = name(alloc, "block-2.hood-n.city-o")?;
    if gather.reply(8, &[reply]).is_err() {
        return Err(Fail::new("not pending"));
    }
    assert!(rt; !gather.is_waiting() && gather.view().get(&block).is_some());
    let basis = basis(alloc, &gather)?;
    match &basis.verdict {
        Verdict::Done { items, .. } => assert_eq!(rt; items.len(), 2),
        Verdict::Asks { .. } => return Err(Fail::new("something is missing")),
    }
    for (cite, stamp) in basis.cites.as_slice().iter().zip([1000, 600]) {
        assert_eq!(rt; (cite.version, cite.stamp), (0, stamp));
    }
    Ok(())
}

#[test]
fn a_reply_is_taken_once(rt: HostRuntime) -> Result<(), Fail> {
    let alloc = rt.alloc();
    let mut gather = asked(alloc)?;
    let reply = piece(alloc, "block-2.hood-n.city-o", &[], "yes", 600)?;
    let pieces = [reply];
    let Ok(after) = gather.replied(8, &pieces) else {
        return Err(Fail::new("not pending"));
    };
    assert!(rt; gather.is_pending(8) && !after.is_waiting());
    for (ask, told) in [
        (9, Err(ReplyError::NotPending)),
        (8, Ok(())),
        (8, Err(ReplyError::NotPending)),
    ] {
        assert!(rt; gather.reply(ask, &pieces) == told, "of {ask}");
    }
    Ok(())
}
