//! Gathers.
ghost use Rattle.std.specs.Prelude.{◌≡◌, ◌≢◌, ◌↔◌, ◌+◌, ◌<◌, ◌^◌, [], length, is_some, option_copied, option_to_list, IsNone, IsTrue, IsErrOf, IfOk, OnOk, OnErr};
ghost use Rattle.std.specs.List.{enumerate_from};
ghost use Rattle.std.specs.List.Sorted.{IsStrictlySortedBy};
ghost use Rattle.std.specs.Map.{keys_of, remove_entry};
ghost use Rattle.std.specs.BTreeMap.{is_at};
ghost use Rattle.std.specs.Ordering.{nat_cmp};
ghost use Rattle.iris_need.specs.Pieces.{laid_over};
ghost use Rattle.iris_gather.specs.Verdicts.{asks_of};
ghost use Rattle.iris_gather.specs.Gathers.{need_at, opened, settled, replied};
ghost use Rattle.iris_gather.specs.declared.error.ReplyError.TheVariants.{NotPending};

use crate::error::ReplyError;
use crate::parent::Parent;
use crate::verdict::Verdict;
use iris_fragment::Piece;
use iris_need::{Need, Start, View};
use iris_tree::Mem;
use iris_xpath::Query;
use std::alloc::Global;
use std::collections::BTreeMap;
use std::marker::Model;

/// A query that is evaluated from a start over what a view has by now, until nothing is missing. Contracts
/// see it as the `Gathering` of `specs/Gathers.antt`.
#[derive(Debug, Drop)]
pub struct Gather {
    alloc: Global,
    id: u64,
    query: Query,
    floor: u64,
    start: Start,
    view: View,
    pending: BTreeMap<u64, Need>,
    parent: Parent,
}

impl Model for Gather {
    ghost use Rattle.std.specs.Coded.{coded×, coded_list};
    ghost use Rattle.iris_base.specs.contracts.name.Label as label_type;
    ghost use Rattle.iris_fragment.specs.contracts.piece.Piece as piece_type;
    ghost use Rattle.iris_xpath.specs.contracts.query.Query as query_type;
    ghost use Rattle.iris_need.specs.contracts.need.Need as need_type;
    ghost use Rattle.iris_need.specs.contracts.need.Start as start_type;
    ghost use Rattle.iris_gather.specs.contracts.parent.Parent as parent_type;
    ghost use Rattle.iris_gather.specs.Gathers.{Gathering, gathering_code};

    ghost Value = { Gathering };

    ghost coded = { gathering_code query_type.the_row.coded start_type.the_row.coded (coded_list (coded× (coded_list label_type.the_row.coded) piece_type.the_row.coded)) need_type.the_row.coded parent_type.the_row.coded };

    ghost view = { λ g. record { id = g.id; query = g.query; floor = g.floor; start = g.start; view = g.view; pending = g.pending.entries; parent = g.parent } };
}

// A view with copies of these pieces added.
fn with_pieces(view: &View, pieces: &[Piece]) -> Mem<View>
    ensures { IfOk result (λ more. more ≡ laid_over pieces.now view.now) }
{
    let mut more = view.copy()?;
    for piece in pieces {
        more.add(piece.copy()?)?;
    }
    Ok(more)
}

// Copies of these needs under numbers from `first` on.
fn numbered(alloc: Global, first: u64, needs: &[Need]) -> Mem<BTreeMap<u64, Need>>
    requires { first + length needs.now < 2 ^ 64 }
    ensures { IfOk result (λ asks. asks.entries ≡ enumerate_from first needs.now) }
{
    let mut asks = BTreeMap::new(alloc);
    let mut next = first;
    for need in needs {
        asks.insert(next, need.copy()?)?;
        next += 1;
    }
    Ok(asks)
}

// A copy of pending asks.
fn copy_asks(alloc: Global, asks: &BTreeMap<u64, Need>) -> Mem<BTreeMap<u64, Need>>
    ensures { IfOk result (λ copy. copy.entries ≡ asks.now.entries) }
{
    let mut copy = BTreeMap::new(alloc);
    for (ask, need) in asks.iter() {
        copy.insert(*ask, need.copy()?)?;
    }
    Ok(copy)
}

impl Gather {
    /// A gather of that number for a parent. `floor` is the least stamp, in milliseconds, that a copy in its
    /// view may have. Its view has the first piece, if there is one, and nothing is pending.
    pub fn open(
        alloc: Global,
        id: u64,
        query: Query,
        floor: u64,
        start: Start,
        first: Option<Piece>,
        parent: Parent,
    ) -> Mem<Gather>
        ensures { IfOk result (λ gather. gather ≡ opened id query floor start first parent) }
    {
        let mut view = View::new(alloc);
        if let Some(piece) = first {
            view.add(piece)?;
        }
        Ok(Gather {
            alloc,
            id,
            query,
            floor,
            start,
            view,
            pending: BTreeMap::new(alloc),
            parent,
        })
    }

    /// Its number.
    pub fn id(&self) -> u64
        ensures { result ≡ self.now.id }
    {
        self.id
    }

    pub fn query(&self) -> &Query
        ensures { result.now ≡ self.now.query }
    {
        &self.query
    }

    /// The least stamp that a copy in its view may have, in milliseconds.
    pub fn floor(&self) -> u64
        ensures { result ≡ self.now.floor }
    {
        self.floor
    }

    /// Where the evaluation of its query starts.
    pub fn start(&self) -> &Start
        ensures { result.now ≡ self.now.start }
    {
        &self.start
    }

    /// What it has by now.
    pub fn view(&self) -> &View
        ensures { result.now ≡ self.now.view }
    {
        &self.view
    }

    /// For whom it is made.
    pub fn parent(&self) -> Parent
        ensures { result ≡ self.now.parent }
    {
        self.parent
    }

    /// The asks that have no reply yet, by their numbers, with what each asks for.
    pub fn pending(&self) -> &BTreeMap<u64, Need>
        ensures asks { result.now.entries ≡ self.now.pending }
        ensures rising { IsStrictlySortedBy nat_cmp (keys_of self.now.pending) }
    {
        let _ = self.pending.len();
        &self.pending
    }

    /// Whether that ask has no reply yet.
    pub fn is_pending(&self, ask: u64) -> bool
        ensures { result ≡ is_some (need_at self.now.pending ask) }
    {
        self.pending.contains_key(&ask)
    }

    /// What the pending ask of that number asks for.
    pub fn need(&self, ask: u64) -> Option<&Need>
        ensures { option_copied result ≡ need_at self.now.pending ask }
    {
        self.pending.get(&ask)
    }

    /// Whether an ask has no reply yet.
    pub fn is_waiting(&self) -> bool
        ensures { IsTrue result ↔ (self.now.pending ≢ []) }
    {
        !self.pending.is_empty()
    }

    /// This gather, once its view took copies of these pieces, and what is missing by the verdict is pending,
    /// numbered from `first_ask` on, in the order of names.
    pub fn settled(&self, verdict: &Verdict, pieces: &[Piece], first_ask: u64) -> Mem<Gather>
        requires idle { self.now.pending ≡ [] }
        requires numbers { first_ask + length (asks_of verdict.now) < 2 ^ 64 }
        ensures { IfOk result (λ gather. gather ≡ settled self.now verdict.now pieces.now first_ask) }
    {
        Ok(Gather {
            alloc: self.alloc,
            id: self.id,
            query: self.query.copy()?,
            floor: self.floor,
            start: self.start.copy()?,
            view: with_pieces(&self.view, pieces)?,
            pending: numbered(self.alloc, first_ask, verdict.asks())?,
            parent: self.parent,
        })
    }

    // Its view, with copies of the pieces of the reply to that ask added.
    fn view_replied(&self, ask: u64, pieces: &[Piece]) -> Result<View, ReplyError>
        ensures cause { IsErrOf result NotPending ↔ IsNone (need_at self.now.pending ask) }
        ensures ok { IfOk result (λ view. view ≡ laid_over pieces.now self.now.view) }
    {
        if !self.is_pending(ask) {
            return Err(ReplyError::NotPending);
        }
        Ok(with_pieces(&self.view, pieces)?)
    }

    // This gather with another view, and without that ask.
    fn without(&self, ask: u64, view: View) -> Mem<Gather>
        ensures { IfOk result (λ gather. gather ≡ record self.now { view = view; pending = remove_entry (is_at (nat_cmp ask)) self.now.pending }) }
    {
        let mut pending = copy_asks(self.alloc, &self.pending)?;
        pending.remove(&ask);
        Ok(Gather {
            alloc: self.alloc,
            id: self.id,
            query: self.query.copy()?,
            floor: self.floor,
            start: self.start.copy()?,
            view,
            pending,
            parent: self.parent,
        })
    }

    /// This gather, once the reply to that ask came: its view took copies of these pieces, and the ask is
    /// pending no more.
    pub fn replied(&self, ask: u64, pieces: &[Piece]) -> Result<Gather, ReplyError>
        ensures cause { IsErrOf result NotPending ↔ IsNone (need_at self.now.pending ask) }
        ensures ok { IfOk result (λ gather. gather ≡ replied self.now ask pieces.now) }
    {
        let view = self.view_replied(ask, pieces)?;
        Ok(self.without(ask, view)?)
    }

    /// Takes the pieces on which a verdict rests. What is missing by it is pending then, numbered from
    /// `first_ask` on, in the order of names.
    pub fn settle_verdict(&mut self, verdict: &Verdict, pieces: &[Piece], first_ask: u64) -> Mem<()>
        requires idle { self.old.pending ≡ [] }
        requires numbers { first_ask + length (asks_of verdict.now) < 2 ^ 64 }
        ensures ok { OnOk result (self.new ≡ settled self.old verdict.now pieces.now first_ask) }
        ensures err { OnErr result (self.new ≡ self.old) }
    {
        let view = with_pieces(&self.view, pieces)?;
        let pending = numbered(self.alloc, first_ask, verdict.asks())?;
        self.view = view;
        self.pending = pending;
        Ok(())
    }

    /// Takes the pieces of the reply to that ask, which is pending no more then.
    pub fn reply(&mut self, ask: u64, pieces: &[Piece]) -> Result<(), ReplyError>
        ensures cause { IsErrOf result NotPending ↔ IsNone (need_at self.old.pending ask) }
        ensures ok { OnOk result (self.new ≡ replied self.old ask pieces.now) }
        ensures err { OnErr result (self.new ≡ self.old) }
    {
        let view = self.view_replied(ask, pieces)?;
        self.view = view;
        self.pending.remove(&ask);
        Ok(())
    }
}
