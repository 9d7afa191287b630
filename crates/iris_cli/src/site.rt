//! What the one agent of a city holds, what it answers, and what it accepts.
ghost use Rattle.std.specs.Prelude.{◌≡◌, ℕ, [], not, nat_lt, is_some, map, Ok, Some, IfOk, IfErr, OnOk, OnErr, if◌then◌else◌};
ghost use Rattle.iris_tree.specs.Universe.{node_at};
ghost use Rattle.iris_book.specs.Book.{today};
ghost use Rattle.iris_cli.specs.Run.{version_of, newest_cite, answer_out, audit_out, delivered, after_delivery, made_of, made_by, update_out, after_update};
ghost use Rattle.std.specs.List.{position};
ghost use Rattle.iris_tree.specs.NamesKind.{change_names_kind};
ghost use Rattle.iris_cli.specs.CityChanges.{changes_in_city, RefusesInCity};

use crate::event::{Sent, SentUpdate};
use iris_book::{Book, Entry, Newest};
use iris_json::Out;
use iris_select::evaluate_items;
use iris_tree::{Change, ChangeError, Cite, Kind, Local, Mem, Memory, Name, Sequence, Tree};
use iris_xpath::Query;
use std::alloc::Global;
use std::marker::Model;

/// What the one agent of a city holds: all updates that it accepted, and what they leave.
#[derive(Drop)]
pub struct Site {
    // The kinds of the city's nodes.
    kinds: Sequence<Kind>,
    book: Book,
    // Today's document.
    document: Tree,
    // The present moment, in milliseconds.
    moment: u64,
}

impl Model for Site {
    ghost use Rattle.std.specs.Prelude.{◌≡◌, ◌≤◌, All};
    ghost use Rattle.iris_tree.specs.NodeCode.{node_code};
    ghost use Rattle.iris_base.specs.contracts.name.Label as label_type;
    ghost use Rattle.iris_tree.specs.contracts.local.Local as local_type;
    ghost use Rattle.iris_book.specs.contracts.entry.Entry as entry_type;
    ghost use Rattle.iris_book.specs.Book.{updates_in, today};
    ghost use Rattle.iris_cli.specs.Run.{SiteState, site_code};

    ghost Value = { SiteState };

    ghost coded = { site_code (node_code label_type.the_row.coded local_type.the_row.coded) entry_type.the_row.coded };

    ghost view = { λ s. record { kinds = s.kinds; history = s.book.history; now = s.moment } };

    // The document is today's, and no update came after the present moment.
    ghost invariant = { λ s. (s.document ≡ today s.book.history) × All (λ u. u.1.at ≤ s.moment) (updates_in s.book.history.entries) };
}

// The place of the first change that puts an element with the tag of a kind.
fn first_kind_put(kinds: &[Kind], changes: &[Change]) -> Option<usize>
    ensures { result ≡ position (change_names_kind kinds.now) changes.now }
{
    changes.iter().position(|change| change.names_kind(kinds))
}

// The local information after all these changes, in a city with nodes of these kinds.
fn change_in_city(kinds: &[Kind], local: &Local, changes: &[Change]) -> Result<Local, ChangeError>
    ensures ok { IfOk result (λ changed. changes_in_city kinds.now local.now changes.now ≡ Ok changed) }
    ensures err { IfErr result (λ error. RefusesInCity kinds.now local.now changes.now error) }
{
    let Some(at) = first_kind_put(kinds, changes) else {
        return local.change(changes);
    };
    match local.change(&changes[..at]) {
        Ok(_) => Err(ChangeError::BadChange { at }),
        Err(error) => Err(error),
    }
}

impl Site {
    /// A city with nodes of these kinds, at the moment 0.
    pub fn new(alloc: Global, kinds: Sequence<Kind>, tree: Tree) -> Mem<Site>
        ensures { IfOk result (λ site. site ≡ record { kinds = kinds; history = record { start = tree; entries = [] }; now = 0 }) }
    {
        Ok(Site {
            kinds,
            book: Book::new(alloc, tree.copy()?)?,
            document: tree,
            moment: 0,
        })
    }

    /// The kinds of the city's nodes.
    pub fn kinds(&self) -> &[Kind]
        ensures { result.now ≡ self.now.kinds }
    {
        self.kinds.as_slice()
    }

    /// The present moment, in milliseconds.
    pub fn now(&self) -> u64
        ensures { result ≡ self.now.now }
    {
        self.moment
    }

    /// Puts the time forward, and returns whether the moment is not before the present one; else all stays.
    pub fn advance(&mut self, at: u64) -> bool
        ensures told { result ≡ not (nat_lt at self.old.now) }
        ensures after { self.new ≡ (if result then record { kinds = self.old.kinds; history = self.old.history; now = at } else self.old) }
    {
        if at < self.moment {
            return false;
        }
        self.moment = at;
        true
    }

    /// Returns whether there is a node of that name.
    pub fn has(&self, name: &Name) -> bool
        ensures { result ≡ is_some (node_at (today self.now.history) name.now) }
    {
        self.document.find(name).is_some()
    }

    // How many updates the node of that name has had.
    fn version(&self, name: &Name) -> u64
        ensures { result ≡ version_of self.now name.now }
    {
        self.book.latest(name).unwrap_or(0)
    }

    // Cites of these names as they are at present.
    fn cites(&self, alloc: Global, names: Vec<Name>) -> Mem<Sequence<Cite>>
        ensures { IfOk result (λ cites. cites ≡ map (newest_cite self.now) names.items) }
    {
        let mut cites = Sequence::new(alloc);
        for name in names {
            cites.push(Cite {
                version: self.version(&name),
                name,
                stamp: self.moment,
            })?;
        }
        Ok(cites)
    }

    // The answer of a query.
    fn answer(&self, alloc: Global, request: u64, query: &Query) -> Mem<Out>
        ensures { IfOk result (λ out. out ≡ answer_out self.now request query.now) }
    {
        let found = evaluate_items(alloc, &self.document, query)?;
        Ok(Out::Answer {
            answer: Sequence::from_vec(found.items),
            cites: self.cites(alloc, found.full)?,
            newest: true,
            request,
        })
    }

    /// What a query selects in today's document.
    pub fn audit(&self, alloc: Global, request: u64, query: &Query) -> Mem<Out>
        ensures { IfOk result (λ out. out ≡ audit_out self.now request query.now) }
    {
        let found = evaluate_items(alloc, &self.document, query)?;
        Ok(Out::Audit {
            audit: Sequence::from_vec(found.items),
            request,
        })
    }

    // What an update makes of its node's newest value, or what is told where it is refused.
    fn make(&self, newest: &Newest, request: u64, update: &SentUpdate) -> Mem<Result<Local, Out>>
        ensures { IfOk result (λ made. made ≡ made_of self.now.kinds request (Some newest.now.local.now) newest.now.number update.now) }
    {
        let last = newest.number;
        if update.no <= last {
            return Ok(Err(Out::Old { last, request }));
        }
        match change_in_city(
            self.kinds.as_slice(),
            newest.local,
            update.changes.as_slice(),
        ) {
            Ok(local) => Ok(Ok(local)),
            Err(ChangeError::BadChange { at }) => Ok(Err(Out::BadChange {
                at: at as u64,
                request,
            })),
            Err(ChangeError::Memory) => Err(Memory),
        }
    }

    // Enters an update that leaves this local information.
    fn accept(&mut self, update: SentUpdate, local: Local) -> Mem<()>
        requires made { (request : ℕ) × (made_by self.old request update ≡ Ok local) }
        ensures ok { OnOk result (self.new ≡ after_update self.old update (Ok local)) }
        ensures err { OnErr result (self.new ≡ self.old) }
    {
        self.book.reserve(1)?;
        let SentUpdate { name, no, changes } = update;
        self.document.set_local(&name, local.copy()?);
        self.book.push(Entry::Updated {
            name,
            no,
            changes,
            local,
            at: self.moment,
        });
        Ok(())
    }

    // Serves an update: it is accepted, or the line tells why not and all stays.
    fn serve(&mut self, request: u64, update: SentUpdate) -> Mem<Out>
        ensures told { IfOk result (λ out. out ≡ update_out self.old request update (made_by self.old request update)) }
        ensures after { OnOk result (self.new ≡ after_update self.old update (made_by self.old request update)) }
        ensures err { OnErr result (self.new ≡ self.old) }
    {
        let Some(newest) = self.book.newest(&update.name) else {
            return Ok(Out::NoSuchNode {
                request: Some(request),
            });
        };
        let Some(accepted) = newest.version.checked_add(1) else {
            return Err(Memory);
        };
        match self.make(&newest, request, &update)? {
            Err(refusal) => Ok(refusal),
            Ok(local) => {
                self.accept(update, local)?;
                Ok(Out::Accepted { accepted, request })
            }
        }
    }

    /// Delivers what is posted for a request: a query is answered, and an update is accepted or refused.
    pub fn deliver(&mut self, alloc: Global, request: u64, sent: Sent) -> Mem<Out>
        ensures told { IfOk result (λ out. out ≡ delivered self.old request sent) }
        ensures after { OnOk result (self.new ≡ after_delivery self.old request sent) }
        ensures err { OnErr result (self.new ≡ self.old) }
    {
        match sent {
            Sent::Query { query } => self.answer(alloc, request, &query),
            Sent::Update { update } => self.serve(request, update),
        }
    }
}
