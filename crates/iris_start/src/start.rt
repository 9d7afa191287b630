//! Agents as their city starts.
ghost use Rattle.std.specs.Prelude.{◌≡◌, ◌<◌, ◌≤◌, is_some, length, List, IfOk};
ghost use Rattle.iris_base.specs.declared.limits.TheConstants.{MAX_CAPACITY};
ghost use Rattle.iris_base.specs.declared.name.Label.{Label};
ghost use Rattle.iris_tree.specs.Universe.{label_of, node_at};
ghost use Rattle.iris_book.specs.Book.{today, IsSound};
ghost use Rattle.iris_route.specs.Titles.{title_at};
ghost use Rattle.iris_agent.specs.Starts.{started};
ghost use Rattle.iris_agent.specs.Tables.{tables_of};
ghost use Rattle.iris_start.specs.Begun.{IsBegun};
ghost use Rattle.iris_start.specs.Pieces.{start_pieces};

use crate::pieces::put_pieces;
use iris_agent::Agent;
use iris_book::Book;
use iris_keeper::Kept;
use iris_route::Registry;
use iris_tree::{AgentId, Kind, MAX_CAPACITY, Mem, Name, Sequence, Tree};
use std::alloc::Global;

/// What the agents of a city begin with.
#[derive(Clone, Copy)]
pub struct Start<'a> {
    /// The agent that owns each node of the city.
    pub registry: &'a Registry,
    pub book: &'a Book,
    /// The newest document, as `Book::today` gives it.
    pub document: &'a Tree,
    /// All that the city's keeper tells, in any order.
    pub rows: &'a [Kept],
}

// A book is sound, and the id of an agent has a letter, as their types say: a step of proofs alone.
fn tell_types(book: &Book, id: &AgentId)
    ensures sound { IsSound book.now.history }
    ensures named { 0 < length id.now }
{
    book.entries();
    id.as_bytes();
}

impl Start<'_> {
    /// The agent of that id as the city starts. It owns the nodes that the registry gives it, with their newest
    /// values by the book, and it holds the ids of the nodes above those. `kinds` are those of the city, and
    /// `capacity` is the greatest number of copies that it may hold. It passes the document once, with one
    /// look-up in the registry for each node, and one in the book for each that it owns.
    pub fn agent(
        &self,
        alloc: Global,
        id: AgentId,
        kinds: Sequence<Kind>,
        capacity: u32,
    ) -> Mem<Agent>
        requires least { 1 ≤ capacity }
        requires most { capacity ≤ MAX_CAPACITY }
        requires document { self.now.document.now ≡ today self.now.book.now.history }
        requires registered { (name : List Label) → is_some (title_at self.now.registry.now name) ≡ is_some (node_at self.now.book.now.history.start name) }
        ensures tables { IfOk result (λ agent. tables_of agent ≡ started id kinds (label_of self.now.document.now) capacity (start_pieces self.now.registry.now self.now.book.now.history id self.now.document.now) self.now.rows.now) }

        // What follows from that.
        ensures begun { IfOk result (λ agent. IsBegun self.now.registry.now self.now.book.now.history self.now.rows.now id (tables_of agent)) }
        ensures kinds { IfOk result (λ agent. agent.kinds ≡ kinds) }
        ensures capacity { IfOk result (λ agent. agent.cache.capacity ≡ capacity) }
    {
        tell_types(self.book, &id);
        let mut pieces = Vec::new(alloc);
        let above = Name::document(alloc);
        put_pieces(
            &mut pieces,
            &id,
            self.registry,
            self.book,
            &above,
            self.document,
        )?;
        let top = *self.document.label();
        Agent::new(alloc, id, kinds, top, capacity, &pieces, self.rows)
    }
}
