//! All that a city has, in its parts.
ghost use Rattle.std.specs.Prelude.{◌≡◌, ℕ, ◌+◌, ◌<◌, ◌≤◌, ◌++◌, Bool, List, [], ◌∷◌, fold, length, All};
ghost use Rattle.std.specs.List.{list_all};
ghost use Rattle.iris_book.specs.Book.{with_entry};
ghost use Rattle.iris_book.specs.declared.entry.Entry.TheVariants as entries;
ghost use Rattle.iris_agent.specs.declared.step.Step.{Step};
ghost use Rattle.iris_agent.specs.declared.step.Step.TheVariants as steps;
ghost use Rattle.iris_route.specs.Titles.{title_at};
ghost use Rattle.iris_runs.specs.Happenings.{advanced};
ghost use Rattle.iris_runs.specs.Worlds.{closes, stepped};
ghost use Rattle.iris_outbox.specs.Lines.{is_newest, refusal_line, outcome_line, lines_of};
ghost use Rattle.iris_outbox.specs.Outbox.{answers_in, HasRoom, IsReadyFor};
ghost use Rattle.iris_state.specs.City.{IsSteady, MayBegin};
ghost use Rattle.iris_state.specs.Whole.{IsOf, begun, world_of};

use iris_agent::{Agent, Refusal, Step, Turn};
use iris_book::{Book, Entry};
use iris_json::Out;
use iris_outbox::{Outbox, Requests};
use iris_posts::Posts;
use iris_route::Registry;
use iris_tree::{AgentId, Cite, Item, Name, Sequence};
use iris_xpath::Query;
use std::alloc::Global;
use std::marker::Model;

/// All that a city has: its agents, the posts between them, the requests of its clients, the registry and the
/// book. A step is made of it by look-ups in these, and takes no memory once there is room for it.
#[derive(Drop)]
pub struct State {
    pub(crate) alloc: Global,
    pub(crate) registry: Registry,
    pub(crate) agents: Vec<Agent>,
    pub(crate) outbox: Outbox,
    pub(crate) requests: Requests,
    pub(crate) turn: Turn,
    pub(crate) book: Book,
}

impl Model for State {
    ghost use Rattle.iris_base.specs.contracts.name.Label as label_type;
    ghost use Rattle.iris_agent.specs.contracts.agent.Agent as agent_type;
    ghost use Rattle.iris_agent.specs.contracts.turn.Turn as turn_type;
    ghost use Rattle.iris_book.specs.contracts.book.Book as book_type;
    ghost use Rattle.iris_outbox.specs.contracts.outbox.Outbox as outbox_type;
    ghost use Rattle.iris_state.specs.City.{IsSteady, MayBegin};
    ghost use Rattle.iris_state.specs.Whole.{Whole, whole_code};

    ghost Value = { Whole };

    ghost coded = { whole_code label_type.the_row.coded agent_type.the_row.coded outbox_type.the_row.coded turn_type.the_row.coded book_type.the_row.coded };

    ghost view = { λ s. record { registry = s.registry; agents = s.agents.items; outbox = s.outbox; requests = s.requests; turn = s.turn; book = s.book } };
}

// The line that tells why an update was refused.
fn refusal_line(request: u64, refusal: Refusal) -> Out
    ensures { result ≡ refusal_line request refusal }
{
    match refusal {
        Refusal::Old { last } => Out::Old { last, request },
        Refusal::BadChange { at } => Out::BadChange {
            at: at as u64,
            request,
        },
        Refusal::Unkept => Out::Unkept { request },
    }
}

// Whether a cite has the newest version of its node.
fn is_newest(book: &Book, cite: &Cite) -> bool
    ensures { result ≡ is_newest book.now.history cite.now }
{
    match book.latest(&cite.name) {
        Some(version) => cite.version == version,
        None => false,
    }
}

// Whether each of these cites has the newest version of its node.
fn are_newest(book: &Book, cites: &[Cite]) -> bool
    ensures { result ≡ list_all (is_newest book.now.history) cites.now }
{
    for cite in cites {
        if !is_newest(book, cite) {
            return false;
        }
    }
    true
}

impl State {
    /// A city as it starts, with these agents: nothing was posted yet, and the present moment is 0.
    pub fn new(alloc: Global, registry: Registry, agents: Vec<Agent>, book: Book) -> State
        requires { MayBegin registry agents.items book }
        ensures city { world_of result ≡ world_of (begun registry agents.items book) }
        ensures agents { result.agents ≡ agents.items }
        ensures steady { IsSteady result }
    {
        State {
            alloc,
            registry,
            agents,
            outbox: Outbox::new(alloc),
            requests: Requests::new(alloc),
            turn: Turn {
                now: 0,
                next_ask: 0,
                next_gather: 0,
            },
            book,
        }
    }

    /// The present moment, in milliseconds.
    pub fn now(&self) -> u64
        ensures { result ≡ self.now.turn.now }
    {
        self.turn.now
    }

    /// The agent that owns the node of that name, and the number of the node's moves; none exactly where no
    /// such node is.
    pub fn owner(&self, name: &Name) -> Option<(AgentId, u64)>
        ensures { result ≡ title_at self.now.registry name.now }
    {
        self.registry.owner(name)
    }

    /// The posts that are kept.
    pub fn posts(&self) -> &Posts
        ensures { result.now ≡ self.now.outbox.posts }
    {
        self.outbox.posts()
    }

    /// The book.
    pub fn book(&self) -> &Book
        ensures { result.now ≡ self.now.book }
    {
        &self.book
    }

    /// Time passes: that is the present moment now, in milliseconds. It takes no memory.
    pub fn advance(&mut self, at: u64)
        requires steady { IsSteady self.old }
        requires later { self.old.turn.now ≤ at }
        ensures city { world_of self.new ≡ advanced (world_of self.old) at }
        ensures agents { self.new.agents ≡ self.old.agents }
        ensures steady { IsSteady self.new }
    {
        self.turn.now = at;
    }

    // A request has its outcome, which that line tells.
    fn tell(&mut self, request: u64, line: Out)
        requires request { request < self.old.requests.made }
        requires room { length self.old.outbox.lines < self.old.outbox.room }
        ensures world { world_of self.new ≡ closes (world_of self.old) request }
        ensures made { self.new.requests.made ≡ self.old.requests.made }
        ensures rest { self.new ≡ record self.old { outbox = record self.old.outbox { lines = self.old.outbox.lines ++ line ∷ [] }; requests = self.new.requests } }
    {
        self.requests.close(request);
        self.outbox.tell(line);
    }

    // A client's query is answered.
    fn answer(
        &mut self,
        request: u64,
        query: Query,
        floor: u64,
        items: Sequence<Item>,
        cites: Sequence<Cite>,
    )
        requires room { (rest : List Step) × HasRoom self.old.outbox (steps.Answered request query floor items cites ∷ rest) }
        requires book { 1 ≤ self.old.book.spare }
        requires request { request < self.old.requests.made }
        ensures world { world_of self.new ≡ stepped (world_of self.old) (steps.Answered request query floor items cites) }
        ensures room { (rest : List Step) → HasRoom self.old.outbox (steps.Answered request query floor items cites ∷ rest) → HasRoom self.new.outbox rest }
        ensures lines { self.new.outbox.lines ≡ self.old.outbox.lines ++ outcome_line self.old.book.history (steps.Answered request query floor items cites) }
        ensures made { self.new.requests.made ≡ self.old.requests.made }
        ensures spare { self.new.book.spare + 1 ≡ self.old.book.spare }
        ensures rest { self.new ≡ record self.old { outbox = self.new.outbox; requests = self.new.requests; book = self.new.book } }
    {
        let newest = are_newest(&self.book, cites.as_slice());
        let entered = self.outbox.next_cites(&cites);
        self.book.push(Entry::Answered {
            request,
            query,
            floor,
            cites: entered,
        });
        self.tell(
            request,
            Out::Answer {
                answer: items,
                cites,
                newest,
                request,
            },
        );
    }

    // Makes a step of an event, for which there is room.
    fn make(&mut self, step: Step)
        requires room { (rest : List Step) × HasRoom self.old.outbox (step ∷ rest) }
        requires book { answers_in (step ∷ []) ≤ self.old.book.spare }
        requires request { IsOf self.old.requests.made step }
        ensures world { world_of self.new ≡ stepped (world_of self.old) step }
        ensures room { (rest : List Step) → HasRoom self.old.outbox (step ∷ rest) → HasRoom self.new.outbox rest }
        ensures lines { self.new.outbox.lines ≡ self.old.outbox.lines ++ outcome_line self.old.book.history step }
        ensures made { self.new.requests.made ≡ self.old.requests.made }
        ensures spare { self.new.book.spare + answers_in (step ∷ []) ≡ self.old.book.spare }
        ensures rest { self.new ≡ record self.old { outbox = self.new.outbox; requests = self.new.requests; book = self.new.book } }
    {
        match step {
            Step::Post { to, message } => self.outbox.send(to, message),
            Step::Answered {
                request,
                query,
                floor,
                items,
                cites,
            } => self.answer(request, query, floor, items, cites),
            Step::Accepted { request, version } => self.tell(
                request,
                Out::Accepted {
                    accepted: version,
                    request,
                },
            ),
            Step::Refused { request, refusal } => {
                self.tell(request, refusal_line(request, refusal))
            }
        }
    }

    // Makes the steps of an event, for which there is room, and returns the lines that tell of them.
    pub(crate) fn follow(&mut self, steps: Vec<Step>) -> Vec<Out>
        requires room { IsReadyFor self.old.outbox steps.items }
        requires book { answers_in steps.items ≤ self.old.book.spare }
        requires requests { All (IsOf self.old.requests.made) steps.items }
        ensures world { world_of self.new ≡ fold stepped (world_of self.old) steps.items }
        ensures lines { result.items ≡ lines_of self.old.outbox.posts.made self.old.book.history steps.items }
        ensures rest { self.new ≡ record self.old { outbox = self.new.outbox; requests = self.new.requests; book = self.new.book } }
    {
        for step in steps {
            self.make(step);
        }
        self.outbox.take_lines()
    }
}
