//! The text of a line of a run.
ghost use Rattle.std.specs.Prelude.{◌≡◌, ◌≤◌, codes, IfOk};
ghost use Rattle.serde_json.specs.Data.{string};
ghost use Rattle.iris_base.specs.NameText.{name_text};
ghost use Rattle.iris_json.specs.Render.{items_data};
ghost use Rattle.serde_json.specs.Written.{compact_text};
ghost use Rattle.iris_json.specs.declared.out.Out.{Out};
ghost use Rattle.iris_json.specs.Rows.{number_data, row_data, field_data};
ghost use Rattle.iris_json.specs.Out.{level_word, status_word, held_word, post_row, ask_row, reply_row, handover_row, answer_row, offers_row, told_row, owner_row, summary_row, count_row, alone_row, refused_row, refused_with_row, no_node_row, bad_query_row, not_held_row, ended_row, limit_row, place_of, out_text};

use crate::find::Offer;
use crate::out::{BAD_SCRIPT, Out, PAST_LIMIT, QueryFault, Which, Why};
use crate::row::{Field, write_row};
use crate::summary::Summary;
use iris_fragment::{Level, Status};
use iris_tree::{AgentId, Cite, Item, Mem, Name, Sequence, State};
use std::alloc::Global;

// The word for how much of a node an ask wants.
fn level_word(level: Level) -> &'static str
    ensures { result.now ≡ level_word level }
{
    match level {
        Level::Ids => "ids",
        Level::Full => "full",
    }
}

// The word for what is held of a node.
fn status_word(status: Status) -> &'static str
    ensures { result.now ≡ status_word status }
{
    match status {
        Status::Owned => "owned",
        Status::Complete => "complete",
        Status::IdComplete => "id-complete",
        Status::Incomplete => "incomplete",
    }
}

// The word for what is held of a node, if anything is.
fn held_word(status: Option<Status>) -> &'static str
    ensures { result.now ≡ held_word status }
{
    match status {
        Some(status) => status_word(status),
        None => "none",
    }
}

// The line of a post of a client's, of that kind.
fn write_client_post<'a>(
    alloc: Global,
    kind: &'a str,
    post: u64,
    request: u64,
    to: &'a AgentId,
) -> Mem<Vec<u8>>
    ensures { IfOk result (λ text. text.items ≡ compact_text (row_data (post_row kind.now post request to.now))) }
{
    let row = [
        ("kind", Field::Text(kind)),
        ("post", Field::Number(post)),
        ("request", Field::Number(request)),
        ("to", Field::Text(to.as_str())),
    ];
    write_row(alloc, &row)
}

// The line of an ask.
fn write_ask<'a>(
    alloc: Global,
    ask: u64,
    level: Level,
    name: &'a Name,
    post: u64,
    states: &'a [State],
    to: &'a AgentId,
) -> Mem<Vec<u8>>
    ensures { IfOk result (λ text. text.items ≡ compact_text (row_data (ask_row ask level name.now post states.now to.now))) }
{
    let row = [
        ("ask", Field::Number(ask)),
        ("kind", Field::Text("ask")),
        ("level", Field::Text(level_word(level))),
        ("name", Field::Name(name)),
        ("post", Field::Number(post)),
        ("states", Field::States(states)),
        ("to", Field::Text(to.as_str())),
    ];
    write_row(alloc, &row)
}

// The line of a reply.
fn write_reply<'a>(alloc: Global, ask: u64, pieces: u64, post: u64, to: &'a AgentId) -> Mem<Vec<u8>>
    ensures { IfOk result (λ text. text.items ≡ compact_text (row_data (reply_row ask pieces post to.now))) }
{
    let row = [
        ("ask", Field::Number(ask)),
        ("kind", Field::Text("reply")),
        ("pieces", Field::Number(pieces)),
        ("post", Field::Number(post)),
        ("to", Field::Text(to.as_str())),
    ];
    write_row(alloc, &row)
}

// The line of a handover.
fn write_handover<'a>(
    alloc: Global,
    epoch: u64,
    name: &'a Name,
    post: u64,
    to: &'a AgentId,
) -> Mem<Vec<u8>>
    ensures { IfOk result (λ text. text.items ≡ compact_text (row_data (handover_row epoch name.now post to.now))) }
{
    let row = [
        ("epoch", Field::Number(epoch)),
        ("kind", Field::Text("handover")),
        ("name", Field::Name(name)),
        ("post", Field::Number(post)),
        ("to", Field::Text(to.as_str())),
    ];
    write_row(alloc, &row)
}

// The line of an answer.
fn write_answer<'a>(
    alloc: Global,
    answer: &'a Sequence<Item>,
    cites: &'a Sequence<Cite>,
    newest: bool,
    request: u64,
) -> Mem<Vec<u8>>
    ensures { IfOk result (λ text. text.items ≡ compact_text (row_data (answer_row answer.now cites.now newest request))) }
{
    let row = [
        ("answer", Field::Items(answer.as_slice())),
        ("cites", Field::Cites(cites.as_slice())),
        ("newest", Field::Boolean(newest)),
        ("request", Field::Number(request)),
    ];
    write_row(alloc, &row)
}

// The line of offers.
fn write_offers<'a>(
    alloc: Global,
    cites: &'a Sequence<Cite>,
    newest: bool,
    offers: &'a Sequence<Offer>,
    request: u64,
) -> Mem<Vec<u8>>
    ensures { IfOk result (λ text. text.items ≡ compact_text (row_data (offers_row cites.now newest offers.now request))) }
{
    let row = [
        ("cites", Field::Cites(cites.as_slice())),
        ("newest", Field::Boolean(newest)),
        ("offers", Field::Offers(offers.as_slice())),
        ("request", Field::Number(request)),
    ];
    write_row(alloc, &row)
}

// The line that tells one thing of a request.
fn write_told(alloc: Global, key: &str, told: &Field, request: u64) -> Mem<Vec<u8>>
    ensures { IfOk result (λ text. text.items ≡ compact_text (row_data (told_row key.now (field_data told.now) request))) }
{
    let row = [(key, *told), ("request", Field::Number(request))];
    write_row(alloc, &row)
}

// The line that tells one number of a request.
fn write_number(alloc: Global, key: &str, told: u64, request: u64) -> Mem<Vec<u8>>
    ensures { IfOk result (λ text. text.items ≡ compact_text (row_data (told_row key.now (number_data told) request))) }
{
    write_told(alloc, key, &Field::Number(told), request)
}

// The line of an audit's answer.
fn write_audit(alloc: Global, audit: &Sequence<Item>, request: u64) -> Mem<Vec<u8>>
    ensures { IfOk result (λ text. text.items ≡ compact_text (row_data (told_row (codes "audit") (items_data audit.now) request))) }
{
    write_told(alloc, "audit", &Field::Items(audit.as_slice()), request)
}

// The line of an eviction.
fn write_evicted(alloc: Global, evicted: Status, request: u64) -> Mem<Vec<u8>>
    ensures { IfOk result (λ text. text.items ≡ compact_text (row_data (told_row (codes "evicted") (string (status_word evicted)) request))) }
{
    write_told(
        alloc,
        "evicted",
        &Field::Text(status_word(evicted)),
        request,
    )
}

// The line of an owner.
fn write_owner<'a>(alloc: Global, agent: &'a AgentId, epoch: u64, name: &'a Name) -> Mem<Vec<u8>>
    ensures { IfOk result (λ text. text.items ≡ compact_text (row_data (owner_row agent.now epoch name.now))) }
{
    let row = [
        ("agent", Field::Text(agent.as_str())),
        ("epoch", Field::Number(epoch)),
        ("name", Field::Name(name)),
    ];
    write_row(alloc, &row)
}

// The line of the counts of a world.
fn write_summary(alloc: Global, counts: &Summary) -> Mem<Vec<u8>>
    ensures { IfOk result (λ text. text.items ≡ compact_text (row_data (summary_row counts.now))) }
{
    let row = [
        ("accepted", Field::Number(counts.accepted)),
        ("answered", Field::Number(counts.answered)),
        ("asks", Field::Number(counts.asks)),
        ("bytes", Field::Number(counts.bytes)),
        ("moves", Field::Number(counts.moves)),
        ("open", Field::Number(counts.opened)),
        ("posts", Field::Number(counts.posts)),
        ("refused", Field::Number(counts.refused)),
    ];
    write_row(alloc, &row)
}

// The line of one count.
fn write_count(alloc: Global, key: &str, count: u64) -> Mem<Vec<u8>>
    ensures { IfOk result (λ text. text.items ≡ compact_text (row_data (count_row key.now count))) }
{
    let row = [(key, Field::Number(count))];
    write_row(alloc, &row)
}

// The line of what is refused and is no request, with the one number that tells more.
fn write_alone(alloc: Global, key: &str, told: u64, refused: &str) -> Mem<Vec<u8>>
    ensures { IfOk result (λ text. text.items ≡ compact_text (row_data (alone_row key.now told refused.now))) }
{
    let row = [
        (key, Field::Number(told)),
        ("refused", Field::Text(refused)),
    ];
    write_row(alloc, &row)
}

// The line of a refused request.
fn write_refused(alloc: Global, refused: &str, request: u64) -> Mem<Vec<u8>>
    ensures { IfOk result (λ text. text.items ≡ compact_text (row_data (refused_row refused.now request))) }
{
    write_told(alloc, "refused", &Field::Text(refused), request)
}

// The line of a refused request, with the one number that tells more.
fn write_refused_with(
    alloc: Global,
    key: &str,
    told: u64,
    refused: &str,
    request: u64,
) -> Mem<Vec<u8>>
    ensures { IfOk result (λ text. text.items ≡ compact_text (row_data (refused_with_row key.now (number_data told) refused.now request))) }
{
    let row = [
        (key, Field::Number(told)),
        ("refused", Field::Text(refused)),
        ("request", Field::Number(request)),
    ];
    write_row(alloc, &row)
}

// The line of a question for parking that was refused for a block's tariff.
fn write_bad_tariff(alloc: Global, name: &Name, request: u64) -> Mem<Vec<u8>>
    ensures { IfOk result (λ text. text.items ≡ compact_text (row_data (refused_with_row (codes "name") (string (name_text name.now)) (codes "bad tariff") request))) }
{
    let row = [
        ("name", Field::Name(name)),
        ("refused", Field::Text("bad tariff")),
        ("request", Field::Number(request)),
    ];
    write_row(alloc, &row)
}

// The line of a node that there is not.
fn write_no_node(alloc: Global, request: Option<u64>) -> Mem<Vec<u8>>
    ensures { IfOk result (λ text. text.items ≡ compact_text (row_data (no_node_row request))) }
{
    let refused = "no such node";
    match request {
        Some(request) => write_refused(alloc, refused, request),
        None => write_row(alloc, &[("refused", Field::Text(refused))]),
    }
}

// The line of a refused query.
fn write_bad_query(alloc: Global, why: &QueryFault, request: u64) -> Mem<Vec<u8>>
    ensures { IfOk result (λ text. text.items ≡ compact_text (row_data (bad_query_row why.now request))) }
{
    let refused = ("refused", Field::Text("bad query"));
    let request = ("request", Field::Number(request));
    match why {
        QueryFault::Syntax { at } => write_row(
            alloc,
            &[
                ("at", Field::Number(*at)),
                refused,
                request,
                ("why", Field::Text("syntax")),
            ],
        ),
        QueryFault::Outside { at, what } => write_row(
            alloc,
            &[
                ("at", Field::Number(*at)),
                refused,
                request,
                ("what", Field::Text(what.as_str())),
                ("why", Field::Text("outside")),
            ],
        ),
        QueryFault::TooLarge { which } => write_row(
            alloc,
            &[
                refused,
                request,
                ("which", Field::Text(which.as_str())),
                ("why", Field::Text("too large")),
            ],
        ),
    }
}

// The line of a node of which an agent holds no copy.
fn write_not_held(alloc: Global, status: Option<Status>, request: u64) -> Mem<Vec<u8>>
    ensures { IfOk result (λ text. text.items ≡ compact_text (row_data (not_held_row status request))) }
{
    let row = [
        ("refused", Field::Text("not held")),
        ("request", Field::Number(request)),
        ("status", Field::Text(held_word(status))),
    ];
    write_row(alloc, &row)
}

// The last line where a line of the script is at fault.
fn write_ended(alloc: Global, line: u64, why: Why, node: Option<u32>) -> Mem<Vec<u8>>
    ensures { IfOk result (λ text. text.items ≡ compact_text (row_data (ended_row line why node))) }
{
    let ended = ("ended", Field::Number(BAD_SCRIPT));
    let line = ("line", Field::Number(line));
    let why = ("why", Field::Text(why.word()));
    match node {
        Some(node) => {
            let node = ("node", Field::Number(node as u64));
            write_row(alloc, &[ended, line, node, why])
        }
        None => write_row(alloc, &[ended, line, why]),
    }
}

// The last line where a limit is passed.
fn write_limit(alloc: Global, count: u64, which: Which) -> Mem<Vec<u8>>
    ensures { IfOk result (λ text. text.items ≡ compact_text (row_data (limit_row count which))) }
{
    let row = [
        ("count", Field::Number(count)),
        ("ended", Field::Number(PAST_LIMIT)),
        ("which", Field::Text(which.word())),
    ];
    write_row(alloc, &row)
}

// The line of the end of a run.
fn write_end(alloc: Global, out: &Out) -> Mem<Vec<u8>>
    requires { 3 ≤ place_of out.now }
    ensures { IfOk result (λ text. text.items ≡ out_text out.now) }
{
    match out {
        Out::Ended { line, why, node } => write_ended(alloc, *line, *why, *node),
        Out::Limit { count, which } => write_limit(alloc, *count, *which),
        _ => unreachable!(),
    }
}

// The line of a refusal, or of the end of a run.
fn write_refusal(alloc: Global, out: &Out) -> Mem<Vec<u8>>
    requires { 2 ≤ place_of out.now }
    ensures { IfOk result (λ text. text.items ≡ out_text out.now) }
{
    match out {
        Out::BackInTime { now } => write_alone(alloc, "now", *now, "back in time"),
        Out::NoSuchMessage { posted } => write_alone(alloc, "posted", *posted, "no such message"),
        Out::BadQuery { why, request } => write_bad_query(alloc, why, *request),
        Out::NoSuchNode { request } => write_no_node(alloc, *request),
        Out::NoSuchAgent { request } => write_refused(alloc, "no such agent", *request),
        Out::SameOwner { request } => write_refused(alloc, "same owner", *request),
        Out::IsOwned { request } => write_refused(alloc, "is owned", *request),
        Out::Unkept { request } => write_refused(alloc, "unkept", *request),
        Out::Old { last, request } => write_refused_with(alloc, "last", *last, "old", *request),
        Out::BadChange { at, request } => write_refused_with(
            alloc,
            "at",
            *at,
            "bad change",
            *request,
        ),
        Out::InTransit { epoch, request } => write_refused_with(
            alloc,
            "epoch",
            *epoch,
            "in transit",
            *request,
        ),
        Out::Busy { opened, request } => write_refused_with(
            alloc, "open", *opened, "busy", *request,
        ),
        Out::NotHeld { status, request } => write_not_held(alloc, *status, *request),
        Out::BadTariff { name, request } => write_bad_tariff(alloc, name, *request),
        _ => write_end(alloc, out),
    }
}

// The line of an outcome, of a refusal or of the end of a run.
fn write_outcome(alloc: Global, out: &Out) -> Mem<Vec<u8>>
    requires { 1 ≤ place_of out.now }
    ensures { IfOk result (λ text. text.items ≡ out_text out.now) }
{
    match out {
        Out::Answer {
            answer,
            cites,
            newest,
            request,
        } => write_answer(alloc, answer, cites, *newest, *request),
        Out::Offers {
            cites,
            newest,
            offers,
            request,
        } => write_offers(alloc, cites, *newest, offers, *request),
        Out::Audit { audit, request } => write_audit(alloc, audit, *request),
        Out::Accepted { accepted, request } => write_number(alloc, "accepted", *accepted, *request),
        Out::Gave { gave, request } => write_number(alloc, "gave", *gave, *request),
        Out::Evicted { evicted, request } => write_evicted(alloc, *evicted, *request),
        Out::Settled { settled } => write_count(alloc, "settled", *settled),
        Out::Forgot { forgot } => write_count(alloc, "forgot", *forgot),
        Out::Owner { agent, epoch, name } => write_owner(alloc, agent, *epoch, name),
        Out::Summary(counts) => write_summary(alloc, counts),
        _ => write_refusal(alloc, out),
    }
}

/// The compact text of a line, with its keys in the order of their bytes, without LF.
pub fn write_out(alloc: Global, out: &Out) -> Mem<Vec<u8>>
    ensures { IfOk result (λ text. text.items ≡ out_text out.now) }
{
    match out {
        Out::Query { post, request, to } => write_client_post(alloc, "query", *post, *request, to),
        Out::Update { post, request, to } => write_client_post(
            alloc, "update", *post, *request, to,
        ),
        Out::Ask {
            ask,
            level,
            name,
            post,
            states,
            to,
        } => write_ask(alloc, *ask, *level, name, *post, states.as_slice(), to),
        Out::Reply {
            ask,
            pieces,
            post,
            to,
        } => write_reply(alloc, *ask, *pieces, *post, to),
        Out::Handover {
            epoch,
            name,
            post,
            to,
        } => write_handover(alloc, *epoch, name, *post, to),
        _ => write_outcome(alloc, out),
    }
}
