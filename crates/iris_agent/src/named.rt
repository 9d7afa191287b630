//! The asks that an agent names.
ghost use Rattle.std.specs.Prelude.{MatchBool};
ghost use Rattle.iris_agent.specs.NamedAsks.{NamesAsk, NamesNoAsk, StaysIfNamed, AreRetained};

use crate::asks::Asks;
use iris_gather::Gathers;
use iris_migrate::Titles;

/// Whether a parked message is that ask, or a gather is for it or waits for its reply.
pub(crate) fn names_ask(titles: &Titles, gathers: &Gathers, ask: u64) -> bool
    ensures { MatchBool result (NamesAsk titles.now gathers.now ask) (NamesNoAsk titles.now gathers.now ask) }
{
    titles.is_asked(ask) || gathers.names(ask)
}

// Whether an ask is named, by that test or here.
fn is_named<F: Fn(u64) -> bool>(titles: &Titles, gathers: &Gathers, named: &F, ask: u64) -> bool
    requires { F.pre named.now ask }
    ensures { StaysIfNamed (λ answer. F.post named.now ask answer) titles.now gathers.now ask result }
{
    named(ask) || names_ask(titles, gathers, ask)
}

/// Keeps of the asks those that are named, by that test or here. It takes no memory.
pub(crate) fn keep_named<F: Fn(u64) -> bool>(
    asked: &mut Asks,
    titles: &Titles,
    gathers: &Gathers,
    named: F,
)
    requires { F.IsAlwaysCallable named }
    ensures { AreRetained (λ ask. StaysIfNamed (λ answer. F.post named ask answer) titles.now gathers.now ask) asked.old asked.new }
{
    asked.retain(|ask| is_named(titles, gathers, &named, ask));
}
