//! How a run of the program ends.
ghost use Rattle.std.specs.Prelude.{◌≡◌};
ghost use Rattle.iris_cli.specs.Played.{last_out};
ghost use Rattle.iris_cli.specs.Statuses.{number_of};

use iris_json::{Out, Which, Why};

/// How a run of the program ended. After `BadScript` and `Limit` a last line tells why.
#[derive(Clone, Copy, Debug, PartialEq, Eq)]
pub enum Status {
    /// The script was read to its end, and all lines are written.
    Done,
    /// The words are not a list that the program takes. Nothing was read or written.
    Usage,
    /// That line of the script, counted from 1, is the first that is not of its form or has no LF. Where
    /// that is the fault of one node of the city line, `node` is its number, from 0 in the order of the
    /// line, parents first.
    BadScript {
        line: u64,
        why: Why,
        node: Option<u32>,
    },
    /// The source failed.
    ReadFault,
    /// The sink failed.
    WriteFault,
    /// That limit was passed; the count is the least that passes it.
    Limit {
        which: Which,
        count: u64,
    },
    /// There was no memory.
    Memory,
}

impl Status {
    /// The exit status of the program.
    pub fn number(self) -> u8
        ensures { result ≡ number_of self }
    {
        match self {
            Status::Done => 0,
            Status::Usage => 2,
            Status::BadScript { .. } => 3,
            Status::ReadFault => 4,
            Status::WriteFault => 5,
            Status::Limit { .. } => 7,
            Status::Memory => 9,
        }
    }

    /// The last line of a run that ends so, if it has one.
    pub(crate) fn last_out(self) -> Option<Out>
        ensures { result ≡ last_out self }
    {
        match self {
            Status::BadScript { line, why, node } => Some(Out::Ended { line, why, node }),
            Status::Limit { which, count } => Some(Out::Limit { count, which }),
            _ => None,
        }
    }
}
