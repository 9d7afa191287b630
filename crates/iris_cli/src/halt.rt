//! Why the play of a script goes no further.
ghost use Rattle.std.specs.Prelude.{◌≡◌, None};
ghost use Rattle.iris_cli.specs.Halt.{of_source, of_sink, why_of, city_why, is_of_node};

use iris_json::{CityError, CityWhy, LineError, LineWhy, Which, Why};
use iris_tree::{Fault, Memory};
use std::alloc::{AllocError, AllocFailed};

/// Why a script goes no further.
#[derive(Clone, Copy, Debug, PartialEq, Eq)]
pub enum Halt {
    /// The source failed.
    ReadFault,
    /// The sink failed.
    WriteFault,
    /// The present line is at fault; of a city line, at the node of that number, where one node is.
    BadLine { why: Why, node: Option<u32> },
    /// That limit was passed; the count is the least that passes it, or the greatest that was found.
    Limit { which: Which, count: u64 },
    /// There was no memory.
    Memory,
}

impl From<Memory> for Halt {
    ghost use Rattle.std.specs.Prelude.{◌≡◌};
    ghost use Rattle.iris_cli.specs.declared.halt.Halt.TheVariants.{Memory};

    ghost from_gives = { λ _ halt. halt ≡ Memory };

    fn from(_error: Memory) -> Halt {
        Halt::Memory
    }
}

impl From<AllocError> for Halt {
    ghost use Rattle.std.specs.Prelude.{◌≡◌};
    ghost use Rattle.iris_cli.specs.declared.halt.Halt.TheVariants.{Memory};

    ghost from_gives = { λ _ halt. halt ≡ Memory };

    fn from(_error: AllocError) -> Halt {
        Halt::Memory
    }
}

impl<T: Drop> From<AllocFailed<T>> for Halt {
    ghost use Rattle.std.specs.Prelude.{◌≡◌};
    ghost use Rattle.iris_cli.specs.declared.halt.Halt.TheVariants.{Memory};

    ghost from_gives = { λ _ halt. halt ≡ Memory };

    fn from(_error: AllocFailed<T>) -> Halt {
        Halt::Memory
    }
}

impl Halt {
    /// The present line is at fault, and no node of it.
    pub fn bad_line(why: Why) -> Halt
        ensures { result ≡ Halt.BadLine why None }
    {
        Halt::BadLine { why, node: None }
    }

    /// What the fault of a source tells.
    pub fn of_source(fault: Fault) -> Halt
        ensures { result ≡ of_source fault }
    {
        match fault {
            Fault::Failed => Halt::ReadFault,
            Fault::Memory => Halt::Memory,
        }
    }

    /// What the fault of a sink tells.
    pub fn of_sink(fault: Fault) -> Halt
        ensures { result ≡ of_sink fault }
    {
        match fault {
            Fault::Failed => Halt::WriteFault,
            Fault::Memory => Halt::Memory,
        }
    }
}

// What the last line tells of a city line.
fn city_why(why: CityWhy) -> Why
    ensures { result ≡ city_why why }
{
    match why {
        CityWhy::Shape => Why::Shape,
        CityWhy::Kinds => Why::Kinds,
        CityWhy::Agents => Why::Agents,
        CityWhy::Capacities => Why::Capacities,
        CityWhy::Label => Why::Label,
        CityWhy::Twin => Why::Twin,
        CityWhy::Attribute => Why::Attribute,
        CityWhy::Plain => Why::Plain,
        CityWhy::Place => Why::Place,
        CityWhy::Zone => Why::Zone,
    }
}

// Whether that is the fault of one node, whose number is told.
fn is_of_node(why: CityWhy) -> bool
    ensures { result ≡ is_of_node why }
{
    matches!(
        why,
        CityWhy::Label | CityWhy::Twin | CityWhy::Attribute | CityWhy::Plain
    )
}

impl From<CityError> for Halt {
    ghost use Rattle.std.specs.Prelude.{◌≡◌};
    ghost use Rattle.iris_cli.specs.Halt.{of_city};

    ghost from_gives = { λ error halt. halt ≡ of_city error };

    fn from(error: CityError) -> Halt {
        match error {
            CityError::NotJson => Halt::bad_line(Why::NotJson),
            CityError::BadCity { node, why } => Halt::BadLine {
                why: city_why(why),
                node: is_of_node(why).then_some(node),
            },
            CityError::CityLimit { which, count } => Halt::Limit { which, count },
            CityError::Memory => Halt::Memory,
        }
    }
}

// What the last line tells of a line that is not one of a script.
fn why_of(why: LineWhy) -> Why
    ensures { result ≡ why_of why }
{
    match why {
        LineWhy::Shape => Why::Shape,
        LineWhy::Name => Why::Name,
        LineWhy::Number => Why::Number,
        LineWhy::Change => Why::Change,
    }
}

impl From<LineError> for Halt {
    ghost use Rattle.std.specs.Prelude.{◌≡◌};
    ghost use Rattle.iris_cli.specs.Halt.{of_line};

    ghost from_gives = { λ error halt. halt ≡ of_line error };

    fn from(error: LineError) -> Halt {
        match error {
            LineError::NotJson => Halt::bad_line(Why::NotJson),
            LineError::BadLine { why } => Halt::bad_line(why_of(why)),
            LineError::Memory => Halt::Memory,
        }
    }
}
