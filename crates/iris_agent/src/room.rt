//! Room for what an event brings about.
ghost use Rattle.std.specs.Prelude.{List, OnOk};
ghost use Rattle.iris_agent.specs.declared.step.Step.{Step};

use crate::step::Step;
use iris_tree::Mem;

/// Where the steps of an event will go. An agent asks it for the memory that what follows from them takes
/// there, before the event changes anything that lasts: so after that no step fails for want of memory.
pub trait Room {
    /// Whether what was the first has room made in it for what follows from these steps, as the second is.
    ghost has_room: { Self → Self → List Step → Type 0 };

    /// Makes room for what follows from these steps. Where there is no memory it may have grown.
    fn make(&mut self, steps: &[Step]) -> Mem<()>
        ensures { OnOk result (has_room self.old self.new steps.now) };
}
