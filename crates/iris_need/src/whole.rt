//! Selected places, with all below them.
ghost use Rattle.std.specs.Prelude.{◌≡◌, OnOk};
ghost use Rattle.iris_need.specs.Program.{subtree, found};
ghost use Rattle.iris_need.specs.Walk.{Adds, spot_in};

use crate::needs::Needs;
use crate::spot::Spot;
use crate::walk::{Walk, room};
use iris_tree::{Label, Mem, Name, State};

impl<'a> Walk<'a> {
    /// Looks at a selected place with all below it. A plain element was looked at with its node.
    pub(crate) fn whole(&self, spot: &Spot, name: &mut Name, needs: &mut Needs) -> Mem<()>
        ensures name { OnOk result (name.new ≡ name.old) }
        ensures adds { OnOk result (Adds self.now needs.old needs.new (found (spot_in name.old spot.now))) }
    {
        match spot {
            Spot::Node(label) => self.subtree(room(name), *label, name, needs),
            Spot::Document => Ok(()),
            Spot::Element(_, _) => Ok(()),
        }
    }

    // Looks at a node with all below it, down to that many levels.
    fn subtree(&self, levels: usize, label: Label, name: &mut Name, needs: &mut Needs) -> Mem<()>
        ensures name { OnOk result (name.new ≡ name.old) }
        ensures adds { OnOk result (Adds self.now needs.old needs.new (subtree levels label name.old)) }
    {
        let Some((ids, _)) = self.see_full(name, Some(State::Whole), needs)? else {
            return Ok(());
        };
        if levels == 0 {
            return Ok(());
        }
        for child in ids {
            name.push(*child)?;
            self.subtree(levels - 1, *child, name, needs)?;
            name.pop();
        }
        Ok(())
    }
}
