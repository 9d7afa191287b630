//! Steps from a place over a view, and the main path.
ghost use Rattle.std.specs.Prelude.{◌≡◌, ◌+◌, ◌≤◌, ◌∷◌, ◌++◌, [], IfOk, OnOk, map};
ghost use Rattle.iris_base.specs.declared.limits.TheConstants.{MAX_LABELS};
ghost use Rattle.iris_xpath.specs.Syntax.{main_of};
ghost use Rattle.iris_need.specs.Program.{gather, passes_label, goes};
ghost use Rattle.iris_need.specs.Walk.{Adds, FindsEnds, HasFound, spot_in, marks_of, given, reached, main_reached, main_program, path_program, node_reached, child_reached, label_reached, deeper_reached, elements_reached, further_program, path_of};

use crate::elements::step_paths;
use crate::further::{Further, Trail};
use crate::looks::Marks;
use crate::needs::Needs;
use crate::route::Route;
use crate::spot::Spot;
use crate::walk::{Walk, both_told, room};
use iris_tree::{Label, Local, MAX_LABELS, Mem, Name, State, Text};
use iris_xpath::{Expression, NameTest, Separator, Step};

// Whether a step with that test goes to a node of that label.
fn passes_label(label: &Label, test: &NameTest) -> bool
    ensures { result ≡ passes_label label.now test.now }
{
    match test {
        NameTest::Any => true,
        NameTest::Kind(kind) => label.kind == *kind,
        NameTest::Tag(_) => false,
    }
}

impl<'a> Walk<'a> {
    /// Takes a step from a place, and does what is to be done at each place to which it goes. Whether the
    /// view tells all that is found.
    #[cycle(evaluating)]
    pub(crate) fn reach(
        &self,
        further: &Further,
        own: &Marks,
        spot: &Spot,
        name: &mut Name,
        needs: &mut Needs,
        ends: &mut Vec<Option<Text>>,
    ) -> Mem<bool>
        ensures name { OnOk result (name.new ≡ name.old) }
        ensures adds { OnOk result (Adds self.now needs.old needs.new (reached self.now further.now own.now (spot_in name.old spot.now))) }
        ensures gives { IfOk result (λ told. HasFound further.now told ends.old.items ends.new.items (given self.now (reached self.now further.now own.now (spot_in name.old spot.now)))) }
    {
        match spot {
            Spot::Document => {
                let mut top = Name::document(self.alloc);
                let levels = MAX_LABELS;
                self.to_child(levels, further, &self.top, &mut top, needs, ends)
            }
            Spot::Node(_) => self.from_node(room(name), further, own, name, needs, ends),
            Spot::Element(local, path) => {
                self.to_elements(further, local, path, name, needs, ends)
            }
        }
    }

    // Takes a step from a node that has at most that many levels below it.
    #[cycle(evaluating)]
    fn from_node(
        &self,
        levels: usize,
        further: &Further,
        own: &Marks,
        name: &mut Name,
        needs: &mut Needs,
        ends: &mut Vec<Option<Text>>,
    ) -> Mem<bool>
        requires few { levels ≤ MAX_LABELS }
        ensures name { OnOk result (name.new ≡ name.old) }
        ensures adds { OnOk result (Adds self.now needs.old needs.new (node_reached self.now levels further.now (marks_of own.now) name.old)) }
        ensures gives { IfOk result (λ told. HasFound further.now told ends.old.items ends.new.items (given self.now (node_reached self.now levels further.now (marks_of own.now) name.old))) }
    {
        let state = own.state_at(name);
        match &further.step().test {
            NameTest::Kind(_) => {
                let Some(ids) = self.see_ids(name, state, needs)? else {
                    return Ok(false);
                };
                self.to_children(levels, further, ids, name, needs, ends)
            }
            NameTest::Any | NameTest::Tag(_) => {
                let Some((ids, local)) = self.see_full(name, state, needs)? else {
                    return Ok(false);
                };
                let nodes = self.to_children(levels, further, ids, name, needs, ends)?;
                let elements = self.to_elements(further, local, &[], name, needs, ends)?;
                Ok(both_told(nodes, elements))
            }
        }
    }

    // Takes a step to each of these children.
    #[cycle(evaluating)]
    fn to_children(
        &self,
        levels: usize,
        further: &Further,
        ids: &[Label],
        name: &mut Name,
        needs: &mut Needs,
        ends: &mut Vec<Option<Text>>,
    ) -> Mem<bool>
        requires few { levels ≤ MAX_LABELS }
        ensures name { OnOk result (name.new ≡ name.old) }
        ensures adds { OnOk result (Adds self.now needs.old needs.new (gather (child_reached self.now levels further.now name.old) ids.now)) }
        ensures gives { IfOk result (λ told. HasFound further.now told ends.old.items ends.new.items (given self.now (gather (child_reached self.now levels further.now name.old) ids.now))) }
    {
        let mut told = true;
        for child in ids {
            let here = self.to_child(levels, further, child, name, needs, ends)?;
            told = both_told(told, here);
        }
        Ok(told)
    }

    // Takes a step to a child, and with `//` on to what is below it.
    #[cycle(evaluating)]
    fn to_child(
        &self,
        levels: usize,
        further: &Further,
        child: &Label,
        name: &mut Name,
        needs: &mut Needs,
        ends: &mut Vec<Option<Text>>,
    ) -> Mem<bool>
        requires few { levels ≤ MAX_LABELS }
        ensures name { OnOk result (name.new ≡ name.old) }
        ensures adds { OnOk result (Adds self.now needs.old needs.new (child_reached self.now levels further.now name.old child.now)) }
        ensures gives { IfOk result (λ told. HasFound further.now told ends.old.items ends.new.items (given self.now (child_reached self.now levels further.now name.old child.now))) }
    {
        name.push(*child)?;
        let here = self.to_label(further, child, name, needs, ends)?;
        let deeper = self.to_deeper(levels, further, name, needs, ends)?;
        name.pop();
        Ok(both_told(here, deeper))
    }

    // Does what is to be done at a node, where the step goes to its label.
    #[cycle(evaluating)]
    fn to_label(
        &self,
        further: &Further,
        label: &Label,
        name: &mut Name,
        needs: &mut Needs,
        ends: &mut Vec<Option<Text>>,
    ) -> Mem<bool>
        ensures name { OnOk result (name.new ≡ name.old) }
        ensures adds { OnOk result (Adds self.now needs.old needs.new (label_reached self.now further.now name.old label.now)) }
        ensures gives { IfOk result (λ told. HasFound further.now told ends.old.items ends.new.items (given self.now (label_reached self.now further.now name.old label.now))) }
    {
        if !passes_label(label, &further.step().test) {
            return Ok(true);
        }
        let spot = Spot::Node(*label);
        let _local = spot.local();
        self.arrive(further, &spot, name, needs, ends)
    }

    // Takes a step by `//` on from a node to which it may have gone.
    #[cycle(evaluating)]
    fn to_deeper(
        &self,
        levels: usize,
        further: &Further,
        name: &mut Name,
        needs: &mut Needs,
        ends: &mut Vec<Option<Text>>,
    ) -> Mem<bool>
        requires few { levels ≤ MAX_LABELS }
        ensures name { OnOk result (name.new ≡ name.old) }
        ensures adds { OnOk result (Adds self.now needs.old needs.new (deeper_reached self.now levels further.now name.old)) }
        ensures gives { IfOk result (λ told. HasFound further.now told ends.old.items ends.new.items (given self.now (deeper_reached self.now levels further.now name.old))) }
    {
        if levels == 0 {
            return Ok(true);
        }
        match further.step().separator {
            Separator::Slash => Ok(true),
            Separator::DoubleSlash => {
                let marks = further.lower_marks();
                self.from_node(levels - 1, further, &marks, name, needs, ends)
            }
        }
    }

    // Takes a step to plain elements, from one of them or from the node.
    #[cycle(evaluating)]
    fn to_elements(
        &self,
        further: &Further,
        local: &Local,
        above: &[usize],
        name: &mut Name,
        needs: &mut Needs,
        ends: &mut Vec<Option<Text>>,
    ) -> Mem<bool>
        ensures name { OnOk result (name.new ≡ name.old) }
        ensures adds { OnOk result (Adds self.now needs.old needs.new (elements_reached self.now further.now local.now (path_of above.now) name.old)) }
        ensures gives { IfOk result (λ told. HasFound further.now told ends.old.items ends.new.items (given self.now (elements_reached self.now further.now local.now (path_of above.now) name.old))) }
    {
        let paths = step_paths(self.alloc, further.step(), local, above)?;
        let mut told = true;
        for path in &paths {
            let spot = Spot::Element(local, path.as_slice());
            let here = self.arrive(further, &spot, name, needs, ends)?;
            told = both_told(told, here);
        }
        Ok(told)
    }

    // Does what is to be done at a place to which a step goes.
    #[cycle(evaluating)]
    fn arrive(
        &self,
        further: &Further,
        spot: &Spot,
        name: &mut Name,
        needs: &mut Needs,
        ends: &mut Vec<Option<Text>>,
    ) -> Mem<bool>
        ensures name { OnOk result (name.new ≡ name.old) }
        ensures adds { OnOk result (Adds self.now needs.old needs.new (further_program self.now.top further.now (spot_in name.old spot.now))) }
        ensures gives { IfOk result (λ told. HasFound further.now told ends.old.items ends.new.items (given self.now (further_program self.now.top further.now (spot_in name.old spot.now)))) }
    {
        match further {
            Further::Main(route) => {
                self.test(route, spot, name, needs)?;
                Ok(true)
            }
            Further::Path(step, trail) => self.pass(step, trail, spot, name, needs, ends),
        }
    }

    // Follows the further parts of a path, where the predicates of its step hold.
    #[cycle(evaluating)]
    fn pass(
        &self,
        step: &Step<Expression>,
        trail: &Trail,
        spot: &Spot,
        name: &mut Name,
        needs: &mut Needs,
        ends: &mut Vec<Option<Text>>,
    ) -> Mem<bool>
        ensures name { OnOk result (name.new ≡ name.old) }
        ensures adds { OnOk result (Adds self.now needs.old needs.new (path_program self.now.top step.now trail.now (spot_in name.old spot.now))) }
        ensures gives { IfOk result (λ told. FindsEnds told ends.old.items ends.new.items (given self.now (path_program self.now.top step.now trail.now (spot_in name.old spot.now)))) }
    {
        let predicates = step.predicates.as_slice();
        match self.all_hold(&trail.marks, predicates, spot, name, needs)? {
            Some(true) => self.follow(trail, spot, name, needs, ends),
            Some(false) => Ok(true),
            None => Ok(false),
        }
    }

    /// Tests a place by the predicates of a step of the main path, and goes on by the further steps where
    /// they hold.
    #[cycle(evaluating)]
    pub(crate) fn test(
        &self,
        route: &Route,
        spot: &Spot,
        name: &mut Name,
        needs: &mut Needs,
    ) -> Mem<()>
        ensures name { OnOk result (name.new ≡ name.old) }
        ensures adds { OnOk result (Adds self.now needs.old needs.new (main_program self.now.top route.now (spot_in name.old spot.now))) }
    {
        let at = name.copy()?;
        let marks = spot.marked(&at, State::Test(route.number));
        let predicates = route.step.predicates.as_slice();
        let holds = self
            .all_hold(&marks, predicates, spot, name, needs)?
            .unwrap_or(false);
        if !holds {
            return Ok(());
        }
        self.go_on(route, spot, name, needs)
    }

    // Goes on from a place by the steps after this one; after the last the place is selected.
    #[cycle(evaluating)]
    fn go_on(&self, route: &Route, spot: &Spot, name: &mut Name, needs: &mut Needs) -> Mem<()>
        ensures name { OnOk result (name.new ≡ name.old) }
        ensures adds { OnOk result (Adds self.now needs.old needs.new (goes self.now.top (route.now.number + 1) (map main_of route.now.rest.now) (spot_in name.old spot.now))) }
    {
        match route.next() {
            Some(next) => {
                let own = Marks::Each(State::At(next.number));
                self.go(&next, &own, spot, name, needs)
            }
            None => self.whole(spot, name, needs),
        }
    }

    /// Takes a step of the main path from a place. The look at the place itself carries these states.
    #[cycle(evaluating)]
    pub(crate) fn go(
        &self,
        route: &Route,
        own: &Marks,
        spot: &Spot,
        name: &mut Name,
        needs: &mut Needs,
    ) -> Mem<()>
        ensures name { OnOk result (name.new ≡ name.old) }
        ensures adds { OnOk result (Adds self.now needs.old needs.new (main_reached self.now route.now own.now (spot_in name.old spot.now))) }
    {
        let mut none = Vec::new(self.alloc);
        self.reach(&Further::Main(*route), own, spot, name, needs, &mut none)?;
        Ok(())
    }
}
