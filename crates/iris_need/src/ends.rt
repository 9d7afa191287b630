//! The ends of paths: places, and attributes of places over a view.
ghost use Rattle.std.specs.Prelude.{◌≡◌, ◌∷◌, ◌++◌, [], None, Some, IfOk, OnOk, option_map};
ghost use Rattle.std.specs.Prelude.{List};
ghost use Rattle.iris_base.specs.declared.name.Label.{Label};
ghost use Rattle.iris_base.specs.Attribute.{is_id};
ghost use Rattle.iris_tree.specs.Attrs.{value_of};
ghost use Rattle.iris_xpath.specs.Syntax.{end_of};
ghost use Rattle.iris_xpath.specs.declared.expression.Separator.TheVariants.{Slash, DoubleSlash};
ghost use Rattle.iris_need.specs.Program.{some_end, spot_value, attributes_from, own_attribute, attributes};
ghost use Rattle.iris_need.specs.Program as program;
ghost use Rattle.iris_need.specs.Walk.{Adds, FindsEnds, HasAttributes, spot_in, marks_of, given, attributes_here};

use crate::elements::{add_attribute, add_attributes_below, value_at};
use crate::further::Trail;
use crate::looks::Marks;
use crate::needs::Needs;
use crate::spot::Spot;
use crate::walk::{Walk, both_told, room};
use iris_tree::{Label, Local, Mem, Name, Text, is_id};
use iris_xpath::{Attribute, Separator};
use std::alloc::Global;

/// An attribute that is sought, and the states that looks for it carry.
#[derive(Clone, Copy)]
pub(crate) struct Sought<'p> {
    pub(crate) attribute: &'p str,
    pub(crate) marks: Marks<'p>,
}

// Adds the id of a node.
fn add_id(alloc: Global, label: &Label, ends: &mut Vec<Option<Text>>) -> Mem<()>
    ensures { OnOk result (ends.new.items ≡ ends.old.items ++ Some label.now.id ∷ []) }
{
    ends.push(Some(Text::of(alloc, label.id.as_str())?))?;
    Ok(())
}

// Adds the value of an attribute of a node, if it has one.
fn add_own(alloc: Global, local: &Local, attribute: &str, ends: &mut Vec<Option<Text>>) -> Mem<()>
    ensures { OnOk result (ends.new.items ≡ ends.old.items ++ some_end (value_of local.now.attrs attribute.now)) }
{
    if let Some(value) = local.attrs.get(attribute) {
        ends.push(Some(Text::of(alloc, value)?))?;
    }
    Ok(())
}

impl<'a> Walk<'a> {
    // Adds the values of an attribute of a node and of its plain elements, and gives the node's ids; none
    // where the view doesn't tell. `@id` is told by the label.
    fn see_attribute(
        &self,
        sought: &Sought,
        label: Label,
        name: &Name,
        needs: &mut Needs,
        ends: &mut Vec<Option<Text>>,
    ) -> Mem<Option<&'a [Label]>>
        ensures adds { OnOk result (Adds self.now needs.old needs.new (attributes_here self.now sought.now name.now label)) }
        ensures gives { IfOk result (λ ids. HasAttributes ends.old.items ends.new.items (option_map (λ ids. ids.now) ids) (given self.now (attributes_here self.now sought.now name.now label))) }
    {
        let state = sought.marks.state_at(name);
        if is_id(sought.attribute) {
            let Some(ids) = self.see_ids(name, state, needs)? else {
                return Ok(None);
            };
            add_id(self.alloc, &label, ends)?;
            return Ok(Some(ids));
        }
        let Some((ids, local)) = self.see_full(name, state, needs)? else {
            return Ok(None);
        };
        add_own(self.alloc, local, sought.attribute, ends)?;
        add_attributes_below(self.alloc, local, &[], sought.attribute, ends)?;
        Ok(Some(ids))
    }

    // Adds the values of an attribute of a node and of all below it, down to that many levels.
    fn attributes_from(
        &self,
        levels: usize,
        sought: &Sought,
        label: Label,
        name: &mut Name,
        needs: &mut Needs,
        ends: &mut Vec<Option<Text>>,
    ) -> Mem<bool>
        ensures name { OnOk result (name.new ≡ name.old) }
        ensures adds { OnOk result (Adds self.now needs.old needs.new (attributes_from levels (marks_of sought.now.marks) sought.now.attribute.now name.old label)) }
        ensures gives { IfOk result (λ told. FindsEnds told ends.old.items ends.new.items (given self.now (attributes_from levels (marks_of sought.now.marks) sought.now.attribute.now name.old label))) }
    {
        let Some(ids) = self.see_attribute(sought, label, name, needs, ends)? else {
            return Ok(false);
        };
        if levels == 0 {
            return Ok(true);
        }
        let mut told = true;
        for child in ids {
            name.push(*child)?;
            let here = self.attributes_from(levels - 1, sought, *child, name, needs, ends)?;
            name.pop();
            told = both_told(told, here);
        }
        Ok(told)
    }

    // Adds the value of an attribute of a node alone, if it has one.
    fn own_attribute(
        &self,
        sought: &Sought,
        label: Label,
        name: &Name,
        needs: &mut Needs,
        ends: &mut Vec<Option<Text>>,
    ) -> Mem<bool>
        ensures adds { OnOk result (Adds self.now needs.old needs.new (own_attribute (is_id sought.now.attribute.now) (marks_of sought.now.marks) sought.now.attribute.now name.now label)) }
        ensures gives { IfOk result (λ told. FindsEnds told ends.old.items ends.new.items (given self.now (own_attribute (is_id sought.now.attribute.now) (marks_of sought.now.marks) sought.now.attribute.now name.now label))) }
    {
        if is_id(sought.attribute) {
            add_id(self.alloc, &label, ends)?;
            return Ok(true);
        }
        let state = sought.marks.state_at(name);
        let Some((_, local)) = self.see_full(name, state, needs)? else {
            return Ok(false);
        };
        add_own(self.alloc, local, sought.attribute, ends)?;
        Ok(true)
    }

    // Adds the value of an attribute of what stands at a place, if it has one.
    fn attribute_here(
        &self,
        sought: &Sought,
        spot: &Spot,
        name: &Name,
        needs: &mut Needs,
        ends: &mut Vec<Option<Text>>,
    ) -> Mem<bool>
        ensures adds { OnOk result (Adds self.now needs.old needs.new (attributes self.now.top (marks_of sought.now.marks) Slash sought.now.attribute.now (spot_in name.now spot.now))) }
        ensures gives { IfOk result (λ told. FindsEnds told ends.old.items ends.new.items (given self.now (attributes self.now.top (marks_of sought.now.marks) Slash sought.now.attribute.now (spot_in name.now spot.now)))) }
    {
        match spot {
            Spot::Document => Ok(true),
            Spot::Node(label) => self.own_attribute(sought, *label, name, needs, ends),
            Spot::Element(local, path) => {
                add_attribute(self.alloc, local, path, sought.attribute, ends)?;
                Ok(true)
            }
        }
    }

    // Adds the values of an attribute of what stands at a place and of all below it.
    fn attributes_below(
        &self,
        sought: &Sought,
        spot: &Spot,
        name: &mut Name,
        needs: &mut Needs,
        ends: &mut Vec<Option<Text>>,
    ) -> Mem<bool>
        ensures name { OnOk result (name.new ≡ name.old) }
        ensures adds { OnOk result (Adds self.now needs.old needs.new (attributes self.now.top (marks_of sought.now.marks) DoubleSlash sought.now.attribute.now (spot_in name.old spot.now))) }
        ensures gives { IfOk result (λ told. FindsEnds told ends.old.items ends.new.items (given self.now (attributes self.now.top (marks_of sought.now.marks) DoubleSlash sought.now.attribute.now (spot_in name.old spot.now)))) }
    {
        match spot {
            Spot::Document => {
                let mut top = Name::document(self.alloc);
                top.push(self.top)?;
                let levels = room(&top);
                self.attributes_from(levels, sought, self.top, &mut top, needs, ends)
            }
            Spot::Node(label) => {
                self.attributes_from(room(name), sought, *label, name, needs, ends)
            }
            Spot::Element(local, path) => {
                add_attributes_below(self.alloc, local, path, sought.attribute, ends)?;
                Ok(true)
            }
        }
    }

    // Adds the value of a place, where it has one.
    fn end_here(&self, spot: &Spot, ends: &mut Vec<Option<Text>>) -> Mem<()>
        ensures { (name : List Label) → OnOk result (ends.new.items ≡ ends.old.items ++ spot_value (spot_in name spot.now) ∷ []) }
    {
        let value = match spot {
            Spot::Element(local, path) => value_at(local, path)?,
            Spot::Document | Spot::Node(_) => None,
        };
        ends.push(value)?;
        Ok(())
    }

    /// The end of a path: the place itself, or attributes.
    pub(crate) fn end(
        &self,
        trail: &Trail,
        spot: &Spot,
        name: &mut Name,
        needs: &mut Needs,
        ends: &mut Vec<Option<Text>>,
    ) -> Mem<bool>
        ensures name { OnOk result (name.new ≡ name.old) }
        ensures adds { OnOk result (Adds self.now needs.old needs.new (program.ends self.now.top (marks_of trail.now.marks) (end_of trail.now.attribute.now) (spot_in name.old spot.now))) }
        ensures gives { IfOk result (λ told. FindsEnds told ends.old.items ends.new.items (given self.now (program.ends self.now.top (marks_of trail.now.marks) (end_of trail.now.attribute.now) (spot_in name.old spot.now)))) }
    {
        let Some(attribute) = trail.attribute else {
            self.end_here(spot, ends)?;
            return Ok(true);
        };
        let sought = Sought {
            attribute: attribute.name.as_str(),
            marks: trail.marks,
        };
        match attribute.separator {
            Separator::Slash => self.attribute_here(&sought, spot, name, needs, ends),
            Separator::DoubleSlash => self.attributes_below(&sought, spot, name, needs, ends),
        }
    }
}
