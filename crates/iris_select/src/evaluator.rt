//! Predicates, evaluated at places of a document.
ghost use Rattle.std.specs.Prelude.{◌≡◌, ◌∷◌, ◌++◌, [], Some, map, drop, IfOk, OnOk, MatchOption};
ghost use Rattle.std.specs.List.{list_any, filter_map};
ghost use Rattle.iris_xpath.specs.Said.{all_conditions, steps_from, operand_side, step_on};
ghost use Rattle.iris_xpath.specs.Syntax.{condition_of, end_of};
ghost use Rattle.iris_xpath.specs.Meaning.{of_text, compare, holds, any_holds, all_hold, ends, values};
ghost use Rattle.iris_xpath.specs.Places.{attribute_of};
ghost use Rattle.iris_xpath.specs.Same.{HaveSame};
ghost use Rattle.iris_base.specs.Attribute.{is_id};
ghost use Rattle.iris_xpath.specs.Looks.{full, extent_of, looks_from, attribute_looks, all_look, each_look, condition_looks, side_looks, ends_look};
ghost use Rattle.iris_select.specs.Looking.{looks_at, looks_on, looks_deeper};
ghost use Rattle.iris_select.specs.Marks.{HasLooked};
ghost use Rattle.iris_xpath.specs.Values.{value_of};
ghost use Rattle.iris_select.specs.Parts.{edge_of, part_of};
ghost use Rattle.iris_select.specs.Evaluating.{document_of, place_in, Stands, IsBack, ends_of, HasMore, attributes_in, ends_deeper, ends_at, ends_with};

use crate::marks::Marks;
use crate::spot::{Edge, Spot};
use iris_tree::{Mem, Memory, Name, Sequence, Tree, is_id};
use iris_xpath::{
    Attribute, Expression, NameTest, Operand, Part, Path, Separator, Step, Value, some_compare,
};
use std::alloc::Global;

/// An evaluation over a document: where it stands, and what it looked into.
#[derive(Drop)]
pub struct Evaluator<'a> {
    pub alloc: Global,
    /// The top node.
    pub top: &'a Tree,
    /// The edges from the document to the place in hand.
    pub trail: Vec<Edge<'a>>,
    /// The nodes looked into, from the top node on.
    pub marks: Marks,
}

// What some conditions tell of a place.
#[derive(Clone, Copy)]
struct Told {
    some: bool,
    all: bool,
}

// Adds the value of an attribute of what stands at a place, if it has one.
fn add_attribute<'a>(spot: Spot<'a>, name: &str, found: &mut Vec<Option<&'a str>>) -> Mem<()>
    ensures { OnOk result (HasMore (ends_of found.new.items) (ends_of found.old.items) (ends_with (attribute_of (part_of spot.entry) name.now))) }
{
    if let Some(value) = spot.attribute(name) {
        found.push(Some(value))?;
    }
    Ok(())
}

// Adds the values of an attribute at what stands at a place and at all below it.
fn add_attributes<'a>(
    top: &'a Tree,
    spot: Spot<'a>,
    name: &str,
    found: &mut Vec<Option<&'a str>>,
) -> Mem<()>
    ensures { OnOk result (HasMore (ends_of found.new.items) (ends_of found.old.items) (attributes_in top.now (part_of spot.entry) name.now)) }
{
    add_attribute(spot, name, found)?;
    let children = spot.children(top);
    for at in 0..children.len() {
        add_attributes(top, children.get(at).spot, name, found)?;
    }
    Ok(())
}

// The edges from the top node on, of those from the document.
fn below_top<'a, 't>(trail: &'t [Edge<'a>]) -> &'t [Edge<'a>]
    ensures { result.now ≡ drop 1 trail.now }
{
    if trail.is_empty() {
        return trail;
    }
    &trail[1..]
}

impl<'a> Evaluator<'a> {
    /// Goes to a place right below the one in hand.
    pub fn enter(&mut self, edge: Edge<'a>) -> Mem<()>
        ensures document { OnOk result (self.new.top ≡ self.old.top) }
        ensures marks { OnOk result (self.new.marks ≡ self.old.marks) }
        ensures trail { OnOk result (self.new.trail.items ≡ self.old.trail.items ++ edge.entry ∷ []) }
    {
        self.trail.push(edge)?;
        Ok(())
    }

    /// Goes back to the place right above.
    pub fn leave(&mut self) -> Option<Edge<'a>>
        ensures document { self.new.top ≡ self.old.top }
        ensures marks { self.new.marks ≡ self.old.marks }
        ensures trail { MatchOption result ((self.old.trail.items ≡ []) × (self.new.trail.items ≡ [])) (λ last. self.old.trail.items ≡ self.new.trail.items ++ last ∷ []) }
    {
        self.trail.pop()
    }

    /// Looks into the node at the place in hand, and with `//` into all below it.
    pub fn look(&mut self, spot: Spot<'a>, separator: Separator) -> Mem<()>
        requires stands { Stands self.old spot }
        ensures back { OnOk result (IsBack self.old self.new) }
        ensures looks { OnOk result (HasLooked self.old self.new (λ looks. looks_from (document_of self.old) looks separator full (place_in self.old))) }
    {
        match spot {
            Spot::Plain(_) => Ok(()),
            Spot::Node(_) => {
                self.marks
                    .mark(self.alloc, self.top, below_top(&self.trail), separator)
            }
            Spot::Document => match separator {
                Separator::Slash => Ok(()),
                Separator::DoubleSlash => self.marks.mark(self.alloc, self.top, &[], separator),
            },
        }
    }

    /// Looks where a step looks for the places to which it goes.
    pub fn look_for(&mut self, spot: Spot<'a>, separator: Separator, test: &NameTest) -> Mem<()>
        requires stands { Stands self.old spot }
        ensures back { OnOk result (IsBack self.old self.new) }
        ensures looks { OnOk result (HasLooked self.old self.new (λ looks. looks_from (document_of self.old) looks separator (extent_of test.now) (place_in self.old))) }
    {
        match test {
            NameTest::Kind(_) => Ok(()),
            NameTest::Any | NameTest::Tag(_) => self.look(spot, separator),
        }
    }

    // Looks where attributes of that name are sought: `@id` is told by the label.
    fn look_for_attribute(&mut self, spot: Spot<'a>, separator: Separator, name: &str) -> Mem<()>
        requires stands { Stands self.old spot }
        ensures back { OnOk result (IsBack self.old self.new) }
        ensures looks { OnOk result (HasLooked self.old self.new (λ looks. attribute_looks (document_of self.old) looks separator (is_id name.now) (place_in self.old))) }
    {
        if is_id(name) {
            return Ok(());
        }
        self.look(spot, separator)
    }

    /// Whether each of these holds at the place in hand, one after another up to the first that does not.
    #[cycle(evaluating)]
    pub fn all_hold(&mut self, spot: Spot<'a>, predicates: &'a [Expression]) -> Mem<bool>
        requires stands { Stands self.old spot }
        ensures back { OnOk result (IsBack self.old self.new) }
        ensures looks { OnOk result (HasLooked self.old self.new (λ looks. all_look (document_of self.old) looks (all_conditions predicates.now) (place_in self.old))) }
        ensures value { IfOk result (λ all. all ≡ all_hold (document_of self.old) (all_conditions predicates.now) (place_in self.old)) }
    {
        for predicate in predicates {
            if !self.holds(spot, predicate)? {
                return Ok(false);
            }
        }
        Ok(true)
    }

    // What these tell; each is evaluated.
    #[cycle(evaluating)]
    fn tell(&mut self, spot: Spot<'a>, conditions: &'a [Expression]) -> Mem<Told>
        requires stands { Stands self.old spot }
        ensures back { OnOk result (IsBack self.old self.new) }
        ensures looks { OnOk result (HasLooked self.old self.new (λ looks. each_look (document_of self.old) looks (all_conditions conditions.now) (place_in self.old))) }
        ensures some { IfOk result (λ told. told.some ≡ any_holds (document_of self.old) (all_conditions conditions.now) (place_in self.old)) }
        ensures all { IfOk result (λ told. told.all ≡ all_hold (document_of self.old) (all_conditions conditions.now) (place_in self.old)) }
    {
        let mut told = Told {
            some: false,
            all: true,
        };
        for condition in conditions {
            if self.holds(spot, condition)? {
                told.some = true;
            } else {
                told.all = false;
            }
        }
        Ok(told)
    }

    #[cycle(evaluating)]
    fn holds(&mut self, spot: Spot<'a>, expression: &'a Expression) -> Mem<bool>
        requires stands { Stands self.old spot }
        ensures back { OnOk result (IsBack self.old self.new) }
        ensures looks { OnOk result (HasLooked self.old self.new (λ looks. condition_looks (document_of self.old) looks (condition_of expression.now) (place_in self.old))) }
        ensures value { IfOk result (λ so. so ≡ holds (document_of self.old) (condition_of expression.now) (place_in self.old)) }
    {
        match expression {
            Expression::Or(conditions) => Ok(self.tell(spot, conditions.as_slice())?.some),
            Expression::And(conditions) => Ok(self.tell(spot, conditions.as_slice())?.all),
            Expression::Not(condition) => Ok(!self.holds(spot, condition.get())?),
            Expression::Path(path) => {
                let found = self.ends(spot, path)?;
                Ok(!found.as_slice().is_empty())
            }
            Expression::Compare {
                left,
                comparison,
                right,
            } => {
                let left = self.values(spot, left)?;
                let right = self.values(spot, right)?;
                Ok(some_compare(*comparison, &left, &right))
            }
        }
    }

    #[cycle(evaluating)]
    fn values(&mut self, spot: Spot<'a>, operand: &'a Operand<Expression>) -> Mem<Vec<Value<'a>>>
        requires stands { Stands self.old spot }
        ensures back { OnOk result (IsBack self.old self.new) }
        ensures looks { OnOk result (HasLooked self.old self.new (λ looks. side_looks (document_of self.old) looks (operand_side operand.now) (place_in self.old))) }
        ensures value { IfOk result (λ all. HaveSame (map value_of all.items) (values (document_of self.old) (operand_side operand.now) (place_in self.old))) }
    {
        match operand {
            Operand::Path(path) => {
                let found = self.ends(spot, path)?;
                texts(self.alloc, found)
            }
            Operand::Literal(text) => one_value(self.alloc, Value::Text(text.as_str())),
            Operand::Number(number) => one_value(self.alloc, Value::Number(*number)),
        }
    }

    // What a path selects from the place in hand, each with its value if it has one.
    #[cycle(evaluating)]
    fn ends(&mut self, spot: Spot<'a>, path: &'a Path<Expression>) -> Mem<Vec<Option<&'a str>>>
        requires stands { Stands self.old spot }
        ensures back { OnOk result (IsBack self.old self.new) }
        ensures looks { OnOk result (HasLooked self.old self.new (λ looks. ends_look (document_of self.old) looks (steps_from path.now.parts path.now.attribute) (place_in self.old))) }
        ensures value { IfOk result (λ all. HaveSame (ends_of all.items) (ends (document_of self.old) (steps_from path.now.parts path.now.attribute) (place_in self.old))) }
    {
        let mut found = Vec::new(self.alloc);
        self.follow(spot, path.parts.as_slice(), &path.attribute, &mut found)?;
        Ok(found)
    }

    // Follows the further parts of a path.
    #[cycle(evaluating)]
    fn follow(
        &mut self,
        spot: Spot<'a>,
        parts: &'a [Part<Expression>],
        attribute: &'a Option<Attribute>,
        found: &mut Vec<Option<&'a str>>,
    ) -> Mem<()>
        requires stands { Stands self.old spot }
        ensures back { OnOk result (IsBack self.old self.new) }
        ensures looks { OnOk result (HasLooked self.old self.new (λ looks. ends_look (document_of self.old) looks (steps_from parts.now attribute.now) (place_in self.old))) }
        ensures value { OnOk result (HasMore (ends_of found.new.items) (ends_of found.old.items) (ends (document_of self.old) (steps_from parts.now attribute.now) (place_in self.old))) }
    {
        let Some((part, rest)) = parts.split_first() else {
            return self.end(spot, attribute, found);
        };
        match part {
            Part::Itself => self.follow(spot, rest, attribute, found),
            Part::Parent => {
                let Some(edge) = self.leave() else {
                    return Ok(());
                };
                if let Some(parent) = Spot::find(self.top, &self.trail) {
                    self.follow(parent, rest, attribute, found)?;
                }
                self.enter(edge)?;
                Ok(())
            }
            Part::Step(step) => {
                self.look_for(spot, step.separator, &step.test)?;
                self.go(spot, step, rest, attribute, found)
            }
        }
    }

    // Takes a step from the place in hand, and follows the further parts from each place to which it goes.
    #[cycle(evaluating)]
    fn go(
        &mut self,
        spot: Spot<'a>,
        step: &'a Step<Expression>,
        rest: &'a [Part<Expression>],
        attribute: &'a Option<Attribute>,
        found: &mut Vec<Option<&'a str>>,
    ) -> Mem<()>
        requires stands { Stands self.old spot }
        ensures back { OnOk result (IsBack self.old self.new) }
        ensures looks { OnOk result (HasLooked self.old self.new (λ looks. looks_on (document_of self.old) looks step.now rest.now attribute.now (place_in self.old))) }
        ensures value { OnOk result (HasMore (ends_of found.new.items) (ends_of found.old.items) (ends (document_of self.old) (step_on step.now rest.now attribute.now) (place_in self.old))) }
    {
        let children = spot.children(self.top);
        for at in 0..children.len() {
            let child = children.get(at);
            self.enter(child.edge)?;
            self.arrive(child.spot, step, rest, attribute, found)?;
            self.go_on(child.spot, step, rest, attribute, found)?;
            self.leave();
        }
        Ok(())
    }

    // Goes on with a step by `//` from a place to which it may have gone.
    #[cycle(evaluating)]
    fn go_on(
        &mut self,
        spot: Spot<'a>,
        step: &'a Step<Expression>,
        rest: &'a [Part<Expression>],
        attribute: &'a Option<Attribute>,
        found: &mut Vec<Option<&'a str>>,
    ) -> Mem<()>
        requires stands { Stands self.old spot }
        ensures back { OnOk result (IsBack self.old self.new) }
        ensures looks { OnOk result (HasLooked self.old self.new (λ looks. looks_deeper (document_of self.old) looks step.now rest.now attribute.now (place_in self.old))) }
        ensures value { OnOk result (HasMore (ends_of found.new.items) (ends_of found.old.items) (ends_deeper (document_of self.old) step.now rest.now attribute.now (place_in self.old))) }
    {
        match step.separator {
            Separator::Slash => Ok(()),
            Separator::DoubleSlash => self.go(spot, step, rest, attribute, found),
        }
    }

    // Follows the further parts from a place that a step reaches, where it fits the step.
    #[cycle(evaluating)]
    fn arrive(
        &mut self,
        spot: Spot<'a>,
        step: &'a Step<Expression>,
        rest: &'a [Part<Expression>],
        attribute: &'a Option<Attribute>,
        found: &mut Vec<Option<&'a str>>,
    ) -> Mem<()>
        requires stands { Stands self.old spot }
        ensures back { OnOk result (IsBack self.old self.new) }
        ensures looks { OnOk result (HasLooked self.old self.new (λ looks. looks_at (document_of self.old) looks step.now rest.now attribute.now (place_in self.old))) }
        ensures value { OnOk result (HasMore (ends_of found.new.items) (ends_of found.old.items) (ends_at (document_of self.old) step.now rest.now attribute.now (place_in self.old))) }
    {
        if !spot.passes(&step.test) || !self.all_hold(spot, step.predicates.as_slice())? {
            return Ok(());
        }
        self.follow(spot, rest, attribute, found)
    }

    // The end of a path: the place in hand, or attributes.
    fn end(
        &mut self,
        spot: Spot<'a>,
        attribute: &Option<Attribute>,
        found: &mut Vec<Option<&'a str>>,
    ) -> Mem<()>
        requires stands { Stands self.old spot }
        ensures back { OnOk result (IsBack self.old self.new) }
        ensures looks { OnOk result (HasLooked self.old self.new (λ looks. ends_look (document_of self.old) looks (end_of attribute.now) (place_in self.old))) }
        ensures value { OnOk result (HasMore (ends_of found.new.items) (ends_of found.old.items) (ends (document_of self.old) (end_of attribute.now) (place_in self.old))) }
    {
        let Some(attribute) = attribute else {
            found.push(spot.value())?;
            return Ok(());
        };
        let name = attribute.name.as_str();
        self.look_for_attribute(spot, attribute.separator, name)?;
        match attribute.separator {
            Separator::DoubleSlash => add_attributes(self.top, spot, name, found),
            Separator::Slash => add_attribute(spot, name, found),
        }
    }
}

// A list of one value.
fn one_value<'a>(alloc: Global, value: Value<'a>) -> Mem<Vec<Value<'a>>>
    ensures { IfOk result (λ all. all.items ≡ value.entry ∷ []) }
{
    let mut values = Vec::with_capacity(alloc, 1)?;
    values.push(value)?;
    Ok(values)
}

// The texts that ends of a path have.
fn texts<'a>(alloc: Global, found: Vec<Option<&'a str>>) -> Mem<Vec<Value<'a>>>
    ensures { IfOk result (λ all. map value_of all.items ≡ map of_text (filter_map (λ end. end) (ends_of found.entry.items))) }
{
    let mut values = Vec::new(alloc);
    for end in found {
        if let Some(text) = end {
            values.push(Value::Text(text))?;
        }
    }
    Ok(values)
}
