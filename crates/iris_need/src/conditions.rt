//! Predicates, evaluated at places over a view.
ghost use Rattle.std.specs.Prelude.{◌≡◌, ◌&&◌, ◌||◌, ◌∷◌, [], IfOk, OnOk, map, option_map};
ghost use Rattle.std.specs.List.{filter_map};
ghost use Rattle.iris_xpath.specs.Meaning.{of_text};
ghost use Rattle.iris_xpath.specs.Said.{all_conditions, operand_side};
ghost use Rattle.iris_xpath.specs.Syntax.{condition_of};
ghost use Rattle.iris_xpath.specs.Values.{value_of};
ghost use Rattle.iris_need.specs.Program.{all_hold, holds, any_holds, each_holds, ends, values};
ghost use Rattle.iris_need.specs.Run.{pair_value};
ghost use Rattle.iris_need.specs.Walk.{Adds, FindsEnds, spot_in, marks_of, given, trail_ends, ends_above, side_values, some_compare};

use crate::further::{Further, Trail};
use crate::looks::Marks;
use crate::needs::Needs;
use crate::spot::Spot;
use crate::walk::Walk;
use iris_tree::{Mem, Name, Text};
use iris_xpath::{Comparison, Expression, Operand, Part, Value, some_compare};
use std::alloc::Global;

// Whether one of two holds, where both are decided.
fn either(left: Option<bool>, right: Option<bool>) -> Option<bool>
    ensures { result ≡ pair_value (λ a b. a || b) left right }
{
    match (left, right) {
        (Some(left), Some(right)) => Some(left || right),
        _ => None,
    }
}

// Whether both of two hold, where both are decided.
fn both(left: Option<bool>, right: Option<bool>) -> Option<bool>
    ensures { result ≡ pair_value (λ a b. a && b) left right }
{
    match (left, right) {
        (Some(left), Some(right)) => Some(left && right),
        _ => None,
    }
}

// The texts that ends of a path have.
fn texts<'v>(alloc: Global, ends: &'v [Option<Text>]) -> Mem<Vec<Value<'v>>>
    ensures { IfOk result (λ all. map value_of all.items ≡ map of_text (filter_map (λ end. end) ends.now)) }
{
    let mut values = Vec::new(alloc);
    for end in ends {
        let Some(text) = end else {
            continue;
        };
        values.push(Value::Text(text.as_str()))?;
    }
    Ok(values)
}

// A list of one value.
fn one_value<'v>(alloc: Global, value: Value<'v>) -> Mem<Vec<Value<'v>>>
    ensures { IfOk result (λ all. all.items ≡ value.entry ∷ []) }
{
    let mut values = Vec::with_capacity(alloc, 1)?;
    values.push(value)?;
    Ok(values)
}

// The values of a side of a comparison; of a path those of its ends.
fn values_of<'v>(
    alloc: Global,
    operand: &'v Operand<Expression>,
    ends: &'v [Option<Text>],
) -> Mem<Vec<Value<'v>>>
    ensures { IfOk result (λ all. map value_of all.items ≡ side_values (operand_side operand.now) ends.now) }
{
    match operand {
        Operand::Path(_) => texts(alloc, ends),
        Operand::Literal(text) => one_value(alloc, Value::Text(text.as_str())),
        Operand::Number(number) => one_value(alloc, Value::Number(*number)),
    }
}

impl<'a> Walk<'a> {
    /// Whether all predicates hold at a place, one after another up to the first that is false or that the
    /// view doesn't tell.
    #[cycle(evaluating)]
    pub(crate) fn all_hold(
        &self,
        marks: &Marks,
        predicates: &[Expression],
        spot: &Spot,
        name: &mut Name,
        needs: &mut Needs,
    ) -> Mem<Option<bool>>
        ensures name { OnOk result (name.new ≡ name.old) }
        ensures adds { OnOk result (Adds self.now needs.old needs.new (all_hold self.now.top (marks_of marks.now) (all_conditions predicates.now) (spot_in name.old spot.now))) }
        ensures gives { IfOk result (λ so. so ≡ given self.now (all_hold self.now.top (marks_of marks.now) (all_conditions predicates.now) (spot_in name.old spot.now))) }
    {
        let Some((first, rest)) = predicates.split_first() else {
            return Ok(Some(true));
        };
        match self.holds(marks, first, spot, name, needs)? {
            Some(true) => self.all_hold(marks, rest, spot, name, needs),
            Some(false) => Ok(Some(false)),
            None => Ok(None),
        }
    }

    #[cycle(evaluating)]
    fn holds(
        &self,
        marks: &Marks,
        expression: &Expression,
        spot: &Spot,
        name: &mut Name,
        needs: &mut Needs,
    ) -> Mem<Option<bool>>
        ensures name { OnOk result (name.new ≡ name.old) }
        ensures adds { OnOk result (Adds self.now needs.old needs.new (holds self.now.top (marks_of marks.now) (condition_of expression.now) (spot_in name.old spot.now))) }
        ensures gives { IfOk result (λ so. so ≡ given self.now (holds self.now.top (marks_of marks.now) (condition_of expression.now) (spot_in name.old spot.now))) }
    {
        match expression {
            Expression::Or(conditions) => {
                self.any_holds(marks, conditions.as_slice(), spot, name, needs)
            }
            Expression::And(conditions) => {
                self.each_holds(marks, conditions.as_slice(), spot, name, needs)
            }
            Expression::Not(condition) => {
                match self.holds(marks, condition.get(), spot, name, needs)? {
                    Some(holds) => Ok(Some(!holds)),
                    None => Ok(None),
                }
            }
            Expression::Path(path) => {
                let trail = Trail {
                    parts: path.parts.as_slice(),
                    attribute: &path.attribute,
                    marks: *marks,
                };
                match self.ends(&trail, spot, name, needs)? {
                    Some(ends) => Ok(Some(!ends.as_slice().is_empty())),
                    None => Ok(None),
                }
            }
            Expression::Compare {
                left,
                comparison,
                right,
            } => {
                let left_ends = self.side(marks, left, spot, name, needs)?;
                let right_ends = self.side(marks, right, spot, name, needs)?;
                self.compare(*comparison, left, right, &left_ends, &right_ends)
            }
        }
    }

    // Whether a value of the one side and one of the other compare so, where both sides are decided.
    fn compare(
        &self,
        comparison: Comparison,
        left: &Operand<Expression>,
        right: &Operand<Expression>,
        left_ends: &Option<Vec<Option<Text>>>,
        right_ends: &Option<Vec<Option<Text>>>,
    ) -> Mem<Option<bool>>
        ensures { IfOk result (λ so. so ≡ pair_value (some_compare comparison) (option_map (λ e. side_values (operand_side left.now) e.items) left_ends.now) (option_map (λ e. side_values (operand_side right.now) e.items) right_ends.now)) }
    {
        let (Some(left_ends), Some(right_ends)) = (left_ends, right_ends) else {
            return Ok(None);
        };
        let left = values_of(self.alloc, left, left_ends.as_slice())?;
        let right = values_of(self.alloc, right, right_ends.as_slice())?;
        Ok(Some(some_compare(comparison, &left, &right)))
    }

    // Whether one of these holds; each is evaluated.
    #[cycle(evaluating)]
    fn any_holds(
        &self,
        marks: &Marks,
        conditions: &[Expression],
        spot: &Spot,
        name: &mut Name,
        needs: &mut Needs,
    ) -> Mem<Option<bool>>
        ensures name { OnOk result (name.new ≡ name.old) }
        ensures adds { OnOk result (Adds self.now needs.old needs.new (any_holds self.now.top (marks_of marks.now) (all_conditions conditions.now) (spot_in name.old spot.now))) }
        ensures gives { IfOk result (λ so. so ≡ given self.now (any_holds self.now.top (marks_of marks.now) (all_conditions conditions.now) (spot_in name.old spot.now))) }
    {
        let Some((first, rest)) = conditions.split_first() else {
            return Ok(Some(false));
        };
        let here = self.holds(marks, first, spot, name, needs)?;
        let further = self.any_holds(marks, rest, spot, name, needs)?;
        Ok(either(here, further))
    }

    // Whether each of these holds; each is evaluated.
    #[cycle(evaluating)]
    fn each_holds(
        &self,
        marks: &Marks,
        conditions: &[Expression],
        spot: &Spot,
        name: &mut Name,
        needs: &mut Needs,
    ) -> Mem<Option<bool>>
        ensures name { OnOk result (name.new ≡ name.old) }
        ensures adds { OnOk result (Adds self.now needs.old needs.new (each_holds self.now.top (marks_of marks.now) (all_conditions conditions.now) (spot_in name.old spot.now))) }
        ensures gives { IfOk result (λ so. so ≡ given self.now (each_holds self.now.top (marks_of marks.now) (all_conditions conditions.now) (spot_in name.old spot.now))) }
    {
        let Some((first, rest)) = conditions.split_first() else {
            return Ok(Some(true));
        };
        let here = self.holds(marks, first, spot, name, needs)?;
        let further = self.each_holds(marks, rest, spot, name, needs)?;
        Ok(both(here, further))
    }

    // The ends of a side of a comparison, where it is a path; else none.
    #[cycle(evaluating)]
    fn side(
        &self,
        marks: &Marks,
        operand: &Operand<Expression>,
        spot: &Spot,
        name: &mut Name,
        needs: &mut Needs,
    ) -> Mem<Option<Vec<Option<Text>>>>
        ensures name { OnOk result (name.new ≡ name.old) }
        ensures adds { OnOk result (Adds self.now needs.old needs.new (values self.now.top (marks_of marks.now) (operand_side operand.now) (spot_in name.old spot.now))) }
        ensures gives { IfOk result (λ ends. option_map (λ e. side_values (operand_side operand.now) e.items) ends ≡ given self.now (values self.now.top (marks_of marks.now) (operand_side operand.now) (spot_in name.old spot.now))) }
    {
        match operand {
            Operand::Path(path) => {
                let trail = Trail {
                    parts: path.parts.as_slice(),
                    attribute: &path.attribute,
                    marks: *marks,
                };
                self.ends(&trail, spot, name, needs)
            }
            Operand::Literal(_) => Ok(Some(Vec::new(self.alloc))),
            Operand::Number(_) => Ok(Some(Vec::new(self.alloc))),
        }
    }

    // What a path selects from a place, each with its value if it has one.
    #[cycle(evaluating)]
    fn ends(
        &self,
        trail: &Trail,
        spot: &Spot,
        name: &mut Name,
        needs: &mut Needs,
    ) -> Mem<Option<Vec<Option<Text>>>>
        ensures name { OnOk result (name.new ≡ name.old) }
        ensures adds { OnOk result (Adds self.now needs.old needs.new (trail_ends self.now trail.now (spot_in name.old spot.now))) }
        ensures gives { IfOk result (λ ends. option_map (λ e. e.items) ends ≡ given self.now (trail_ends self.now trail.now (spot_in name.old spot.now))) }
    {
        let mut ends = Vec::new(self.alloc);
        if self.follow(trail, spot, name, needs, &mut ends)? {
            Ok(Some(ends))
        } else {
            Ok(None)
        }
    }

    /// Follows the further parts of a path, and adds its ends. Whether the view tells them all.
    #[cycle(evaluating)]
    pub(crate) fn follow(
        &self,
        trail: &Trail,
        spot: &Spot,
        name: &mut Name,
        needs: &mut Needs,
        ends: &mut Vec<Option<Text>>,
    ) -> Mem<bool>
        ensures name { OnOk result (name.new ≡ name.old) }
        ensures adds { OnOk result (Adds self.now needs.old needs.new (trail_ends self.now trail.now (spot_in name.old spot.now))) }
        ensures gives { IfOk result (λ told. FindsEnds told ends.old.items ends.new.items (given self.now (trail_ends self.now trail.now (spot_in name.old spot.now)))) }
    {
        let Some((part, rest)) = trail.parts.split_first() else {
            return self.end(trail, spot, name, needs, ends);
        };
        let further = Trail {
            parts: rest,
            attribute: trail.attribute,
            marks: trail.marks,
        };
        match part {
            Part::Itself => self.follow(&further, spot, name, needs, ends),
            Part::Parent => self.follow_above(&further, spot, name, needs, ends),
            Part::Step(step) => {
                let further = Further::Path(step, further);
                self.reach(&further, &trail.marks, spot, name, needs, ends)
            }
        }
    }

    // Follows the further parts of a path from the place right above.
    #[cycle(evaluating)]
    fn follow_above(
        &self,
        trail: &Trail,
        spot: &Spot,
        name: &mut Name,
        needs: &mut Needs,
        ends: &mut Vec<Option<Text>>,
    ) -> Mem<bool>
        ensures name { OnOk result (name.new ≡ name.old) }
        ensures adds { OnOk result (Adds self.now needs.old needs.new (ends_above self.now trail.now (spot_in name.old spot.now))) }
        ensures gives { IfOk result (λ told. FindsEnds told ends.old.items ends.new.items (given self.now (ends_above self.now trail.now (spot_in name.old spot.now)))) }
    {
        match spot {
            Spot::Document => Ok(true),
            Spot::Node(_) => {
                let Some(label) = name.pop() else {
                    return Ok(true);
                };
                let above = Spot::of(name);
                let told = self.follow(trail, &above, name, needs, ends)?;
                name.push(label)?;
                Ok(told)
            }
            Spot::Element(local, path) => {
                let above = Spot::above(local, path, name);
                self.follow(trail, &above, name, needs, ends)
            }
        }
    }
}
