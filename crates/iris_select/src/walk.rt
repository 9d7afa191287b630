//! The walk along the main path of a query.
ghost use Rattle.std.specs.Prelude.{◌≡◌, ◌&&◌, ◌++◌, ◌∷◌, [], false, Some, None, map, option_map, IfOk, OnOk, IfSome};
ghost use Rattle.std.specs.List.{list_any, filter_map};
ghost use Rattle.iris_tree.specs.Universe.{IsOrdered};
ghost use Rattle.iris_tree.specs.Document.{part_at_place};
ghost use Rattle.iris_tree.specs.Items.{items_at};
ghost use Rattle.iris_xpath.specs.Syntax.{main_of};
ghost use Rattle.iris_xpath.specs.Meaning.{passes, fits, selected};
ghost use Rattle.iris_xpath.specs.Looks.{extent_of, looks_from, all_look, whole_looks, full_names};
ghost use Rattle.iris_xpath.specs.Said.{all_conditions};
ghost use Rattle.iris_select.specs.Evaluating.{document_of, place_in, Stands, IsBack};
ghost use Rattle.iris_select.specs.Marks.{HasLooked};
ghost use Rattle.iris_select.specs.Parts.{child, edge_of, part_of, part_below, place_at};
ghost use Rattle.iris_select.specs.Places.{edges_of};
ghost use Rattle.iris_select.specs.Selected.{Adds, places_selected, selected_item};
ghost use Rattle.iris_select.specs.Looking.{path_looks_at, looks_found_at, looks_found_below, IsOnlyLook, AreOnlyLooks};
ghost use Rattle.iris_select.specs.Walking.{further, ends_here, found_here, found_at, found_below, main_steps, taken, IsOnlyLabel, IsOnlyChild, labels_in, positions_in};

use crate::evaluator::Evaluator;
use crate::marks::Marks;
use crate::place::Place;
use crate::spot::{Edge, Spot};
use iris_tree::{Id, Label, Mem, Memory, Name, Sequence, Tree, is_id};
use iris_xpath::{Expression, Query, Separator, Step};
use std::alloc::Global;

// A selected place, and what stands there.
#[derive(Drop)]
pub struct Selected<'a> {
    pub place: Place,
    pub spot: Spot<'a>,
}

// What a walk found.
#[derive(Drop)]
pub struct Found<'a> {
    // In the order of places.
    pub selected: Vec<Selected<'a>>,
    // The names of the nodes that were looked into, as those of an `Evaluation`.
    pub full: Vec<Name>,
}

#[derive(Drop)]
struct Walker<'a> {
    evaluator: Evaluator<'a>,
    steps: &'a [Step<Expression>],
    selected: Vec<Selected<'a>>,
}

// The label of the nodes at which the step may be taken. There is one where the first predicate is
// `@id='..'` and its text is an id.
fn only_label(step: &Step<Expression>) -> Option<Label>
    ensures fits { IfSome result (λ label. IsOnlyLabel (main_of step.now) label) }
    ensures looks { IfSome result (λ label. IsOnlyLook (main_of step.now) label) }
{
    let kind = step.kind()?;
    let (name, value) = step.predicates.as_slice().first()?.as_equality()?;
    if !is_id(name) {
        return None;
    }
    match Id::new(value) {
        Ok(id) => Some(Label { kind: *kind, id }),
        Err(_) => None,
    }
}

// The one step that is pending, if there is just one.
fn only_step<'a>(steps: &'a [Step<Expression>], pending: &[bool]) -> Option<&'a Step<Expression>>
    ensures { IfSome result (λ step. taken (main_steps steps.now) pending.now ≡ main_of step.now ∷ []) }
{
    let mut only = None;
    for (step, is_pending) in steps.iter().zip(pending.iter()) {
        if *is_pending {
            if only.is_some() {
                return None;
            }
            only = Some(step);
        }
    }
    only
}

// Whether a step is pending.
fn some_pending(pending: &[bool]) -> bool
    ensures { result ≡ list_any (λ is_pending. is_pending) pending.now }
{
    pending.iter().any(|is_pending| *is_pending)
}

// The place at the end of edges from the document.
fn place_of(alloc: Global, trail: &[Edge]) -> Mem<Place>
    ensures name { IfOk result (λ place. place.name ≡ labels_in (place_at trail.now)) }
    ensures path { IfOk result (λ place. place.path ≡ positions_in (place_at trail.now)) }
{
    let mut name = Name::document(alloc);
    let mut path = Sequence::new(alloc);
    for edge in trail {
        match edge {
            Edge::Node { node, .. } => name.push(*node.label())?,
            Edge::Position(at) => {
                let Ok(position) = u32::try_from(*at) else {
                    return Err(Memory);
                };
                path.push(position)?;
            }
        }
    }
    Ok(Place { name, path })
}

// Looks where a step looks that begins at the place in hand.
fn look_from<'a>(
    evaluator: &mut Evaluator<'a>,
    spot: Spot<'a>,
    step: &'a Step<Expression>,
    is_begin: bool,
) -> Mem<()>
    requires stands { Stands evaluator.old spot }
    ensures back { OnOk result (IsBack evaluator.old evaluator.new) }
    ensures looks { OnOk result (HasLooked evaluator.old evaluator.new (λ looks. is_begin && looks_from (document_of evaluator.old) looks step.now.separator (extent_of step.now.test) (place_in evaluator.old))) }
{
    if !is_begin {
        return Ok(());
    }
    evaluator.look_for(spot, step.separator, &step.test)
}

// Looks into what is selected, and into all below it.
fn look_below<'a>(evaluator: &mut Evaluator<'a>, spot: Spot<'a>, is_selected: bool) -> Mem<()>
    requires stands { Stands evaluator.old spot }
    ensures back { OnOk result (IsBack evaluator.old evaluator.new) }
    ensures looks { OnOk result (HasLooked evaluator.old evaluator.new (λ looks. is_selected && whole_looks (document_of evaluator.old) looks (place_in evaluator.old))) }
{
    if !is_selected {
        return Ok(());
    }
    match spot {
        Spot::Document => Ok(()),
        Spot::Node(_) | Spot::Plain(_) => evaluator.look(spot, Separator::DoubleSlash),
    }
}

// Whether a step goes to the place in hand, if it is pending.
fn goes_to<'a>(
    evaluator: &mut Evaluator<'a>,
    spot: Spot<'a>,
    step: &'a Step<Expression>,
    is_pending: bool,
) -> Mem<bool>
    requires stands { Stands evaluator.old spot }
    ensures back { OnOk result (IsBack evaluator.old evaluator.new) }
    ensures looks { OnOk result (HasLooked evaluator.old evaluator.new (λ looks. is_pending && (passes (part_at_place (document_of evaluator.old) (place_in evaluator.old)) step.now.test && all_look (document_of evaluator.old) looks (all_conditions step.now.predicates) (place_in evaluator.old)))) }
    ensures value { IfOk result (λ goes. goes ≡ (is_pending && fits (document_of evaluator.old) (main_of step.now) (place_in evaluator.old))) }
{
    if !is_pending || !spot.passes(&step.test) {
        return Ok(false);
    }
    evaluator.all_hold(spot, step.predicates.as_slice())
}

impl<'a> Walker<'a> {
    // Takes the pending steps to the place in hand, and tells which are pending for the places right below.
    // The path is at the place already where this is its begin.
    fn take(&mut self, spot: Spot<'a>, pending: &[bool], is_begin: bool) -> Mem<Vec<bool>>
        requires stands { Stands self.old.evaluator spot }
        ensures steps { OnOk result (self.new.steps ≡ self.old.steps) }
        ensures back { OnOk result (IsBack self.old.evaluator self.new.evaluator) }
        ensures further { IfOk result (λ more. more.items ≡ further (document_of self.old.evaluator) (place_in self.old.evaluator) is_begin (main_steps self.old.steps.now) pending.now) }
        ensures found { OnOk result (Adds (document_of self.old.evaluator) self.old.selected.items self.new.selected.items (found_here (ends_here (document_of self.old.evaluator) (place_in self.old.evaluator) is_begin (main_steps self.old.steps.now) pending.now) (place_in self.old.evaluator))) }
        ensures looks { OnOk result (HasLooked self.old.evaluator self.new.evaluator (λ looks. path_looks_at (document_of self.old.evaluator) looks (place_in self.old.evaluator) is_begin (main_steps self.old.steps.now) pending.now)) }
    {
        let mut further = Vec::with_capacity(self.evaluator.alloc, self.steps.len())?;
        let mut is_here = is_begin;
        let steps = self.steps;
        for (step, is_pending) in steps.iter().zip(pending.iter()) {
            look_from(&mut self.evaluator, spot, step, is_here)?;
            further.push(is_here || *is_pending && step.separator == Separator::DoubleSlash)?;
            is_here = goes_to(&mut self.evaluator, spot, step, *is_pending)?;
        }
        look_below(&mut self.evaluator, spot, is_here)?;
        if is_here {
            self.selected.push(Selected {
                place: place_of(self.evaluator.alloc, &self.evaluator.trail)?,
                spot,
            })?;
        }
        Ok(further)
    }

    // Goes on with the pending steps at the places right below the one in hand.
    #[cycle(walking)]
    fn descend(&mut self, spot: Spot<'a>, pending: &[bool]) -> Mem<()>
        requires stands { Stands self.old.evaluator spot }
        ensures steps { OnOk result (self.new.steps ≡ self.old.steps) }
        ensures back { OnOk result (IsBack self.old.evaluator self.new.evaluator) }
        ensures found { OnOk result (Adds (document_of self.old.evaluator) self.old.selected.items self.new.selected.items (found_below (document_of self.old.evaluator) (main_steps self.old.steps.now) pending.now (place_in self.old.evaluator) (part_of spot.entry))) }
        ensures looks { OnOk result (HasLooked self.old.evaluator self.new.evaluator (λ looks. looks_found_below (document_of self.old.evaluator) looks (main_steps self.old.steps.now) pending.now (place_in self.old.evaluator) (part_of spot.entry))) }
    {
        if !some_pending(pending) {
            return Ok(());
        }
        if let Some(label) = self.only_child(pending) {
            return match spot.node_child(self.evaluator.top, &label) {
                Some(child) => self.visit(child.edge, child.spot, pending),
                None => Ok(()),
            };
        }
        let children = spot.children(self.evaluator.top);
        for at in 0..children.len() {
            let child = children.get(at);
            self.visit(child.edge, child.spot, pending)?;
        }
        Ok(())
    }

    // Goes on with the pending steps at a place right below the one in hand.
    #[cycle(walking)]
    fn visit(&mut self, edge: Edge<'a>, spot: Spot<'a>, pending: &[bool]) -> Mem<()>
        requires ordered { IsOrdered (document_of self.old.evaluator) }
        requires there { part_at_place (document_of self.old.evaluator) (place_in self.old.evaluator ++ edge_of edge ∷ []) ≡ Some (part_of spot) }
        ensures steps { OnOk result (self.new.steps ≡ self.old.steps) }
        ensures back { OnOk result (IsBack self.old.evaluator self.new.evaluator) }
        ensures found { OnOk result (Adds (document_of self.old.evaluator) self.old.selected.items self.new.selected.items (found_at (document_of self.old.evaluator) (main_steps self.old.steps.now) pending.now (place_in self.old.evaluator) (child (edge_of edge.entry) (part_of spot.entry)))) }
        ensures looks { OnOk result (HasLooked self.old.evaluator self.new.evaluator (λ looks. looks_found_at (document_of self.old.evaluator) looks (main_steps self.old.steps.now) pending.now (place_in self.old.evaluator) (child (edge_of edge.entry) (part_of spot.entry)))) }
    {
        self.evaluator.enter(edge)?;
        let further = self.take(spot, pending, false)?;
        self.descend(spot, &further)?;
        self.evaluator.leave();
        Ok(())
    }

    // The label of the one node right below to which a step may be taken, where the pending steps tell it.
    fn only_child(&self, pending: &[bool]) -> Option<Label>
        ensures steps { IfSome result (λ label. IsOnlyChild (main_steps self.now.steps.now) pending.now label) }
        ensures looks { IfSome result (λ label. AreOnlyLooks (main_steps self.now.steps.now) pending.now label) }
    {
        let step = only_step(self.steps, pending)?;
        match step.separator {
            Separator::Slash => only_label(step),
            Separator::DoubleSlash => None,
        }
    }
}

// What a query selects and looks at, in one walk from the document on.
pub fn walk<'a>(alloc: Global, tree: &'a Tree, query: &'a Query) -> Mem<Found<'a>>
    ensures ordered { OnOk result (IsOrdered tree.now) }
    ensures places { IfOk result (λ found. places_selected found.selected.items ≡ selected tree.now query.now) }
    ensures items { IfOk result (λ found. filter_map selected_item found.selected.items ≡ items_at tree.now (selected tree.now query.now)) }
    ensures full { IfOk result (λ found. found.full.items ≡ full_names tree.now query.now) }
{
    let steps = query.steps();
    // What it ensures of the order of siblings is what the meaning rests on.
    let _ordered = tree.children();
    let mut walker = Walker {
        evaluator: Evaluator {
            alloc,
            top: tree,
            trail: Vec::new(alloc),
            marks: Marks::new(alloc),
        },
        steps,
        selected: Vec::new(alloc),
    };
    let mut none = Vec::with_capacity(alloc, steps.len())?;
    for _ in steps {
        none.push(false)?;
    }
    let pending = walker.take(Spot::Document, &none, true)?;
    walker.descend(Spot::Document, &pending)?;
    Ok(Found {
        full: walker.evaluator.marks.names(alloc, tree)?,
        selected: walker.selected,
    })
}
