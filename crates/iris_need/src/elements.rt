//! The plain elements of a node.
ghost use Rattle.std.specs.Prelude.{◌≡◌, ◌++◌, ◌&&◌, ◌∷◌, [], IfOk, OnOk, map, filter, Some, option_map};
ghost use Rattle.iris_tree.specs.Document.{a_plain, below_plain, numbered, plain_places};
ghost use Rattle.iris_xpath.specs.Meaning.{is_reached, passes, value_of};
ghost use Rattle.iris_xpath.specs.Places.{is_above, is_parent, element_at, element_paths};
ghost use Rattle.iris_need.specs.Program.{step_elements, element_ends};
ghost use Rattle.iris_need.specs.Walk.{path_of, paths_of};

use iris_tree::{Local, Mem, Plain, Sequence, Text};
use iris_xpath::{Expression, NameTest, Separator, Step};
use std::alloc::Global;

// A path and one position more.
fn extended(alloc: Global, above: &[usize], at: usize) -> Mem<Vec<usize>>
    ensures { IfOk result (λ path. path.items ≡ above.now ++ at ∷ []) }
{
    let mut path = Vec::from_slice(alloc, above)?;
    path.push(at)?;
    Ok(path)
}

// Adds the paths to siblings right below a path and to all below them.
fn add_paths(
    alloc: Global,
    siblings: &[Plain],
    above: &[usize],
    paths: &mut Vec<Sequence<usize>>,
) -> Mem<()>
    ensures { OnOk result (paths_of paths.new.items ≡ paths_of paths.old.items ++ map (λ path. path_of above.now ++ path) (numbered 0 (map plain_places siblings.now))) }
{
    for (at, element) in siblings.iter().enumerate() {
        let path = extended(alloc, above, at)?;
        paths.push(Sequence::from_vec(extended(alloc, above, at)?))?;
        add_paths(alloc, element.kids.as_slice(), path.as_slice(), paths)?;
    }
    Ok(())
}

/// The paths to all plain elements, in place order.
pub(crate) fn element_paths(alloc: Global, local: &Local) -> Mem<Vec<Sequence<usize>>>
    ensures { IfOk result (λ paths. paths_of paths.items ≡ element_paths local.now) }
{
    let mut paths = Vec::new(alloc);
    add_paths(alloc, local.plain.as_slice(), &[], &mut paths)?;
    Ok(paths)
}

// The plain element at the end of a path from another one.
fn below<'p>(element: &'p Plain, path: &[usize]) -> Option<&'p Plain>
    ensures { option_map (λ p. a_plain p.now) result ≡ below_plain element.now (path_of path.now) }
{
    let Some((at, rest)) = path.split_first() else {
        return Some(element);
    };
    let kid = element.kids.as_slice().get(*at)?;
    below(kid, rest)
}

// The plain element at the end of a path from the node.
fn element_at<'p>(local: &'p Local, path: &[usize]) -> Option<&'p Plain>
    ensures { option_map (λ p. a_plain p.now) result ≡ element_at local.now (path_of path.now) }
{
    let (at, rest) = path.split_first()?;
    let element = local.plain.as_slice().get(*at)?;
    below(element, rest)
}

// Whether a step with that test goes to it.
fn passes(element: &Plain, test: &NameTest) -> bool
    ensures { result ≡ passes (Some (a_plain element.now)) test.now }
{
    match test {
        NameTest::Any => true,
        NameTest::Kind(_) => false,
        NameTest::Tag(tag) => element.tag.as_str() == tag.as_str(),
    }
}

// Whether a path, or the node, is right above another path.
fn is_parent(above: &[usize], path: &[usize]) -> bool
    ensures { result ≡ is_parent (path_of above.now) (path_of path.now) }
{
    let Some((first, rest)) = path.split_first() else {
        return false;
    };
    match above.split_first() {
        None => rest.is_empty(),
        Some((at, above)) => *at == *first && is_parent(above, rest),
    }
}

// Whether a path is another, or above it. The node is above all.
fn is_above(above: &[usize], path: &[usize]) -> bool
    ensures { result ≡ is_above (path_of above.now) (path_of path.now) }
{
    path.starts_with(above)
}

// Whether a step with that separator goes from one path, or from the node, to the other.
fn is_reached(separator: Separator, above: &[usize], path: &[usize]) -> bool
    ensures { result ≡ is_reached separator (path_of above.now) (path_of path.now) }
{
    match separator {
        Separator::Slash => is_parent(above, path),
        Separator::DoubleSlash => is_above(above, path) && *above != *path,
    }
}

// Whether a step goes from a plain element, or from the node, to another element.
fn goes_to(step: &Step<Expression>, local: &Local, above: &[usize], path: &[usize]) -> bool
    ensures { result ≡ (is_reached step.now.separator (path_of above.now) (path_of path.now) && passes (element_at local.now (path_of path.now)) step.now.test) }
{
    if !is_reached(step.separator, above, path) {
        return false;
    }
    match element_at(local, path) {
        Some(element) => passes(element, &step.test),
        None => false,
    }
}

// Adds a path, where a step goes to the element at its end.
fn add_reached(
    step: &Step<Expression>,
    local: &Local,
    above: &[usize],
    path: Sequence<usize>,
    reached: &mut Vec<Sequence<usize>>,
) -> Mem<()>
    ensures { OnOk result (paths_of reached.new.items ≡ paths_of reached.old.items ++ filter (λ p. is_reached step.now.separator (path_of above.now) p && passes (element_at local.now p) step.now.test) (path_of path ∷ [])) }
{
    if !goes_to(step, local, above, path.as_slice()) {
        return Ok(());
    }
    reached.push(path)?;
    Ok(())
}

/// The paths to those to which a step goes from a plain element, or from the node, in place order.
pub(crate) fn step_paths(
    alloc: Global,
    step: &Step<Expression>,
    local: &Local,
    above: &[usize],
) -> Mem<Vec<Sequence<usize>>>
    ensures { IfOk result (λ paths. paths_of paths.items ≡ step_elements step.now.separator step.now.test local.now (path_of above.now)) }
{
    let mut reached = Vec::new(alloc);
    for path in element_paths(alloc, local)? {
        add_reached(step, local, above, path, &mut reached)?;
    }
    Ok(reached)
}

/// The value of the element at the end of a path: its text, if it has no kids.
pub(crate) fn value_at(local: &Local, path: &[usize]) -> Mem<Option<Text>>
    ensures { IfOk result (λ value. value ≡ value_of (element_at local.now (path_of path.now))) }
{
    match element_at(local, path) {
        Some(element) if element.kids.is_empty() => Ok(Some(element.text.copy()?)),
        _ => Ok(None),
    }
}

/// Adds the value of an attribute of the element at the end of a path, if it has one.
pub(crate) fn add_attribute(
    alloc: Global,
    local: &Local,
    path: &[usize],
    attribute: &str,
    ends: &mut Vec<Option<Text>>,
) -> Mem<()>
    ensures { OnOk result (ends.new.items ≡ ends.old.items ++ element_ends attribute.now local.now (path_of path.now ∷ [])) }
{
    let Some(element) = element_at(local, path) else {
        return Ok(());
    };
    if let Some(value) = element.attrs.get(attribute) {
        ends.push(Some(Text::of(alloc, value)?))?;
    }
    Ok(())
}

/// Adds the values of an attribute of all plain elements at and below one, or of the node.
pub(crate) fn add_attributes_below(
    alloc: Global,
    local: &Local,
    above: &[usize],
    attribute: &str,
    ends: &mut Vec<Option<Text>>,
) -> Mem<()>
    ensures { OnOk result (ends.new.items ≡ ends.old.items ++ element_ends attribute.now local.now (filter (is_above (path_of above.now)) (element_paths local.now))) }
{
    let paths = element_paths(alloc, local)?;
    for path in &paths {
        if !is_above(above, path.as_slice()) {
            continue;
        }
        add_attribute(alloc, local, path.as_slice(), attribute, ends)?;
    }
    Ok(())
}
