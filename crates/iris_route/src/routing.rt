//! The routes of queries.
ghost use Rattle.std.specs.Prelude.{◌≡◌, List, IfOk};
ghost use Rattle.iris_base.specs.declared.name.Label.{Label};
ghost use Rattle.iris_xpath.specs.Anchor.{LcaName};
ghost use Rattle.iris_route.specs.Routes.{nearest_name};

use crate::registry::Registry;
use iris_tree::{Label, Mem, Name};
use iris_xpath::{Query, lca_name};
use std::alloc::{AllocError, Global};

/// The name of the node at which the evaluation of a query begins: the longest prefix of its `lca_name`
/// that is a node's name, and the top node's name where there is none.
pub fn route(alloc: Global, query: &Query, registry: &Registry) -> Mem<Name>
    ensures { IfOk result (λ route. (name : List Label) × LcaName query.now name × (route ≡ nearest_name registry.now name)) }
{
    let name = lca_name(alloc, query)?;
    nearest_name(alloc, registry, name.as_slice())
}

fn nearest_name(alloc: Global, registry: &Registry, name: &[Label]) -> Mem<Name>
    ensures { IfOk result (λ nearest. nearest ≡ nearest_name registry.now name.now) }
{
    let len = registry.longest_prefix(name);
    let labels = if len == 0 {
        registry.top()
    } else {
        &name[..len]
    };
    Ok(Name::from_vec(Vec::from_slice(alloc, labels)?))
}
