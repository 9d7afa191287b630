//! The one name that no attribute has.
ghost use Rattle.std.specs.Prelude.{◌≡◌};
ghost use Rattle.iris_base.specs.Attribute.{is_id};

/// Whether it is `id`. Queries tell a node's id by that name, and no attribute has it.
pub fn is_id(name: &str) -> bool
    ensures { result ≡ is_id name.now }
{
    name == "id"
}
