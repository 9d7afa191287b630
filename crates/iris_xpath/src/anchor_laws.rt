//! What is so of the anchored steps of a query, in every document.
ghost use Rattle.std.specs.Prelude.{List};
ghost use Rattle.std.specs.List.{All};
ghost use Rattle.iris_base.specs.declared.name.Label.{Label};
ghost use Rattle.iris_base.specs.Under.{Under};
ghost use Rattle.iris_tree.specs.Universe.{Node};
ghost use Rattle.iris_tree.specs.Document.{name_of};
ghost use Rattle.iris_xpath.specs.Syntax.{Syntax};
ghost use Rattle.iris_xpath.specs.Anchor.{LcaName};
ghost use Rattle.iris_xpath.specs.Meaning.{selected};

/// Each place that a query selects lies at or below the node at `lca_name`, and so at or below each node
/// above that one: its labels begin with those of the anchored steps. This call does nothing.
pub fn selected_lies_under_lca_name()
    ensures name { (document : Node) (query : Syntax) (name : List Label)
        → LcaName query name
        → All (λ place. Under (name_of place) name) (selected document query) }
    ensures above { (document : Node) (query : Syntax) (name above : List Label)
        → LcaName query name
        → Under name above
        → All (λ place. Under (name_of place) above) (selected document query) }
{}
