//! What is looked for at each node.

ghost use Rattle.std.specs.Prelude.{◌≡◌, ◌++◌, List, OnOk};
ghost use Rattle.gql_rules_nodes.specs.Nodes as spec;
ghost use Rattle.gql_rules_nodes.specs.bridge.Nodes as spec_bridge;

use gql_ast_base::Name;
use gql_document_types::{Field, Fragment, FragmentSpread, InlineFragment, Operation};
use jb_text::{Listed, Memory};

/// What looks at the nodes of a document, one by one, and lists what it finds.
///
/// Each call adds what is found at the node itself, last, and nothing of what is inside it. A selection comes with the type of
/// the set that it stands in. `Err` only when out of memory.
pub trait Visitor {
    /// What is found.
    type Found;

    ghost at: { Self → spec.Node → List Self.Found };

    /// Looks at an operation (GraphQL October 2021, section 2.3).
    fn operation(
        &self,
        operation: &Operation,
        found: &mut Listed<Self::Found>,
    ) -> Result<(), Memory>
        ensures { OnOk result (found.new ≡ found.old ++ at self.now (spec.operation_at operation.now)) };

    /// Looks at a fragment with a name (section 2.8).
    fn fragment(&self, fragment: &Fragment, found: &mut Listed<Self::Found>) -> Result<(), Memory>
        ensures { OnOk result (found.new ≡ found.old ++ at self.now (spec.fragment_at fragment.now)) };

    /// Looks at a field (section 2.5) in a set on this type.
    fn field(&self, ty: &Name, field: &Field, found: &mut Listed<Self::Found>) -> Result<(), Memory>
        ensures { OnOk result (found.new ≡ found.old ++ at self.now (spec_bridge.field_at ty.now field.now)) };

    /// Looks at a spread of a fragment (section 2.8) in a set on this type.
    fn spread(
        &self,
        ty: &Name,
        spread: &FragmentSpread,
        found: &mut Listed<Self::Found>,
    ) -> Result<(), Memory>
        ensures { OnOk result (found.new ≡ found.old ++ at self.now (spec.spread_at ty.now spread.now)) };

    /// Looks at an inline fragment (section 2.8.2) in a set on this type.
    fn inline_fragment(
        &self,
        ty: &Name,
        fragment: &InlineFragment,
        found: &mut Listed<Self::Found>,
    ) -> Result<(), Memory>
        ensures { OnOk result (found.new ≡ found.old ++ at self.now (spec_bridge.inline_at ty.now fragment.now)) };
}
