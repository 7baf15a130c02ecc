//! Laws of costs.

ghost use Rattle.std.specs.Prelude.{◌≡◌, ◌≤◌, ℕ, List, [], ◌∷◌, Some};
ghost use Rattle.gql_valid_laws.specs.Covariant.{IsCovariant};
ghost use Rattle.gql_cost.specs.Even.{AreEven};
ghost use Rattle.gql_cost.specs.HasNodes.{HasNodes};
ghost use Rattle.gql_cost.specs.Short.{AreShort};
ghost use Rattle.gql_cost.specs.Sum.{cost};
ghost use Rattle.gql_valid_laws.specs.Merge.{HaveOneName, Merge};
ghost use Rattle.gql_document_types.specs.Spreads.{AreAcyclic};
ghost use Rattle.gql_document_types.specs.Typed.{AreFragmentsTyped, AreTyped};
ghost use Rattle.gql_document_types.specs.declared.selection.Selection.{Selection};
ghost use Rattle.gql_document_types.specs.declared.selection.SelectionSet.{SelectionSet};
ghost use Rattle.gql_exec.specs.Request.{Request};
ghost use Rattle.gql_exec.specs.RequestWorld.{plain_world};
ghost use Rattle.gql_exec.specs.Response.{IsExecuted};
ghost use Rattle.gql_response.specs.declared.execution_response.ExecutionResponse.{ExecutionResponse};
ghost use Rattle.gql_schema_types.specs.Schemas.{object_of};
ghost use Rattle.gql_schema_types.specs.declared.types.ObjectType.{ObjectType};

use gql_graph::laws as graph_laws;
pub use gql_valid_laws::rule_laws::{fields_of_one_key_merge, object_types_are_covariant};

/// The data of a response have at most as many nodes as the cost says, whatever the resolver gives, if no list that is reached and
/// fits has more items than `items`, and if the fields of each group have as many lists in one another as their place.
pub fn nodes_cost_at_most<X>()
    ensures { (items : ℕ) (r : Request X) (root : ObjectType) (initial : X) (selections : List Selection) (response : ExecutionResponse)
        → AreAcyclic r.fragments → AreEven r root initial selections
        → AreShort items (plain_world r) root initial (selections ∷ [])
        → IsExecuted r root initial selections response
        → (count : ℕ) → HasNodes r root initial selections response.root count
        → count ≤ cost items r.fragments selections }
{
    graph_laws::acyclic_graphs_have_ranks();
}

/// What validation gives is enough for that: each field has the definition of its set's type, object types have the fields of the types
/// that they stand for, with types that fit, and fields of one response key merge.
pub fn validated_sets_are_even<X>()
    ensures { (r : Request X) (root : ObjectType) (initial : X) (set : SelectionSet)
        → AreFragmentsTyped r.schema r.fragments → IsCovariant r.schema → object_of r.schema set.ty.text ≡ Some root
        → AreTyped r.schema set.ty set.selections → Merge HaveOneName r.schema r.fragments r.variables root set.selections set.selections
        → AreEven r root initial set.selections }
{}

/// Each response has so many nodes.
pub fn responses_have_nodes<X>()
    ensures { (r : Request X) (root : ObjectType) (initial : X) (selections : List Selection) (response : ExecutionResponse)
        → IsExecuted r root initial selections response
        → (count : ℕ) × HasNodes r root initial selections response.root count }
{}
