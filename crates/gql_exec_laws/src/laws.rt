//! What the definitions of execution give of an operation and of its expansion, and for each example.

ghost use Rattle.std.specs.Prelude.{◌≡◌, [], ◌∷◌, ◌↔◌, ℕ, List};
ghost use Rattle.gql_document_types.specs.Expanded.{expanded};
ghost use Rattle.gql_document_types.specs.Spreads.{AreAcyclic};
ghost use Rattle.gql_document_types.specs.declared.fragment.Fragment.{Fragment};
ghost use Rattle.gql_document_types.specs.declared.selection.Selection.{Selection};
ghost use Rattle.gql_exec.specs.Request.{Request};
ghost use Rattle.gql_exec.specs.RequestWorld.{plain_world};
ghost use Rattle.gql_exec.specs.Response.{IsExecuted};
ghost use Rattle.gql_exec_laws.specs.Counting.{counted, field_a, field_b};
ghost use Rattle.gql_exec_laws.specs.Doubling.{most_looks};
ghost use Rattle.gql_exec_laws.specs.Example.{IsAnswered};
ghost use Rattle.gql_exec_laws.specs.Examples.{failed_items, failed_strict_item, merged, null_alone, null_behind, root_null};
ghost use Rattle.gql_exec_laws.specs.Others.{among};
ghost use Rattle.gql_resolvers.specs.Execute.{execute};
ghost use Rattle.gql_resolvers.specs.Trail.{Trail};
ghost use Rattle.gql_collect.specs.Sizes.{outer_size, size};
ghost use Rattle.gql_collect.specs.Standing.{fields_in};
ghost use Rattle.gql_response.specs.declared.execution_response.ExecutionResponse.{ExecutionResponse};
ghost use Rattle.gql_schema_types.specs.declared.types.ObjectType.{ObjectType};

use gql_document_types::laws as expansion_laws;
use gql_graph::laws as graph_laws;

/// Selections and the same selections with each spread replaced are executed alike, for every resolver, what it leaves out
/// included: the data, the errors in order, their paths and their places are equal. The second may stand in the same document,
/// or in one of other fragments or of none. No fragment may lead back to itself.
pub fn expansion_changes_nothing<X>()
    ensures made { (r : Request X) (others : List Fragment)
        → AreAcyclic r.fragments → AreAcyclic others
        → (depth : ℕ) (U : ObjectType) (x : X) (outer : Trail) (selections : List Selection)
        → execute (plain_world (among others r)) depth U x outer (expanded r.fragments selections ∷ [])
        ≡ execute (plain_world r) depth U x outer (selections ∷ []) }
    ensures response { (r : Request X) (others : List Fragment)
        → AreAcyclic r.fragments → AreAcyclic others
        → (root : ObjectType) (initial : X) (selections : List Selection) (response : ExecutionResponse)
        → IsExecuted (among others r) root initial (expanded r.fragments selections) response ↔ IsExecuted r root initial selections response }
{
    expansion_laws::acyclic_fragments_have_contents();
    graph_laws::acyclic_graphs_have_ranks();
}

/// An item that fails is null and the list goes on; each error has its item's index: `{ f }` of `type Query { f: [Int] }`, whose
/// first and third items fail.
pub fn a_failed_item_nulls_itself()
    ensures { IsAnswered failed_items }
{}

/// Where items must not be null, the first that fails ends the list, which is null, and what is behind is not looked at: `{ f }` of
/// `type Query { f: [Int!] }`.
pub fn a_failed_item_ends_a_list_without_nulls()
    ensures { IsAnswered failed_strict_item }
{}

/// Null at a type that rules it out nulls the object around it, and what came before in that object is lost: `{ a { y x } }`
/// of `type Query { a: A } type A { x: Int! y: Int }`.
pub fn a_null_goes_outward()
    ensures { IsAnswered null_alone }
{}

/// In the same query the error of a field that came before stays listed.
pub fn errors_before_a_null_stay()
    ensures { IsAnswered null_behind }
{}

/// Where no place around a null may be null, the data is null: `{ b a }` of `type Query { a: Int! b: Int }`.
pub fn a_null_reaches_the_root()
    ensures { IsAnswered root_null }
{}

/// The selection sets of one response key are one, and keys stand in the order in which they come first:
/// `{ a { y } a { x y } }`.
pub fn sets_of_one_key_are_merged()
    ensures { IsAnswered merged }
{}

/// What is counted in `{ a ... { b { c } } ...F1 }`: four selections, three of them in the set itself; its fields are `a` and `b`.
pub fn what_is_inside_fields_is_not_counted()
    ensures selections { size counted ≡ 4 }
    ensures outer { outer_size (counted ∷ []) ≡ 3 }
    ensures fields { fields_in counted ≡ field_a ∷ field_b ∷ [] }
{}

/// Of thirty fragments each spreads the next one twice, and the last selects a field: `{ ...F1 }` is collected in at most 60
/// looks, though the field stands 2^29 times where each fragment is written out.
pub fn doubling_fragments_are_entered_once()
    ensures { most_looks 29 ≡ 60 }
{}
