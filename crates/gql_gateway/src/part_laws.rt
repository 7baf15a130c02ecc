//! Laws of operations that are divided, and of responses that are joined.

ghost use Rattle.std.specs.Prelude.{◌≡◌, ◌∷◌, ℕ, List, [], Some, Ok, Err};
ghost use Rattle.gql_ast_base.specs.Names.{Named};
ghost use Rattle.gql_collect.specs.Collected.{setting};
ghost use Rattle.gql_collect.specs.Kept.{Variables};
ghost use Rattle.gql_document_types.specs.Expanded.{expanded};
ghost use Rattle.gql_document_types.specs.Ranks.{AreRanked};
ghost use Rattle.gql_document_types.specs.Spreadless.{HasNoSpread};
ghost use Rattle.gql_document_types.specs.Spreads.{AreAcyclic};
ghost use Rattle.gql_document_types.specs.declared.document.ExecutableDocument.{ExecutableDocument as TheDocument};
ghost use Rattle.gql_document_types.specs.declared.fragment.Fragment.{Fragment};
ghost use Rattle.gql_document_types.specs.declared.operation.Operation.{Operation as TheOperation};
ghost use Rattle.gql_document_types.specs.declared.selection.Selection.{Selection};
ghost use Rattle.gql_exec.specs.IntrospectedRequest.{introspected_request, partial_request};
ghost use Rattle.gql_exec.specs.Restricted.{HasNoOwn};
ghost use Rattle.gql_exec.specs.Thing.{of_user};
ghost use Rattle.gql_exec.specs.ThingMeaning.{Resolving};
ghost use Rattle.gql_exec.specs.NeverSkips.{NeverSkips};
ghost use Rattle.gql_exec.specs.Request.{Members};
ghost use Rattle.gql_exec.specs.RequestWorld.{plain_world};
ghost use Rattle.gql_exec.specs.Response.{IsExecuted};
ghost use Rattle.gql_gateway.specs.Concrete.{concrete};
ghost use Rattle.gql_gateway.specs.Divided.{Divides};
ghost use Rattle.gql_gateway.specs.Joined.{joined, keys_on, no_members};
ghost use Rattle.gql_gateway.specs.Pure.{IsPure, IsSpreadless};
ghost use Rattle.gql_gateway.specs.Remote.{TellsBy};
ghost use Rattle.gql_gateway.specs.Whole.{IsDivisible, IsWhole};
ghost use Rattle.gql_resolvers.specs.Execute.{Member};
ghost use Rattle.gql_resolvers.specs.Skips.{ReachesNoSkip};
ghost use Rattle.gql_response.specs.declared.execution_response.ExecutionResponse.{ExecutionResponse};
ghost use Rattle.gql_schema_types.specs.declared.schema.Schema.{Schema as TheSchema};
ghost use Rattle.gql_schema_types.specs.declared.types.ObjectType.{ObjectType};
ghost use Rattle.gql_source.specs.File.{Files};

use gql_document_types::laws as expansion_laws;
use gql_graph::laws as graph_laws;

/// Where an execution with introspection on has data, and nothing that it reaches is left out, it is joined of two: that of an object
/// that leaves every field out, and that of the concrete part (GraphQL October 2021, sections 4 and 6). Data, errors, their order, paths
/// and places are the same. The operation has no spreads, the root type no field of its own named `__schema` or `__type`, and of each
/// response key of the root all fields have one of the names `__typename`, `__schema` and `__type`, or none has.
pub fn two_joined_are_the_whole<X>()
    ensures { (schema : TheSchema) (sources : Files) (fragments : List Fragment) (variables : Members) (types : X → List ℕ) (resolves : Resolving X)
        (U : ObjectType) (x : X) (selections : List Selection)
        → ((rank : ℕ → ℕ) × AreRanked fragments rank) → HasNoOwn schema U → IsSpreadless selections
        → IsPure (setting fragments schema U variables) selections
        → ReachesNoSkip (plain_world (introspected_request schema sources fragments variables types resolves)) U (of_user schema x) (selections ∷ [])
        → (whole part rest : ExecutionResponse) (members : List Member)
        → IsExecuted (introspected_request schema sources fragments variables types resolves) U (of_user schema x) selections whole
        → IsExecuted (partial_request schema sources fragments variables) U (of_user schema tt) selections part
        → IsExecuted (introspected_request schema sources fragments variables types resolves) U (of_user schema x) (concrete selections) rest
        → whole.root ≡ Some members
        → joined (keys_on (setting fragments schema U variables) selections) part rest ≡ Ok whole }
{}

/// Where the concrete part is executed, and nothing that this reaches is left out, no key of the root is missing in it, whatever it is
/// joined with. The premises on the operation are those of [`two_joined_are_the_whole`].
pub fn nothing_is_missing<X>()
    ensures { (schema : TheSchema) (sources : Files) (fragments : List Fragment) (variables : Members) (types : X → List ℕ) (resolves : Resolving X)
        (U : ObjectType) (x : X) (selections : List Selection)
        → ((rank : ℕ → ℕ) × AreRanked fragments rank) → IsSpreadless selections
        → IsPure (setting fragments schema U variables) selections
        → ReachesNoSkip (plain_world (introspected_request schema sources fragments variables types resolves)) U (of_user schema x) (concrete selections ∷ [])
        → (here rest : ExecutionResponse) (lacking : Named)
        → IsExecuted (introspected_request schema sources fragments variables types resolves) U (of_user schema x) (concrete selections) rest
        → joined (keys_on (setting fragments schema U variables) selections) here rest ≡ Err lacking → ⊥ }
{}

/// An operation that selects nothing is answered with no members and no errors.
pub fn nothing_is_executed<X>()
    ensures { (schema : TheSchema) (sources : Files) (fragments : List Fragment) (variables : Members) (types : X → List ℕ) (resolves : Resolving X)
        (U : ObjectType) (x : X)
        → IsExecuted (introspected_request schema sources fragments variables types resolves) U (of_user schema x) [] no_members }
{}

/// The concrete part of selections that name no fragment, at any depth, names none.
pub fn concrete_parts_have_no_spread()
    ensures { (selections : List Selection) → HasNoSpread selections → HasNoSpread (concrete selections) }
{}

/// Selections that name no fragment at any depth name none in their own set.
pub fn sets_have_no_spread()
    ensures { (selections : List Selection) → HasNoSpread selections → IsSpreadless selections }
{}

/// Where of each response key all fields that are collected have one of the names `__typename`, `__schema` and `__type`, or none has, this
/// is so of the expansion. No fragment may lead back to itself.
pub fn expansions_stay_pure()
    ensures { (fragments : List Fragment) → AreAcyclic fragments → (schema : TheSchema) (object : ObjectType) (variables : Variables) (selections : List Selection)
        → IsPure (setting fragments schema object variables) selections
        → IsPure (setting fragments schema object variables) (expanded fragments selections) }
{
    expansion_laws::acyclic_fragments_have_contents();
    graph_laws::acyclic_graphs_have_ranks();
}

/// A division changes nothing, where the remote executes on a resolver that leaves nothing out, and of the operation that holds which
/// validation gives: the joined response is the one of the whole operation, where that has data; and the remote lacks no key (GraphQL
/// October 2021, sections 4 and 6).
pub fn local_divisions_are_whole<X>()
    ensures whole { (types : X → List ℕ) (resolves : Resolving X) (x : X) → NeverSkips resolves
        → (schema : TheSchema) (document : TheDocument) (operation : TheOperation) (variables : Members) → IsDivisible schema document operation variables
        → (response : ExecutionResponse) → Divides (TellsBy types resolves x) schema document operation variables (Ok response)
        → IsWhole types resolves x schema document operation variables response }
    ensures missing { (types : X → List ℕ) (resolves : Resolving X) (x : X) → NeverSkips resolves
        → (schema : TheSchema) (document : TheDocument) (operation : TheOperation) (variables : Members) → IsDivisible schema document operation variables
        → (key : Named) → Divides (TellsBy types resolves x) schema document operation variables (Err key) → ⊥ }
{
    expansion_laws::acyclic_fragments_have_contents();
    expansion_laws::expansions_have_no_spread();
    graph_laws::acyclic_graphs_have_ranks();
}
