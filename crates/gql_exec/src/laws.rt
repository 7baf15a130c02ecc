//! Laws of executions with introspection on.

ghost use Rattle.std.specs.Prelude.{◌≡◌, ℕ, List, [], ◌∷◌, Some};
ghost use Rattle.gql_document_types.specs.declared.fragment.Fragment.{Fragment};
ghost use Rattle.gql_document_types.specs.declared.selection.Selection.{Selection};
ghost use Rattle.gql_exec.specs.IntrospectedRequest.{introspected_request, partial_request};
ghost use Rattle.gql_exec.specs.Restricted.{HasNoOwn, OthersCoerce, restricted};
ghost use Rattle.gql_exec.specs.Thing.{of_user};
ghost use Rattle.gql_exec.specs.ThingMeaning.{Resolving, thing_meaning};
ghost use Rattle.gql_resolvers.specs.Execute.{Member};
ghost use Rattle.gql_exec.specs.NeverSkips.{NeverSkips};
ghost use Rattle.gql_exec.specs.Request.{Members};
ghost use Rattle.gql_exec.specs.RequestWorld.{plain};
ghost use Rattle.gql_exec.specs.Response.{IsExecuted};
ghost use Rattle.gql_response.specs.declared.execution_response.ExecutionResponse.{ExecutionResponse};
ghost use Rattle.gql_schema_types.specs.declared.schema.Schema.{Schema as TheSchema};
ghost use Rattle.gql_schema_types.specs.declared.types.ObjectType.{ObjectType};
ghost use Rattle.gql_source.specs.File.{Files};

/// Where an execution with introspection on has data, the execution of an object that leaves every field out has those of
/// its members whose fields are named `__typename`, `__schema` or `__type`, in order: if the root type has no field of its
/// own of the last two names, and the arguments of each other field are coerced (GraphQL October 2021, sections 4.1 and 4.2).
pub fn partial_data_is_of_the_whole<X>()
    ensures { (schema : TheSchema) (sources : Files) (fragments : List Fragment) (variables : Members) (types : X → List ℕ) (resolves : Resolving X)
        (U : ObjectType) (x : X) (selections : List Selection) (whole part : ExecutionResponse) (members : List Member)
        → HasNoOwn schema U → OthersCoerce (introspected_request schema sources fragments variables types resolves) U selections
        → IsExecuted (introspected_request schema sources fragments variables types resolves) U (of_user schema x) selections whole
        → IsExecuted (partial_request schema sources fragments variables) U (of_user schema tt) selections part → whole.root ≡ Some members
        → part.root ≡ Some (restricted (plain (introspected_request schema sources fragments variables types resolves) U (selections ∷ [])) members) }
{}

/// An execution with introspection on leaves nothing out, where the resolver of the user's objects leaves nothing out (section 4).
pub fn introspected_things_never_skip<X>()
    ensures { (resolves : Resolving X) → NeverSkips resolves → NeverSkips (thing_meaning resolves) }
{}
