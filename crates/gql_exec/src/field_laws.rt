//! Laws of the world of a document.

ghost use Rattle.std.specs.Prelude.{◌≡◌, ℕ, Bool, List};
ghost use Rattle.gql_document_types.specs.declared.document.ExecutableDocument.{ExecutableDocument};
ghost use Rattle.gql_document_types.specs.declared.selection.Selection.{Selection};
ghost use Rattle.gql_collect.specs.Groups.{FieldGroup, SameGroups, applying};
ghost use Rattle.gql_document_types.specs.Ranks.{AreRanked};
ghost use Rattle.gql_collect.specs.Same.{SameFirst};
ghost use Rattle.gql_resolvers.specs.Depth.{Suffices};
ghost use Rattle.gql_resolvers.specs.Execute.{execute};
ghost use Rattle.gql_resolvers.specs.Skips.{ReachesNoSkip};
ghost use Rattle.gql_resolvers.specs.Trail.{Trail};
ghost use Rattle.gql_resolvers.specs.World.{DistinctKeys, IsLawful};
ghost use Rattle.gql_exec.specs.Group.{groups_from};
ghost use Rattle.gql_exec.specs.Nesting.{nesting, AllBelow};
ghost use Rattle.gql_exec.specs.Executing.{Resolving, request_by};
ghost use Rattle.gql_exec.specs.NeverSkips.{IsFullyExplained, IsNeverSkipped, NeverSkips};
ghost use Rattle.gql_exec.specs.Request.{Members, Request};
ghost use Rattle.gql_exec.specs.RequestWorld.{plain_world, setting_on};
ghost use Rattle.gql_exec.specs.Response.{IsExecuted, IsExplained};
ghost use Rattle.gql_exec.specs.Runs.{RunsAs};
ghost use Rattle.gql_response.specs.declared.execution_response.ExecutionResponse.{ExecutionResponse};
ghost use Rattle.gql_schema_types.specs.declared.schema.Schema.{Schema as TheSchema};
ghost use Rattle.gql_schema_types.specs.declared.types.ObjectType.{ObjectType};

/// The world of a document keeps what the laws of execution ask of a world.
pub fn worlds_are_lawful<X>()
    ensures { (r : Request X) → IsLawful (plain_world r) }
{}

/// Groups that are the same once repeated fields are left out are executed alike (GraphQL October 2021, section 6.3.2).
pub fn repeats_change_nothing<X>()
    ensures runs { (r : Request X) (U : ObjectType) (gs : List FieldGroup) (sets : List (List Selection))
        → SameGroups gs (applying (setting_on r U) sets) → (depth : ℕ) → Suffices (plain_world r) depth U sets
        → RunsAs (plain_world r) depth U sets (groups_from gs) }
    ensures keys { (r : Request X) (U : ObjectType) (gs : List FieldGroup) (sets : List (List Selection))
        → SameGroups gs (applying (setting_on r U) sets) → DistinctKeys (plain_world r) (groups_from gs) }
    ensures sets { (r : Request X) (depth : ℕ) (U : ObjectType) (x : X) (outer : Trail) (sets others : List (List Selection))
        → SameFirst sets others → execute (plain_world r) depth U x outer sets ≡ execute (plain_world r) depth U x outer others }
{}

/// Where no fragment leads back to itself, what is selected below a group goes less deep, and each group's field is defined.
pub fn groups_go_less_deep<X>()
    ensures below { (r : Request X) → ((rank : ℕ → ℕ) × AreRanked r.fragments rank) → (U : ObjectType) (gs : List FieldGroup) (sets : List (List Selection))
        → SameGroups gs (applying (setting_on r U) sets) → AllBelow r.schema U r.fragments (nesting r.fragments sets) gs }
    ensures enough { (r : Request X) → ((rank : ℕ → ℕ) × AreRanked r.fragments rank) → (U : ObjectType) (sets : List (List Selection))
        → Suffices (plain_world r) (nesting r.fragments sets) U sets }
{}

/// Where no resolver leaves anything out, nothing that is reached is left out, and a response that is explained is so without
/// further premise (section 6.4.4). Of a request with introspection or without it, it is enough that its resolver does not.
pub fn requests_are_fully_explained<X>()
    ensures reached { (r : Request X) → IsNeverSkipped r → (root : ObjectType) (initial : X) (sets : List (List Selection))
        → ReachesNoSkip (plain_world r) root initial sets }
    ensures explained { (r : Request X) → IsNeverSkipped r → (root : ObjectType) (initial : X) (selections : List Selection) (response : ExecutionResponse)
        → IsExplained r root initial selections response → IsFullyExplained r root initial selections response }
    ensures request { (introspection : Bool) (schema : TheSchema) (document : ExecutableDocument) (variables : Members) (types : X → List ℕ)
        (resolves : Resolving X) → NeverSkips resolves → IsNeverSkipped (request_by introspection schema document variables types resolves) }
{}

/// An execution has one response: two that are exactly what execution gives are equal (section 6.2).
pub fn responses_are_one<X>()
    ensures { (r : Request X) (root : ObjectType) (initial : X) (selections : List Selection) (one other : ExecutionResponse)
        → IsExecuted r root initial selections one → IsExecuted r root initial selections other → one ≡ other }
{}
