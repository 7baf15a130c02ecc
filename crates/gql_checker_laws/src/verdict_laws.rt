//! Laws of verdicts.

ghost use Rattle.std.specs.Prelude.{◌≡◌, ◌↔◌, ℕ, List, Option, Some, None, Contains, false, length, replicate};
ghost use Rattle.std.specs.List.{AllByRecursion};
ghost use Rattle.gql_response.specs.Held.{unplaced};
ghost use Rattle.gql_response.specs.declared.execution_response.ExecutionResponse.{ExecutionResponse as Response};
ghost use Rattle.gql_resolvers.specs.Explained.{IsTrueFault, IsExplainedBy};
ghost use Rattle.gql_resolvers.specs.World.{World, IsLawful};
ghost use Rattle.gql_response.specs.declared.graphql_error.GraphQLError.{GraphQLError};
ghost use Rattle.gql_resolvers.specs.Depth.{Suffices};
ghost use Rattle.gql_resolvers.specs.Execute.{Member};
ghost use Rattle.gql_resolvers.specs.Trail.{Segment};
ghost use Rattle.gql_checker_laws.specs.Bad.{FirstOfAll};
ghost use Rattle.gql_checker_laws.specs.Claims.{marked, first_missing};
ghost use Rattle.gql_checker_laws.specs.Tells.{IsListed, Tells, AreExplained};
ghost use Rattle.gql_checker_laws.specs.Verdict.{AreMarks, IsFirstFalse, IsBadAt};
ghost use Rattle.gql_checker_laws.specs.Walk.{first_bad, whole_found};

/// A walk that cuts nothing off decides which listed errors are true, whether they explain the data, and where the first bad value is
/// (sections 6.4.4 and 7.1): for every world that keeps its laws, whatever its resolvers give.
pub fn walks_decide_what_is_explained<X, T, G, S>()
    ensures errors { (w : World X T G S) → IsLawful w → (root : T) (initial : X) (all : S) (depth : ℕ) → ((U : T) → Suffices w depth U all)
        → (errors : List GraphQLError) (given : Option (List Member))
        → AreMarks (Tells w root initial all) errors (marked (whole_found w depth root initial all given errors).told (replicate (length errors) false)) }
    ensures first { (w : World X T G S) → IsLawful w → (root : T) (initial : X) (all : S) (depth : ℕ) → ((U : T) → Suffices w depth U all)
        → (errors : List GraphQLError) (given : Option (List Member)) (index : ℕ)
        → first_missing (marked (whole_found w depth root initial all given errors).told (replicate (length errors) false)) ≡ Some index
        → IsFirstFalse w root initial all errors index }
    ensures good { (w : World X T G S) → IsLawful w → (root : T) (initial : X) (all : S) (depth : ℕ) → ((U : T) → Suffices w depth U all)
        → (errors : List GraphQLError) (given : Option (List Member))
        → (first_bad w root all given (whole_found w depth root initial all given errors) ≡ None) ↔ IsExplainedBy w root initial all (IsListed errors) given }
    ensures bad { (w : World X T G S) → IsLawful w → (root : T) (initial : X) (all : S) (depth : ℕ) → ((U : T) → Suffices w depth U all)
        → (errors : List GraphQLError) (given : Option (List Member)) (path : List Segment)
        → first_bad w root all given (whole_found w depth root initial all given errors) ≡ Some path
        → FirstOfAll w root initial all (IsListed errors) given path }
{}

/// What the walk finds is the verdict on a response (sections 6.4.4 and 7.1): it finds nothing wrong exactly where the response is
/// explained, and where it finds all errors true and tells a path, that is the path of the first bad value.
pub fn walks_give_the_verdict<X, T, G, S>()
    ensures explained { (w : World X T G S) → IsLawful w → (root : T) (initial : X) (all : S) (depth : ℕ) → ((U : T) → Suffices w depth U all)
        → (response : Response)
        → ((first_missing (marked (whole_found w depth root initial all response.root response.errors).told (replicate (length response.errors) false)) ≡ None)
        × (first_bad w root all response.root (whole_found w depth root initial all response.root response.errors) ≡ None))
        ↔ AreExplained w root initial all response }
    ensures bad { (w : World X T G S) → IsLawful w → (root : T) (initial : X) (all : S) (depth : ℕ) → ((U : T) → Suffices w depth U all)
        → (response : Response)
        → first_missing (marked (whole_found w depth root initial all response.root response.errors).told (replicate (length response.errors) false)) ≡ None
        → (path : List Segment) → first_bad w root all response.root (whole_found w depth root initial all response.root response.errors) ≡ Some path
        → IsBadAt w root initial all response path }
{}

/// A response whose errors are true faults that explain its data is explained as it is read back, where names in paths come from no
/// place (GraphQL October 2021, sections 6.4.4 and 7.1). So what an execution gives, where nothing that is reached is left out, is
/// explained for a reader.
pub fn explained_responses_read_as_explained<X, T, G, S>()
    ensures { (w : World X T G S) (root : T) (initial : X) (all : S) (response : Response)
        → AllByRecursion (IsTrueFault w root initial all) response.errors
        → IsExplainedBy w root initial all (Contains response.errors) response.root → AreExplained w root initial all (unplaced response) }
{}
