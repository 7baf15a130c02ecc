//! Laws of places and of execution.

ghost use Rattle.std.specs.Prelude.{◌≡◌, ◌++◌, ◌∷◌, ℕ, suc, [], List, Option, Some, Contains};
ghost use Rattle.std.specs.List.{AllByRecursion};
ghost use Rattle.gql_response.specs.declared.graphql_error.GraphQLError.{GraphQLError};
ghost use Rattle.gql_resolvers.specs.World.{World, IsLawful};
ghost use Rattle.gql_resolvers.specs.Trail.{Trail, path_of, shown};
ghost use Rattle.gql_resolvers.specs.Execute.{Member, execute, field_made};
ghost use Rattle.gql_resolvers.specs.Depth.{Suffices};
ghost use Rattle.gql_resolvers.specs.Explained.{IsTrueFault, IsExplainedBy};
ghost use Rattle.gql_response.specs.declared.path.ResponseDataPathSegment.TheVariants.{Field};
ghost use Rattle.gql_resolvers.specs.Begins.{BeginsWith};
ghost use Rattle.gql_resolvers.specs.Distinct.{DistinctPaths};
ghost use Rattle.gql_resolvers.specs.Reached.{Reaches};
ghost use Rattle.gql_resolvers.specs.Resolved.{Outcome};
ghost use Rattle.gql_resolvers.specs.Spot.{Spot, field_spot, trail};
ghost use Rattle.gql_resolvers.specs.Data.{Data};
ghost use Rattle.gql_resolvers.specs.DataMeaning.{data_meaning};
ghost use Rattle.gql_resolvers.specs.Meaning.{Members};
ghost use Rattle.gql_resolvers.specs.Skips.{IsSkipless, ReachesNoSkip, SkipsNothing};
ghost use Rattle.gql_schema_types.specs.declared.schema.Schema.{Schema as TheSchema};
ghost use Rattle.gql_schema_types.specs.declared.types.ObjectType.{ObjectType};
ghost use Rattle.gql_resolvers.specs.Along.{MeetsNull};

/// A run that goes one selection deeper gives the same, once nothing is cut off (GraphQL October 2021, section 6.3).
pub fn deeper_runs_give_the_same<X, T, G, S>()
    ensures { (w : World X T G S) (depth : ℕ) (U : T) (s : S) → Suffices w depth U s
        → (x : X) (outer : Trail) → execute w (suc depth) U x outer s ≡ execute w depth U x outer s }
{}

/// Each error that execution lists is a true fault, and no two of them have one path (section 7.1.2).
pub fn listed_errors_are_true_faults<X, T, G, S>()
    ensures true_faults { (w : World X T G S) (depth : ℕ) (root : T) (initial : X) (all : S)
        → AllByRecursion (IsTrueFault w root initial all) (execute w depth root initial [] all).1 }
    ensures distinct { (w : World X T G S) → IsLawful w → (depth : ℕ) (root : T) (initial : X) (all : S)
        → DistinctPaths (execute w depth root initial [] all).1 }
{}

/// What execution gives is explained, where nothing that is reached is left out (section 6.4.4).
pub fn executions_are_explained<X, T, G, S>()
    ensures { (w : World X T G S) → IsLawful w → (depth : ℕ) (root : T) (initial : X) (all : S)
        → Suffices w depth root all → ReachesNoSkip w root initial all
        → let made = execute w depth root initial [] all in IsExplainedBy w root initial all (Contains made.1) made.0 }
{}

/// Nothing that is reached is left out, where no resolver leaves anything out.
pub fn skipless_resolvers_reach_no_skip<X, T, G, S>()
    ensures { (w : World X T G S) → ((U : T) (x : X) (g : G) → IsSkipless (w.asks U x g))
        → (root : T) (initial : X) (all : S) → ReachesNoSkip w root initial all }
{}

/// Plain data leave nothing out, at any depth of lists.
pub fn data_never_skips()
    ensures { (schema : TheSchema) (T : ObjectType) (object : Data) (f : List ℕ) (arguments : Members)
        → SkipsNothing (data_meaning schema T object f arguments) }
{}

/// Data that some errors explain is the only data that any errors explain (section 6.4.4).
pub fn explained_data_is_unique<X, T, G, S>()
    ensures { (w : World X T G S) → IsLawful w → (root : T) (initial : X) (all : S)
        → (listed others : List GraphQLError) (one other : Option (List Member))
        → IsExplainedBy w root initial all (Contains listed) one → IsExplainedBy w root initial all (Contains others) other → one ≡ other }
{}

/// Explained data has a null along the path of each true fault (sections 6.4.4 and 7.1.2).
pub fn data_meets_a_null_along_each_fault<X, T, G, S>()
    ensures { (w : World X T G S) (root : T) (initial : X) (all : S) (listed : List GraphQLError) (members : List Member)
        → IsExplainedBy w root initial all (Contains listed) (Some members) → (error : GraphQLError) → IsTrueFault w root initial all error
        → MeetsNull members error.path }
{}

/// Two runs that cut nothing off give the same (section 6.3).
pub fn sufficient_runs_are_one<X, T, G, S>()
    ensures { (w : World X T G S) (depth other : ℕ) (U : T) (s : S) → Suffices w depth U s → Suffices w other U s
        → (x : X) (outer : Trail) → execute w depth U x outer s ≡ execute w other U x outer s }
{}

/// One path, as a response shows it, belongs to one place at most, and one thing comes of that place (section 7.1.2).
pub fn paths_have_one_place<X, T, G, S>()
    ensures { (w : World X T G S) → IsLawful w → (root : T) (initial : X) (all : S) (spot other : Spot G) (outcome another : Outcome X)
        → Reaches w root initial all spot outcome → Reaches w root initial all other another
        → shown (path_of (trail spot)) ≡ shown (path_of (trail other)) → (spot ≡ other) × (outcome ≡ another) }
{}

/// The path of each error of a field begins with that of its object and its response key (section 7.1.2).
pub fn errors_begin_with_their_keys<X, T, G, S>()
    ensures { (w : World X T G S) → IsLawful w → (depth : ℕ) (U : T) (x : X) (outer : Trail) (g : G)
        → AllByRecursion (BeginsWith (path_of outer ++ Field (w.name_of g) ∷ []))
        (field_made w (execute w depth) (field_spot w U outer g) (w.asks U x g)).1 }
{}
