//! The query that a schema is read from.

ghost use Rattle.std.specs.Prelude.{◌≡◌};
ghost use Rattle.gql_client_schema.specs.Query.{full_query as query_text};

/// The introspection query (GraphQL October 2021, section 4, with `isOneOf` of September 2025) whose answer shows a whole schema:
/// what a server answers to it, [`client_schema`](crate::client_schema) reads. References to types are asked for with up to eight
/// wrappers around their names.
pub const FULL_QUERY: &str =
    "query Full { __schema { description queryType { name } mutationType { name } subscriptionType { name } types { ...T } directives { name description isRepeatable locations args(includeDeprecated: true) { ...V } } } }\n\
fragment T on __Type { kind name description specifiedByURL isOneOf fields(includeDeprecated: true) { name description args(includeDeprecated: true) { ...V } type { ...R } isDeprecated deprecationReason } inputFields(includeDeprecated: true) { ...V } interfaces { ...R } possibleTypes { ...R } enumValues(includeDeprecated: true) { name description isDeprecated deprecationReason } }\n\
fragment V on __InputValue { name description type { ...R } defaultValue isDeprecated deprecationReason }\n\
fragment R on __Type { kind name ofType { kind name ofType { kind name ofType { kind name ofType { kind name ofType { kind name ofType { kind name ofType { kind name ofType { kind name } } } } } } } } }";

/// The query, as contracts name it.
#[tactic(auto, unfolding(crate::specs::Query::full_query))]
pub(crate) fn full_query() -> &'static str
    ensures { result.now ≡ query_text }
{
    FULL_QUERY
}
