//! What an execution gives.

use gql_response::GraphQLError;
use jb_text::Listed;

/// The errors in the order in which they came, and the members of the data as an output has them, unless the data are null.
#[derive(Drop)]
pub(crate) struct Executed<V> {
    pub(crate) errors: Listed<GraphQLError>,
    pub(crate) members: Option<V>,
}
