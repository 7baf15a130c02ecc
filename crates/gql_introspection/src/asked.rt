//! What a field is asked for with.

use gql_response::JsonMap;
use std::alloc::Global;

/// The name of a field that is asked for, and its arguments.
#[derive(Clone, Copy)]
pub(crate) struct Asked<'i> {
    pub(crate) alloc: Global,
    pub(crate) field: &'i str,
    pub(crate) arguments: &'i JsonMap,
}
