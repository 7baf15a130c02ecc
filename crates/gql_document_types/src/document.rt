//! Executable documents and sets of fields.

use crate::fragment::Fragment;
use crate::operation::Operation;
use crate::selection::SelectionSet;
use gql_schema_types::Table;
use gql_source::SourceMap;
use jb_text::Listed;

/// Operations and fragments (GraphQL October 2021, section 2.2), each in order of definition. No two fragments have one
/// name.
pub struct ExecutableDocument {
    pub sources: SourceMap,
    pub operations: Listed<Operation>,
    pub fragments: Table<Fragment>,
}

/// Selections on one type, without an operation around them.
pub struct FieldSet {
    pub sources: SourceMap,
    pub selection_set: SelectionSet,
}

impl Drop for ExecutableDocument {
    fn drop(self) {
        let ExecutableDocument {
            sources: _,
            operations: _,
            fragments: _,
        } = self;
    }
}

impl Drop for FieldSet {
    fn drop(self) {
        let FieldSet {
            sources: _,
            selection_set: _,
        } = self;
    }
}
