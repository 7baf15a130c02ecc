//! Built-in definitions.

use crate::type_definition::TypeDefinition;
use gql_ast::DirectiveDefinition;
use jb_text::Listed;

/// The definitions that each schema has without saying so (GraphQL October 2021, sections 3.5, 3.13 and 4.2).
#[derive(Drop)]
pub struct BuiltIn {
    pub directives: Listed<DirectiveDefinition>,
    pub types: Listed<TypeDefinition>,
}
