//! Operations.

ghost use Rattle.std.specs.Prelude.{◌≡◌};

use crate::selection::SelectionSet;
use gql_ast::VariableDefinition;
use gql_ast_base::{Copying, Directive, Name, OperationType, all_four};
use gql_source::SourceSpan;
use jb_text::{Listed, Memory};
use std::alloc::Global;

/// An operation (GraphQL October 2021, section 2.3). The type of its set is the root type for operations of its kind.
pub struct Operation {
    pub operation_type: OperationType,
    pub name: Option<Name>,
    pub variables: Listed<VariableDefinition>,
    pub directives: Listed<Directive>,
    pub selection_set: SelectionSet,
    pub location: Option<SourceSpan>,
}

impl Drop for Operation {
    fn drop(self) {
        let Operation {
            operation_type: _,
            name: _,
            variables: _,
            directives: _,
            selection_set: _,
            location: _,
        } = self;
    }
}

impl Operation {
    /// The name of the root type that the operation is executed on (section 3.3.1).
    #[must_use]
    pub fn object_type(&self) -> &Name
        ensures { result.now ≡ self.now.selection_set.ty }
    {
        &self.selection_set.ty
    }
}

impl Copying for Operation {
    fn copy(&self, alloc: Global) -> Result<Operation, Memory> {
        let (name, variables, directives, selection_set) = all_four(
            self.name.copy(alloc),
            self.variables.copy(alloc),
            self.directives.copy(alloc),
            self.selection_set.copy(alloc),
        )?;
        Ok(Operation {
            operation_type: self.operation_type,
            name,
            variables,
            directives,
            selection_set,
            location: self.location,
        })
    }
}
