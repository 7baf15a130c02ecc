//! The operations and fragments that a document is built of.

ghost use Rattle.std.specs.Prelude.{◌≡◌, OnOk};

use gql_ast::{Definition, FragmentDefinition, OperationDefinition};
use gql_ast_base::Copying;
use jb_text::{Listed, Memory};
use std::alloc::Global;

/// Operations and fragments (GraphQL October 2021, section 2.2), each in the order in which they came.
#[derive(Drop)]
pub struct ExecutableDefinitions {
    pub operations: Listed<OperationDefinition>,
    pub fragments: Listed<FragmentDefinition>,
}

impl ExecutableDefinitions {
    ghost use Rattle.gql_document.specs.Definitions as spec;

    /// No definitions.
    pub fn new(alloc: Global) -> ExecutableDefinitions
        ensures { result ≡ spec.no_definitions }
    {
        ExecutableDefinitions {
            operations: Listed::new(alloc),
            fragments: Listed::new(alloc),
        }
    }

    /// Takes the operations and fragments of a document too. `Err` only when out of memory: then some of them are taken.
    pub fn take_all(&mut self, definitions: Listed<Definition>) -> Result<(), Memory>
        ensures { OnOk result (self.new ≡ spec.with_definitions self.old definitions) }
    {
        for definition in definitions {
            self.take(definition)?;
        }
        Ok(())
    }

    /// Takes copies of the operations and fragments of a document, as [`ExecutableDefinitions::take_all`] takes them
    /// themselves.
    pub fn copy_all(
        &mut self,
        alloc: Global,
        definitions: &Listed<Definition>,
    ) -> Result<(), Memory>
        ensures { OnOk result (self.new ≡ spec.with_definitions self.old definitions.now) }
    {
        for definition in definitions.as_slice() {
            self.copy_one(alloc, definition)?;
        }
        Ok(())
    }

    /// Takes a copy of a definition, if it is an operation or a fragment.
    fn copy_one(&mut self, alloc: Global, definition: &Definition) -> Result<(), Memory>
        ensures { OnOk result (self.new ≡ spec.with_definition self.old definition.now) }
    {
        match definition {
            Definition::OperationDefinition(it) => self.operations.push(it.copy(alloc)?),
            Definition::FragmentDefinition(it) => self.fragments.push(it.copy(alloc)?),
            _ => Ok(()),
        }
    }

    /// Takes a definition, if it is an operation or a fragment.
    fn take(&mut self, definition: Definition) -> Result<(), Memory>
        ensures { OnOk result (self.new ≡ spec.with_definition self.old definition) }
    {
        match definition {
            Definition::OperationDefinition(it) => self.operations.push(it),
            Definition::FragmentDefinition(it) => self.fragments.push(it),
            other => {
                // By name: left to the compiler, the drop of a large enum is written out in this function.
                drop(other);
                Ok(())
            }
        }
    }
}
