//! Builders of executable documents.

ghost use Rattle.std.specs.Prelude.{◌≡◌, ◌++◌, [], true, false, OnOk, OnErr, if◌then◌else◌};
ghost use Rattle.gql_document.specs.TypeSystemDefinition.{type_system_definitions};

use crate::build::build_document;
use crate::executable_definitions::ExecutableDefinitions;
use crate::judged::judged;
use crate::type_system_definition::list_type_system_definitions;
use gql_ast::{Definition, Document};
use gql_diag::{DiagnosticData, DiagnosticList, WithErrors};
use gql_document_types::ExecutableDocument;
use gql_schema_types::Schema;
use gql_source::SourceMap;
use jb_text::{Listed, Memory, Refused};
use std::alloc::{AllocError, Global};

/// Builds an executable document of documents, against a schema. Clauses speak of what it has taken.
pub struct ExecutableDocumentBuilder<'s> {
    alloc: Global,
    schema: &'s Schema,
    sources: SourceMap,
    definitions: ExecutableDefinitions,
    faults: Listed<DiagnosticData>,
    refused: bool,
}

impl Drop for ExecutableDocumentBuilder<'_> {
    fn drop(self) {
        let ExecutableDocumentBuilder {
            alloc: _,
            schema: _,
            sources: _,
            definitions: _,
            faults: _,
            refused: _,
        } = self;
    }
}

impl<'s> ExecutableDocumentBuilder<'s> {
    ghost use Rattle.gql_document.specs.Builders as spec;

    /// A builder that has taken nothing. It takes no memory.
    #[must_use]
    pub fn new(alloc: Global, schema: &'s Schema) -> ExecutableDocumentBuilder<'s>
        ensures { spec.taken result ≡ spec.nothing_taken schema.now }
    {
        ExecutableDocumentBuilder {
            alloc,
            schema,
            sources: SourceMap::new(alloc),
            definitions: ExecutableDefinitions::new(alloc),
            faults: Listed::new(alloc),
            refused: false,
        }
    }

    /// Takes copies of a document's operations, fragments and files, and the faults and files of the list. A file whose
    /// number is taken is left out. Where `type_system_definitions_are_errors` is true, all other definitions are faults;
    /// else they are passed over. `Err` only when out of memory: then each further call of the builder is refused too.
    pub fn add_ast(
        &mut self,
        document: &Document,
        errors: DiagnosticList,
        type_system_definitions_are_errors: bool,
    ) -> Result<(), Memory>
        ensures taken { OnOk result (spec.taken self.new ≡ spec.with_document (spec.taken self.old) document.now errors type_system_definitions_are_errors) }
        ensures open { OnOk result ((spec.taken self.old).refused ≡ false) }
        ensures refused { OnErr result ((spec.taken self.new).refused ≡ true) }
    {
        if self.refused {
            return Err(AllocError);
        }
        let added = self.add_copy(document, errors, type_system_definitions_are_errors);
        self.refused = added.is_err();
        added
    }

    /// Takes a document as [`ExecutableDocumentBuilder::add_ast`] does, the definitions and files themselves in place of
    /// copies.
    pub fn take_ast(
        &mut self,
        document: Document,
        errors: DiagnosticList,
        type_system_definitions_are_errors: bool,
    ) -> Result<(), Memory>
        ensures taken { OnOk result (spec.taken self.new ≡ spec.with_document (spec.taken self.old) document errors type_system_definitions_are_errors) }
        ensures open { OnOk result ((spec.taken self.old).refused ≡ false) }
        ensures refused { OnErr result ((spec.taken self.new).refused ≡ true) }
    {
        if self.refused {
            return Err(AllocError);
        }
        let added = self.add_itself(document, errors, type_system_definitions_are_errors);
        self.refused = added.is_err();
        added
    }

    /// The document of all that was taken, with its files.
    ///
    /// Of operations of one name the first stays, and of fragments (GraphQL October 2021, sections 5.2.1.1 and 5.5.1.1); what
    /// is inside the others is not looked at. No more than the build is checked: the rules of documents are not.
    ///
    /// # Errors
    ///
    /// The faults that were taken and those of the build, sorted as [`DiagnosticList::sort`] does, exactly where there are
    /// any; beside them the document without what they list, but with each subscription whatever it selects at its root. Otherwise
    /// only when out of memory, and always after a call that was refused for it.
    pub fn build(self) -> Result<ExecutableDocument, Refused<WithErrors<ExecutableDocument>>>
        ensures { spec.IsAnswer (spec.taken self.entry) result }
    {
        let ExecutableDocumentBuilder {
            alloc,
            schema,
            sources,
            definitions,
            mut faults,
            refused,
        } = self;
        if refused {
            return Err(Refused::Memory);
        }
        let document = build_document(alloc, schema, sources, definitions, &mut faults)?;
        judged(alloc, document, faults)
    }

    /// Takes copies of a document's definitions and files, and the list.
    fn add_copy(
        &mut self,
        document: &Document,
        errors: DiagnosticList,
        type_system_definitions_are_errors: bool,
    ) -> Result<(), Memory>
        ensures { OnOk result (spec.taken self.new ≡ spec.with_document (spec.taken self.old) document.now errors type_system_definitions_are_errors) }
    {
        let alloc = self.alloc;
        errors.move_into(&mut self.sources, &mut self.faults)?;
        list_type_systems(
            alloc,
            type_system_definitions_are_errors,
            &document.definitions,
            &mut self.faults,
        )?;
        self.definitions.copy_all(alloc, &document.definitions)?;
        self.sources.merge(document.sources.copy(alloc)?)
    }

    /// Takes a document's definitions and files, and the list.
    fn add_itself(
        &mut self,
        document: Document,
        errors: DiagnosticList,
        type_system_definitions_are_errors: bool,
    ) -> Result<(), Memory>
        ensures { OnOk result (spec.taken self.new ≡ spec.with_document (spec.taken self.old) document errors type_system_definitions_are_errors) }
    {
        let alloc = self.alloc;
        let (sources, definitions) = document.into_parts();
        errors.move_into(&mut self.sources, &mut self.faults)?;
        list_type_systems(
            alloc,
            type_system_definitions_are_errors,
            &definitions,
            &mut self.faults,
        )?;
        self.definitions.take_all(definitions)?;
        self.sources.merge(sources)
    }
}

/// Lists definitions of type systems, where these are faults.
fn list_type_systems(
    alloc: Global,
    are_faults: bool,
    definitions: &Listed<Definition>,
    faults: &mut Listed<DiagnosticData>,
) -> Result<(), Memory>
    ensures { OnOk result (faults.new ≡ faults.old ++ (if are_faults then type_system_definitions definitions.now else [])) }
{
    if are_faults {
        list_type_system_definitions(alloc, definitions, faults)
    } else {
        Ok(())
    }
}
