//! Builders of schemas.

ghost use Rattle.std.specs.Prelude.{◌≡◌, ◌++◌, [], true, false, IfOk, OnOk, OnErr, if◌then◌else◌};
ghost use Rattle.gql_schema_build.specs.ExecutableDefinition.{executable_definitions};

use crate::built_in_schema::built_in;
use crate::judged::judged;
use gql_ast::{Definition, Document};
use gql_diag::{DiagnosticData, DiagnosticList, WithErrors};
use gql_schema_build::{BuiltIn, TypeSystem, build_schema, list_executable_definitions};
use gql_schema_types::Schema;
use gql_source::SourceMap;
use jb_text::{Listed, Memory, Refused};
use std::alloc::{AllocError, Global};

/// Builds a schema of documents. Clauses speak of what it has taken.
pub struct SchemaBuilder {
    alloc: Global,
    sources: SourceMap,
    built_in: BuiltIn,
    user: TypeSystem,
    faults: Listed<DiagnosticData>,
    ignores: bool,
    refused: bool,
}

impl Drop for SchemaBuilder {
    fn drop(self) {
        let SchemaBuilder {
            alloc: _,
            sources: _,
            built_in: _,
            user: _,
            faults: _,
            ignores: _,
            refused: _,
        } = self;
    }
}

impl SchemaBuilder {
    ghost use Rattle.gql_schema.specs.Builders as spec;
    ghost use Rattle.gql_schema.specs.BuiltInSchema as built_in;

    /// A builder that has taken the built-in definitions alone. `Err` only when out of memory.
    pub fn new(alloc: Global) -> Result<SchemaBuilder, Memory>
        ensures built_in { IfOk result (λ made. built_in.IsBuiltIn (spec.taken made).built_in) }
        ensures empty { IfOk result (λ made. spec.taken made ≡ spec.nothing_taken built_in.built_in_sources (spec.taken made).built_in) }
    {
        let (built_in, sources) = built_in(alloc)?;
        Ok(SchemaBuilder {
            alloc,
            sources,
            built_in,
            user: TypeSystem::new(alloc),
            faults: Listed::new(alloc),
            ignores: false,
            refused: false,
        })
    }

    /// The same builder, which passes over definitions of types whose names are built in: of built-in scalars and of the
    /// types of introspection. Else each such definition is a fault.
    #[must_use]
    pub fn ignore_builtin_redefinitions(self) -> SchemaBuilder
        ensures { spec.taken result ≡ record (spec.taken self) { ignores = true } }
    {
        let mut builder = self;
        builder.ignores = true;
        builder
    }

    /// Takes copies of a document's definitions and files, and the faults and files of the list. A file whose number is
    /// taken is left out. Where `executable_definitions_are_errors` is true, operations and fragments are faults; else they
    /// are passed over. `Err` only when out of memory: then each further call of the builder is refused too.
    pub fn add_ast(
        &mut self,
        document: &Document,
        errors: DiagnosticList,
        executable_definitions_are_errors: bool,
    ) -> Result<(), Memory>
        ensures taken { OnOk result (spec.taken self.new ≡ spec.with_document (spec.taken self.old) document.now errors executable_definitions_are_errors) }
        ensures open { OnOk result ((spec.taken self.old).refused ≡ false) }
        ensures refused { OnErr result ((spec.taken self.new).refused ≡ true) }
    {
        if self.refused {
            return Err(AllocError);
        }
        let added = self.add_copy(document, errors, executable_definitions_are_errors);
        self.refused = added.is_err();
        added
    }

    /// Takes a document as [`SchemaBuilder::add_ast`] does, the definitions and files themselves in place of copies.
    pub fn take_ast(
        &mut self,
        document: Document,
        errors: DiagnosticList,
        executable_definitions_are_errors: bool,
    ) -> Result<(), Memory>
        ensures taken { OnOk result (spec.taken self.new ≡ spec.with_document (spec.taken self.old) document errors executable_definitions_are_errors) }
        ensures open { OnOk result ((spec.taken self.old).refused ≡ false) }
        ensures refused { OnErr result ((spec.taken self.new).refused ≡ true) }
    {
        if self.refused {
            return Err(AllocError);
        }
        let added = self.add_itself(document, errors, executable_definitions_are_errors);
        self.refused = added.is_err();
        added
    }

    /// The schema of all that was taken.
    ///
    /// Extensions come after all definitions, in order. Of definitions of one name the first stays; a built-in directive
    /// is replaced in its place. Without a `schema` the object types `Query`, `Mutation` and `Subscription` are the root
    /// types (GraphQL October 2021, section 3.3.1).
    ///
    /// # Errors
    ///
    /// The faults that were taken and those of the build, sorted as [`DiagnosticList::sort`] does, exactly where there
    /// are any; beside them the schema without what they list. Otherwise only when out of memory, and always after a call that
    /// was refused for it.
    pub fn build(self) -> Result<Schema, Refused<WithErrors<Schema>>>
        ensures { spec.IsAnswer (spec.taken self) result }
    {
        let SchemaBuilder {
            alloc,
            sources,
            built_in,
            user,
            mut faults,
            ignores,
            refused,
        } = self;
        if refused {
            return Err(Refused::Memory);
        }
        let schema = build_schema(alloc, sources, ignores, built_in, user, &mut faults)?;
        judged(alloc, schema, faults)
    }

    /// Takes copies of a document's definitions and files, and the list.
    fn add_copy(
        &mut self,
        document: &Document,
        errors: DiagnosticList,
        executable_definitions_are_errors: bool,
    ) -> Result<(), Memory>
        ensures { OnOk result (spec.taken self.new ≡ spec.with_document (spec.taken self.old) document.now errors executable_definitions_are_errors) }
    {
        let alloc = self.alloc;
        errors.move_into(&mut self.sources, &mut self.faults)?;
        list_executable(
            alloc,
            executable_definitions_are_errors,
            &document.definitions,
            &mut self.faults,
        )?;
        self.user.copy_all(alloc, &document.definitions)?;
        self.sources.merge(document.sources.copy(alloc)?)
    }

    /// Takes a document's definitions and files, and the list.
    fn add_itself(
        &mut self,
        document: Document,
        errors: DiagnosticList,
        executable_definitions_are_errors: bool,
    ) -> Result<(), Memory>
        ensures { OnOk result (spec.taken self.new ≡ spec.with_document (spec.taken self.old) document errors executable_definitions_are_errors) }
    {
        let alloc = self.alloc;
        let (sources, definitions) = document.into_parts();
        errors.move_into(&mut self.sources, &mut self.faults)?;
        list_executable(
            alloc,
            executable_definitions_are_errors,
            &definitions,
            &mut self.faults,
        )?;
        self.user.take_all(definitions)?;
        self.sources.merge(sources)
    }
}

/// Lists operations and fragments, where these are faults.
fn list_executable(
    alloc: Global,
    are_faults: bool,
    definitions: &Listed<Definition>,
    faults: &mut Listed<DiagnosticData>,
) -> Result<(), Memory>
    ensures { OnOk result (faults.new ≡ faults.old ++ (if are_faults then executable_definitions definitions.now else [])) }
{
    if are_faults {
        list_executable_definitions(alloc, definitions, faults)
    } else {
        Ok(())
    }
}
