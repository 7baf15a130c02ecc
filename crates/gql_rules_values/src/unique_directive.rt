//! A directive that is not repeatable stands once at a place (GraphQL October 2021, section 5.7.3).

ghost use Rattle.std.specs.Prelude.{◌≡◌, ◌++◌, OnOk};
ghost use Rattle.gql_rules_values.specs.UniqueDirective.{is_single, unique_directive};

use crate::seconds::{Counted, list_seconds};
use gql_ast::DirectiveDefinition;
use gql_ast_base::{Directive, Name};
use gql_diag_messages::{DiagnosticData, Rule};
use gql_schema_types::Table;
use jb_text::{Listed, Memory};
use std::alloc::Global;

/// The directives that may not be repeated, among these.
#[derive(Clone, Copy)]
struct Single<'s> {
    definitions: &'s Table<DirectiveDefinition>,
}

impl Counted for Single<'_> {
    ghost counts = { λ single. is_single single.definitions.now };

    fn counts(&self, name: &Name) -> bool {
        match self.definitions.get(name.as_str()) {
            Some(definition) => !definition.repeatable,
            None => false,
        }
    }
}

/// Lists each use at one place whose name came before there, if it may not be repeated.
pub(crate) fn list_unique_directive(
    alloc: Global,
    definitions: &Table<DirectiveDefinition>,
    directives: &[Directive],
    faults: &mut Listed<DiagnosticData>,
) -> Result<(), Memory>
    ensures { OnOk result (faults.new ≡ faults.old ++ unique_directive definitions.now directives.now) }
{
    let single = Single { definitions };
    list_seconds(alloc, Rule::UniqueDirective, &single, directives, faults)
}
