//! The validation of documents without a schema.

ghost use Rattle.std.specs.Prelude.{◌≡◌, OnOk, OnErr};
ghost use Rattle.gql_rules.specs.StandaloneFaults.{HasListedAllUntyped, HasListedSomeUntyped};

use crate::untyped_faults::list_untyped_faults;
use gql_ast::Document;
use gql_diag::{DiagnosticList, take_faults};
use jb_text::Memory;
use std::alloc::Global;

/// Lists what is wrong with a document whatever the schema, as far as the rules that ask for none tell (GraphQL October 2021,
/// section 5): one diagnostic for each fault of each of these rules, and none else, in the order of lists.
///
/// First come definitions of a type system, operations without a name among several, and second operations or fragments of a
/// name. Only where there are none come spreads that lead nowhere, back or through more than 32 names. Only where there are none of
/// these either come fragments that are not used, second variables and second arguments of a name, and variables that are not used
/// or not defined.
///
/// `Err` only when out of memory: then the list has some of the faults.
pub fn validate_standalone(
    alloc: Global,
    document: &Document,
    errors: &mut DiagnosticList,
) -> Result<(), Memory>
    ensures faults { OnOk result (HasListedAllUntyped document.now errors.old.items errors.new.items) }
    ensures sources { errors.new.sources ≡ errors.old.sources }
    ensures some { OnErr result (HasListedSomeUntyped document.now errors.old.items errors.new.items) }
{
    let faults = list_untyped_faults(alloc, &document.definitions)?;
    take_faults(faults, errors)
}
