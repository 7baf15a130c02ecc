//! Faults of building a document, as diagnostics.

ghost use Rattle.std.specs.Prelude.{◌≡◌, ◌++◌, [], ◌∷◌, OnOk};
ghost use Rattle.gql_document.specs.Faults as spec;

use gql_ast::OperationDefinition;
use gql_ast_base::Name;
use gql_diag_messages::{DiagnosticData, Rule, list_fault};
use gql_source::SourceSpan;
use jb_text::{Listed, Memory};
use std::alloc::Global;

/// Lists a broken rule whose messages tell no name.
pub(crate) fn list_nameless(
    alloc: Global,
    rule: Rule,
    location: Option<SourceSpan>,
    faults: &mut Listed<DiagnosticData>,
) -> Result<(), Memory>
    ensures { OnOk result (faults.new ≡ faults.old ++ spec.fault rule [] location None ∷ []) }
{
    list_fault(alloc, rule, &[], location, None, faults)
}

/// Lists a broken rule whose messages tell this word.
pub(crate) fn list_word(
    alloc: Global,
    rule: Rule,
    word: &str,
    location: Option<SourceSpan>,
    other: Option<SourceSpan>,
    faults: &mut Listed<DiagnosticData>,
) -> Result<(), Memory>
    ensures { OnOk result (faults.new ≡ faults.old ++ spec.fault rule (word.now ∷ []) location other ∷ []) }
{
    list_fault(alloc, rule, &[word], location, other, faults)
}

/// Lists a broken rule whose messages tell these two words.
pub(crate) fn list_words(
    alloc: Global,
    rule: Rule,
    one: &str,
    two: &str,
    location: Option<SourceSpan>,
    faults: &mut Listed<DiagnosticData>,
) -> Result<(), Memory>
    ensures { OnOk result (faults.new ≡ faults.old ++ spec.fault rule (one.now ∷ two.now ∷ []) location None ∷ []) }
{
    list_fault(alloc, rule, &[one, two], location, None, faults)
}

/// Lists a rule that what has this name breaks.
pub(crate) fn list_name(
    alloc: Global,
    rule: Rule,
    name: &Name,
    other: Option<SourceSpan>,
    faults: &mut Listed<DiagnosticData>,
) -> Result<(), Memory>
    ensures { OnOk result (faults.new ≡ faults.old ++ spec.name_fault rule name.now other ∷ []) }
{
    list_word(alloc, rule, name.as_str(), name.location(), other, faults)
}

/// The name that messages tell of an operation: empty where it has none.
pub(crate) fn operation_text(operation: &OperationDefinition) -> &str
    ensures { result.now ≡ spec.operation_text operation.now }
{
    match &operation.name {
        Some(name) => name.as_str(),
        None => "",
    }
}
