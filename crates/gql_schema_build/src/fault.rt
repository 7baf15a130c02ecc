//! Faults of building a schema, as diagnostics.

ghost use Rattle.std.specs.Prelude.{◌≡◌, ◌++◌, [], ◌∷◌, OnOk};
ghost use Rattle.gql_schema_build.specs.Faults as spec;

use gql_ast_base::Name;
use gql_diag_messages::{DiagnosticData, Rule, list_fault};
use gql_source::SourceSpan;
use jb_text::{Listed, Memory};
use std::alloc::Global;

/// Lists a broken rule whose message tells no name. `Err` only when out of memory.
pub(crate) fn list_nameless(
    alloc: Global,
    rule: Rule,
    location: Option<SourceSpan>,
    other: Option<SourceSpan>,
    faults: &mut Listed<DiagnosticData>,
) -> Result<(), Memory>
    ensures { OnOk result (faults.new ≡ faults.old ++ spec.fault rule [] location other ∷ []) }
{
    list_fault(alloc, rule, &[], location, other, faults)
}

/// Lists a broken rule whose message tells this word. `Err` only when out of memory.
pub(crate) fn list_word(
    alloc: Global,
    rule: Rule,
    word: &str,
    location: Option<SourceSpan>,
    other: Option<SourceSpan>,
    faults: &mut Listed<DiagnosticData>,
) -> Result<(), Memory>
    ensures { OnOk result (faults.new ≡ faults.old ++ spec.fault rule (word.now ∷ []) location other ∷ []) }
{
    list_fault(alloc, rule, &[word], location, other, faults)
}

/// Lists a rule that what has this name breaks. `Err` only when out of memory.
pub(crate) fn list_name(
    alloc: Global,
    rule: Rule,
    name: &Name,
    other: Option<SourceSpan>,
    faults: &mut Listed<DiagnosticData>,
) -> Result<(), Memory>
    ensures { OnOk result (faults.new ≡ faults.old ++ spec.name_fault rule name.now other ∷ []) }
{
    list_word(alloc, rule, name.as_str(), name.location(), other, faults)
}

/// Lists that a part of an owner has the name of one that came before.
pub(crate) fn list_collision(
    alloc: Global,
    rule: Rule,
    owner: &str,
    second: &Name,
    first: &Name,
    faults: &mut Listed<DiagnosticData>,
) -> Result<(), Memory>
    ensures { OnOk result (faults.new ≡ faults.old ++ spec.collision rule owner.now second.now first.now ∷ []) }
{
    let names = [owner, second.as_str()];
    list_fault(
        alloc,
        rule,
        &names,
        second.location(),
        first.location(),
        faults,
    )
}
