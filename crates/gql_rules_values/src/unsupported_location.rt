//! A directive stands where its definition allows it (GraphQL October 2021, section 5.7.2).

ghost use Rattle.std.specs.Prelude.{◌≡◌, ◌++◌, ◌∷◌, [], None, OnOk};
ghost use Rattle.gql_diag_messages.specs.declared.rule.Rule.TheVariants.{UnsupportedLocation};
ghost use Rattle.gql_rules_values.specs.Faults.{fault};
ghost use Rattle.gql_rules_values.specs.UnsupportedLocation as spec;

use crate::fault::list_fault;
use gql_ast::{DirectiveDefinition, DirectiveLocation};
use gql_ast_base::Directive;
use gql_diag_messages::{DiagnosticData, Rule};
use gql_source::SourceSpan;
use jb_text::{Listed, Memory};
use std::alloc::Global;

/// Lists a use of a directive where its definition does not allow it.
pub(crate) fn list_unsupported_location(
    alloc: Global,
    definition: &DirectiveDefinition,
    location: DirectiveLocation,
    used: &Directive,
    faults: &mut Listed<DiagnosticData>,
) -> Result<(), Memory>
    ensures { OnOk result (faults.new ≡ faults.old ++ spec.unsupported_location definition.now location used.now) }
{
    if allows(definition.locations.as_slice(), location) {
        Ok(())
    } else {
        list_misplaced(
            alloc,
            used.name.as_str(),
            location.name(),
            used.location,
            faults,
        )
    }
}

/// Lists a directive that is not allowed at such a location.
fn list_misplaced<'s>(
    alloc: Global,
    name: &'s str,
    location: &'s str,
    place: Option<SourceSpan>,
    faults: &mut Listed<DiagnosticData>,
) -> Result<(), Memory>
    ensures { OnOk result (faults.new ≡ faults.old ++ fault UnsupportedLocation (name.now ∷ location.now ∷ []) place None ∷ []) }
{
    list_fault(
        alloc,
        Rule::UnsupportedLocation,
        &[name, location],
        place,
        None,
        faults,
    )
}

/// Whether the location is one of these.
fn allows(locations: &[DirectiveLocation], location: DirectiveLocation) -> bool
    ensures { result ≡ spec.allows locations.now location }
{
    locations
        .iter()
        .any(|known| location.name() == known.name())
}
