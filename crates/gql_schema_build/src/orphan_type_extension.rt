//! A type that is extended is defined (GraphQL October 2021, sections 3.5.6, 3.6.3, 3.7.1, 3.8.1, 3.9.1 and 3.10.1).

ghost use Rattle.std.specs.Prelude.{◌≡◌, ◌++◌, OnOk};
ghost use Rattle.std.specs.List.{flat_map};
ghost use Rattle.gql_schema_build.specs.OrphanTypeExtension as spec;

use crate::fault::list_name;
use crate::type_definition::TypeDefinition;
use crate::type_extension::TypeExtension;
use gql_diag_messages::{DiagnosticData, Rule};
use gql_schema_types::Named;
use jb_map::Pairs;
use jb_text::{Listed, Memory};
use std::alloc::Global;

/// Lists each extension of a type that is not defined.
pub(crate) fn list_orphan_type_extensions(
    alloc: Global,
    types: &Pairs<TypeDefinition>,
    extensions: &Listed<TypeExtension>,
    faults: &mut Listed<DiagnosticData>,
) -> Result<(), Memory>
    ensures { OnOk result (faults.new ≡ faults.old ++ flat_map (spec.orphan_type_extension types.now) extensions.now) }
{
    for extension in extensions.as_slice() {
        list_orphan(alloc, types, extension, faults)?;
    }
    Ok(())
}

/// Lists an extension if its type is not defined.
fn list_orphan(
    alloc: Global,
    types: &Pairs<TypeDefinition>,
    extension: &TypeExtension,
    faults: &mut Listed<DiagnosticData>,
) -> Result<(), Memory>
    ensures { OnOk result (faults.new ≡ faults.old ++ spec.orphan_type_extension types.now extension.now) }
{
    let name = extension.own_name();
    match types.get(name.as_str()) {
        Some(_) => Ok(()),
        None => list_name(alloc, Rule::OrphanTypeExtension, name, None, faults),
    }
}
