//! The types of all definitions and extensions.

ghost use Rattle.std.specs.Prelude.{◌≡◌, ◌++◌, [], IfOk, OnOk, fold, map};
ghost use Rattle.std.specs.List.{flat_map};
ghost use Rattle.std.specs.Map.{values_of};
ghost use Rattle.gql_schema_types.specs.Entries.{put};
ghost use Rattle.gql_schema_types.specs.Types.{type_name};
ghost use Rattle.gql_schema_build.specs.Built.{built, part_faults};
ghost use Rattle.gql_schema_build.specs.TypeTable as spec;

use crate::built::built;
use crate::merge::merge_all;
use crate::orphan_type_extension::list_orphan_type_extensions;
use crate::type_definition::TypeDefinition;
use crate::type_definition_collision::first_types;
use crate::type_extension::TypeExtension;
use crate::type_extension_kind_mismatch::list_kind_mismatches;
use gql_diag_messages::DiagnosticData;
use gql_schema_types::{ExtendedType, Named, Table};
use jb_map::Pairs;
use jb_text::{Listed, Memory};
use std::alloc::{AllocError, Global};

/// The types of all definitions and extensions, and the faults in these.
pub(crate) fn all_types(
    alloc: Global,
    definitions: Listed<TypeDefinition>,
    extensions: Listed<TypeExtension>,
    faults: &mut Listed<DiagnosticData>,
) -> Result<Table<ExtendedType>, Memory>
    ensures table { IfOk result (λ table. table ≡ spec.types definitions extensions) }
    ensures faults { OnOk result (faults.new ≡ faults.old ++ spec.type_faults definitions extensions) }
{
    let mut firsts = first_types(alloc, definitions, faults)?;
    list_orphan_type_extensions(alloc, &firsts, &extensions, faults)?;
    list_kind_mismatches(alloc, &firsts, &extensions, faults)?;
    merge_all(&mut firsts, extensions)?;
    built_types(alloc, firsts, faults)
}

/// The types of these definitions, and the faults in these.
fn built_types(
    alloc: Global,
    types: Pairs<TypeDefinition>,
    faults: &mut Listed<DiagnosticData>,
) -> Result<Table<ExtendedType>, Memory>
    ensures table { IfOk result (λ table. table ≡ fold (put type_name) [] (map built (values_of types))) }
    ensures faults { OnOk result (faults.new ≡ faults.old ++ flat_map part_faults (values_of types)) }
{
    let mut table = Table::with_capacity(alloc, types.len())?;
    for (_name, definition) in types {
        put_built(alloc, &mut table, definition, faults)?;
    }
    Ok(table)
}

/// Puts the type of a definition into the table.
fn put_built(
    alloc: Global,
    table: &mut Table<ExtendedType>,
    definition: TypeDefinition,
    faults: &mut Listed<DiagnosticData>,
) -> Result<(), Memory>
    ensures table { OnOk result (table.new ≡ put type_name table.old (built definition)) }
    ensures faults { OnOk result (faults.new ≡ faults.old ++ part_faults definition) }
{
    put(table, built(alloc, definition, faults)?)
}

/// Puts an entry into the table. `Err` only when out of memory.
pub(crate) fn put<T: Named + Drop>(table: &mut Table<T>, item: T) -> Result<(), Memory>
    ensures { OnOk result (table.new ≡ put T.own table.old item) }
{
    match table.insert(item) {
        Ok(_) => Ok(()),
        Err(_) => Err(AllocError),
    }
}
