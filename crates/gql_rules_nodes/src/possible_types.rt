//! The object types that are possible where a type is (GraphQL October 2021, section 5.5.2.3), in a table.

ghost use Rattle.std.specs.Prelude.{◌≡◌, ℕ, List, is_some, position, IfOk, OnOk};
ghost use Rattle.std.specs.List.{list_any};
ghost use Rattle.std.specs.Map.{lookup};
ghost use Rattle.std.specs.Str.{bytes_eq};
ghost use Rattle.gql_schema_types.specs.Implementers.{implementers_of};
ghost use Rattle.gql_schema_types.specs.declared.types.ExtendedType.{ExtendedType as TypeOf};
ghost use Rattle.gql_rules_nodes.specs.PossibleTable.{ArePossibleIn};
ghost use Rattle.gql_rules_nodes.specs.PossibleTypes as spec;
ghost use Rattle.gql_rules_nodes.specs.Seen.{with_name};

use gql_ast_base::Name;
use gql_schema_types::{ExtendedType, ImplementersMap, Schema};
use jb_map::KeyTable;
use jb_text::{Listed, Memory};
use std::alloc::Global;
use std::slice;

/// Which object types are possible for each type of a schema, found by hash, and which types implement each of its interfaces. It
/// follows from the types of the schema alone, so one table serves every document.
#[derive(Drop)]
pub struct PossibleTypes {
    pub(crate) implementers: ImplementersMap,
    pub(crate) tables: Listed<KeyTable>,
}

impl PossibleTypes {
    /// The possible types of a schema, in time and memory that are linear in its types. `Err` only when out of memory.
    pub fn new(alloc: Global, schema: &Schema) -> Result<PossibleTypes, Memory>
        ensures { IfOk result (ArePossibleIn schema.now.types) }
    {
        let implementers = schema.implementers_map(alloc)?;
        let tables = possible_tables(alloc, schema.types.as_slice(), &implementers)?;
        Ok(PossibleTypes {
            implementers,
            tables,
        })
    }

    /// Which types implement each interface.
    #[must_use]
    pub fn implementers_map(&self) -> &ImplementersMap
        ensures { (types : List TypeOf) → ArePossibleIn types self.now
            → (name : List ℕ) → lookup (bytes_eq name) result.now ≡ implementers_of name types }
    {
        &self.implementers
    }
}

/// The names of the objects that are possible for a type, by those that implement each interface.
pub(crate) fn names_of<'s>(implementers: &'s ImplementersMap, ty: &'s ExtendedType) -> &'s [Name]
    ensures { result.now ≡ spec.names_in implementers.now ty.now }
{
    match ty {
        ExtendedType::Object(it) => slice::from_ref(&it.name),
        ExtendedType::Interface(it) => objects_of(implementers, &it.name),
        ExtendedType::Union(it) => it.members.as_slice(),
        _ => &[],
    }
}

/// The names of the objects that implement the interface of the name.
fn objects_of<'s>(implementers: &'s ImplementersMap, name: &Name) -> &'s [Name]
    ensures { result.now ≡ spec.objects_in implementers.now name.now }
{
    match implementers.get(name.as_str()) {
        Some(found) => found.objects.as_slice(),
        None => &[],
    }
}

/// For each type a table of the names of its possible objects.
fn possible_tables(
    alloc: Global,
    types: &[ExtendedType],
    implementers: &ImplementersMap,
) -> Result<Listed<KeyTable>, Memory>
    ensures { IfOk result (λ tables. tables ≡ spec.tables_in implementers.now types.now) }
{
    let mut tables = Listed::new(alloc);
    for ty in types {
        tables.push(table_of(alloc, names_of(implementers, ty))?)?;
    }
    Ok(tables)
}

/// A table of these names.
fn table_of(alloc: Global, names: &[Name]) -> Result<KeyTable, Memory>
    ensures { IfOk result (λ table. table ≡ spec.distinct_texts names.now) }
{
    let mut table = KeyTable::new(alloc);
    for name in names {
        note_name(alloc, &mut table, name)?;
    }
    Ok(table)
}

/// Adds a name to a table, unless it is there.
fn note_name(alloc: Global, table: &mut KeyTable, name: &Name) -> Result<(), Memory>
    ensures { OnOk result (table.new ≡ with_name table.old name.now) }
{
    match table.find(name.as_str()) {
        Some(_) => Ok(()),
        None => table.push(alloc, name.as_str()),
    }
}

/// Whether one of the names is in the table.
pub(crate) fn is_any_in(names: &[Name], table: &KeyTable) -> bool
    ensures { result ≡ list_any (λ name. is_some (position (bytes_eq name.text) table.now)) names.now }
{
    names.iter().any(|name| table.find(name.as_str()).is_some())
}
