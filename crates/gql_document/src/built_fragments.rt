//! The fragments of a document, made of those of its text.

ghost use Rattle.std.specs.Prelude.{◌≡◌, [], IfOk, OnOk, fold};
ghost use Rattle.gql_schema_types.specs.Entries.{put};
ghost use Rattle.gql_document.specs.Build as spec;
ghost use Rattle.gql_document_types.specs.RootFields.{fragment_name as built_name};

use crate::built_selections::built_set;
use crate::fragment_tree::FragmentTree;
use crate::type_kind::is_defined;
use gql_ast::FragmentDefinition;
use gql_ast_base::Copying;
use gql_document_types::Fragment;
use gql_schema_types::{Schema, Table};
use jb_text::{Listed, Memory};
use std::alloc::{AllocError, Global};

/// The fragments that distinct ones make: those whose conditions are defined.
pub(crate) fn built_fragments(
    alloc: Global,
    schema: &Schema,
    fragments: Table<FragmentTree>,
) -> Result<Table<Fragment>, Memory>
    ensures { IfOk result (λ made. made ≡ spec.built_fragments schema.now fragments) }
{
    put_all(alloc, schema, fragments.into_vec())
}

/// A table with what these fragments make.
fn put_all(
    alloc: Global,
    schema: &Schema,
    fragments: Vec<FragmentTree>,
) -> Result<Table<Fragment>, Memory>
    ensures { IfOk result (λ made. made ≡ fold (put built_name) [] (spec.built_fragments schema.now fragments.items)) }
{
    let mut made = Table::new(alloc);
    for fragment in fragments {
        add_fragment(alloc, schema, fragment.into_inner(), &mut made)?;
    }
    Ok(made)
}

/// Puts what a fragment makes into the table.
fn add_fragment(
    alloc: Global,
    schema: &Schema,
    fragment: FragmentDefinition,
    made: &mut Table<Fragment>,
) -> Result<(), Memory>
    ensures { OnOk result (made.new ≡ fold (put built_name) made.old (spec.built_fragment schema.now fragment)) }
{
    if is_defined(schema, &fragment.type_condition) {
        put_fragment(made, fragment_on(alloc, schema, fragment)?)
    } else {
        Ok(())
    }
}

/// Puts a fragment into the table.
fn put_fragment(made: &mut Table<Fragment>, fragment: Fragment) -> Result<(), Memory>
    ensures { OnOk result (made.new ≡ put built_name made.old fragment) }
{
    match made.insert(fragment) {
        Ok(_) => Ok(()),
        Err(_) => Err(AllocError),
    }
}

/// What a fragment makes, whose condition is defined.
fn fragment_on(
    alloc: Global,
    schema: &Schema,
    fragment: FragmentDefinition,
) -> Result<Fragment, Memory>
    ensures { IfOk result (λ made. made ≡ spec.fragment_on schema.now fragment) }
{
    let selection_set = built_set(
        alloc,
        schema,
        fragment.type_condition,
        fragment.selection_set,
    )?;
    Ok(Fragment {
        name: fragment.name,
        directives: fragment.directives,
        selection_set,
        location: fragment.location,
    })
}
