//! What the rows of types and directives stand for.

ghost use Rattle.std.specs.Prelude.{◌≡◌, IfOk};
ghost use Rattle.gql_schema.specs.Rows as spec;
ghost use Rattle.gql_schema.specs.bridge.Rows as spec_bridge;

use crate::built_in_making::{FromRow, all_of, name_at, span};
use crate::built_in_row::{DefinitionRow, DirectiveRow, EnumRow, ObjectRow, ScalarRow};
use crate::built_in_table::{arguments_at, fields_at, locations_at, values_at};
use gql_ast::{
    DirectiveDefinition, DirectiveLocation, EnumTypeDefinition, ObjectTypeDefinition,
    ScalarTypeDefinition,
};
use gql_ast_base::{Source, all_three, both};
use gql_schema_build::TypeDefinition;
use jb_text::{Listed, Memory};
use std::alloc::Global;

impl FromRow<ObjectRow> for ObjectTypeDefinition {
    ghost meaning = { spec.object_of };

    #[tactic(auto, unfolding(crate::specs::Rows::object_of))]
    fn of(source: &Source<'_>, row: &ObjectRow) -> Result<ObjectTypeDefinition, Memory> {
        let location = span(source.file_id, row.place)?;
        let rows = fields_at(row.fields)?;
        let (name, fields) = both(name_at(source, row.name), all_of(source, rows))?;
        Ok(ObjectTypeDefinition {
            description: None,
            name,
            implements_interfaces: Listed::new(source.alloc),
            directives: Listed::new(source.alloc),
            fields,
            location: Some(location),
        })
    }
}

impl FromRow<EnumRow> for EnumTypeDefinition {
    ghost meaning = { spec.enum_of };

    #[tactic(auto, unfolding(crate::specs::Rows::enum_of))]
    fn of(source: &Source<'_>, row: &EnumRow) -> Result<EnumTypeDefinition, Memory> {
        let location = span(source.file_id, row.place)?;
        let rows = values_at(row.values)?;
        let (name, values) = both(name_at(source, row.name), all_of(source, rows))?;
        Ok(EnumTypeDefinition {
            description: None,
            name,
            directives: Listed::new(source.alloc),
            values,
            location: Some(location),
        })
    }
}

impl FromRow<ScalarRow> for ScalarTypeDefinition {
    ghost meaning = { spec.scalar_of };

    #[tactic(auto, unfolding(crate::specs::Rows::scalar_of))]
    fn of(source: &Source<'_>, row: &ScalarRow) -> Result<ScalarTypeDefinition, Memory> {
        let location = span(source.file_id, row.place)?;
        let name = name_at(source, row.name)?;
        Ok(ScalarTypeDefinition {
            description: None,
            name,
            directives: Listed::new(source.alloc),
            location: Some(location),
        })
    }
}

impl FromRow<DefinitionRow> for TypeDefinition {
    ghost meaning = { spec_bridge.definition_of };

    fn of(source: &Source<'_>, row: &DefinitionRow) -> Result<TypeDefinition, Memory> {
        match row {
            DefinitionRow::Object(row) => {
                let made = ObjectTypeDefinition::of(source, row)?;
                Ok(TypeDefinition::Object(made))
            }
            DefinitionRow::Enum(row) => {
                let made = EnumTypeDefinition::of(source, row)?;
                Ok(TypeDefinition::Enum(made))
            }
            DefinitionRow::Scalar(row) => {
                let made = ScalarTypeDefinition::of(source, row)?;
                Ok(TypeDefinition::Scalar(made))
            }
        }
    }
}

/// A list of these places.
fn listed(alloc: Global, places: &[DirectiveLocation]) -> Result<Listed<DirectiveLocation>, Memory>
    ensures { IfOk result (λ made. made ≡ places.now) }
{
    let mut list = Listed::with_capacity(alloc, places.len())?;
    for place in places {
        list.push(*place)?;
    }
    Ok(list)
}

impl FromRow<DirectiveRow> for DirectiveDefinition {
    ghost meaning = { spec.directive_of };

    #[tactic(auto, unfolding(crate::specs::Rows::directive_of))]
    fn of(source: &Source<'_>, row: &DirectiveRow) -> Result<DirectiveDefinition, Memory> {
        let location = span(source.file_id, row.place)?;
        let (rows, places) = both(arguments_at(row.arguments), locations_at(row.locations))?;
        let (name, arguments, locations) = all_three(
            name_at(source, row.name),
            all_of(source, rows),
            listed(source.alloc, places),
        )?;
        Ok(DirectiveDefinition {
            description: None,
            name,
            arguments,
            repeatable: false,
            locations,
            location: Some(location),
        })
    }
}
