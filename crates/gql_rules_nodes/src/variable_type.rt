//! The type of a variable is defined (GraphQL October 2021, sections 3.3 and 5.8.2): what the rule UndefinedDefinition says of
//! documents.

ghost use Rattle.std.specs.Prelude.{◌≡◌, ◌++◌, OnOk};
ghost use Rattle.gql_rules_nodes.specs.VariableType as spec;

use gql_ast::VariableDefinition;
use gql_ast_base::Name;
use gql_diag_messages::{DiagnosticData, Rule};
use gql_rules_values::{Defined, is_defined, list_name};
use gql_schema_types::{ExtendedType, Table};
use jb_text::{Listed, Memory};
use std::alloc::Global;

/// Lists the name of a variable's type, if no type of the name is defined.
pub(crate) fn list_undefined_variable_type(
    alloc: Global,
    types: &Table<ExtendedType>,
    variable: &VariableDefinition,
    faults: &mut Listed<DiagnosticData>,
) -> Result<(), Memory>
    ensures { OnOk result (faults.new ≡ faults.old ++ spec.undefined_variable_type types.now variable.now) }
{
    list_unless_defined(alloc, types, variable.ty.inner_named_type(), faults)
}

/// Lists a name, if no type of the name is defined.
fn list_unless_defined(
    alloc: Global,
    types: &Table<ExtendedType>,
    name: &Name,
    faults: &mut Listed<DiagnosticData>,
) -> Result<(), Memory>
    ensures { OnOk result (faults.new ≡ faults.old ++ spec.unless_defined types.now name.now) }
{
    if is_defined(Defined::Types, types, name.as_str()) {
        Ok(())
    } else {
        list_name(alloc, Rule::UndefinedDefinition, name, faults)
    }
}
