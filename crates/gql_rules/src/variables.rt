//! The variables of an operation, found by name.

ghost use Rattle.std.specs.Prelude.{◌≡◌, ◌++◌, ◌∷◌, [], None, List, ℕ, IfOk, OnOk};
ghost use Rattle.std.specs.Option.{option_copied, option_map};
ghost use Rattle.gql_schema_types.specs.Entries.{entry, put_new};
ghost use Rattle.gql_rules.specs.UndefinedVariable.{variable_name, variable_called};
ghost use Rattle.gql_rules.specs.bridge.UndefinedVariable.{first_variables};
ghost use Rattle.gql_rules.specs.bridge.Operations.{own_name, definition_of, definitions_of};

use gql_ast::VariableDefinition;
use gql_ast_base::Name;
use gql_schema_types::{ExtendedType, Named, Table};
use jb_text::{Listed, Memory};
use std::alloc::{AllocError, Global};

/// A variable that stands for its name.
#[derive(Drop)]
pub(crate) struct Variable<'d> {
    pub(crate) definition: &'d VariableDefinition,
}

impl<'d> Named for Variable<'d> {
    ghost own = { λ variable. variable.definition.now.name };

    fn own_name(&self) -> &Name {
        &self.definition.name
    }
}

/// The variables of an operation, of each name the first, found by hash, and the types of the schema.
#[derive(Drop)]
pub(crate) struct Variables<'d> {
    pub(crate) types: &'d Table<ExtendedType>,
    definitions: &'d Listed<VariableDefinition>,
    table: Table<Variable<'d>>,
    ghost known: { (name : List ℕ) → option_map definition_of (entry own_name name table) ≡ variable_called definitions.now name },
}

impl<'d> Variables<'d> {
    /// The variables with these definitions. `Err` only when out of memory.
    pub(crate) fn new(
        alloc: Global,
        types: &'d Table<ExtendedType>,
        definitions: &'d Listed<VariableDefinition>,
    ) -> Result<Variables<'d>, Memory>
        ensures types { IfOk result (λ made. made.types.now ≡ types.now) }
        ensures definitions { IfOk result (λ made. made.definitions.now ≡ definitions.now) }
    {
        let table = table_of(alloc, definitions)?;
        Ok(Variables {
            types,
            definitions,
            table,
        })
    }

    /// The variable of the name.
    pub(crate) fn get(&self, name: &str) -> Option<&'d VariableDefinition>
        ensures { option_copied result ≡ variable_called self.now.definitions.now name.now }
    {
        match self.table.get(name) {
            Some(variable) => Some(variable.definition),
            None => None,
        }
    }
}

/// These variables, of each name the first.
fn table_of<'d>(
    alloc: Global,
    definitions: &'d Listed<VariableDefinition>,
) -> Result<Table<Variable<'d>>, Memory>
    ensures { IfOk result (λ table. definitions_of table ≡ first_variables definitions.now) }
{
    let mut table = Table::new(alloc);
    for definition in definitions.as_slice() {
        note_variable(&mut table, definition)?;
    }
    Ok(table)
}

/// Adds a variable, if there is none of its name.
fn note_variable<'d>(
    table: &mut Table<Variable<'d>>,
    definition: &'d VariableDefinition,
) -> Result<(), Memory>
    ensures { OnOk result (definitions_of table.new ≡ put_new variable_name (definitions_of table.old) definition.now) }
{
    match table.find(definition.name.as_str()) {
        Some(_) => Ok(()),
        None => add(table, Variable { definition }),
    }
}

/// Adds a variable whose name is not there.
fn add<'d>(table: &mut Table<Variable<'d>>, variable: Variable<'d>) -> Result<(), Memory>
    requires { entry own_name (own_name variable).text table.old ≡ None }
    ensures { OnOk result (table.new ≡ table.old ++ variable.entry ∷ []) }
{
    match table.insert_new(variable) {
        Ok(()) => Ok(()),
        Err(_) => Err(AllocError),
    }
}
