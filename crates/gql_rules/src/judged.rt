//! Uses of variables, judged for operations one after another.

ghost use Rattle.std.specs.Prelude.{◌≡◌, ◌++◌, fold, IfOk, OnOk};
ghost use Rattle.gql_rules.specs.bridge.Judged as spec;
ghost use Rattle.gql_rules.specs.bridge.Operations.{with_use};
ghost use Rattle.gql_rules.specs.bridge.Views as seen;

use crate::disallowed_variable_usage::{list_disallowed_usage, misfit};
use crate::one_of_variable::{is_nullable, list_one_of_variable};
use crate::undefined_variable::list_undefined_variable;
use crate::uses::Use;
use crate::variables::Variables;
use gql_ast::VariableDefinition;
use gql_ast_base::TypeRef;
use gql_diag_messages::DiagnosticData;
use gql_schema_types::{ExtendedType, Table};
use jb_map::KeyTable;
use jb_text::{Listed, Memory};
use std::alloc::Global;

/// A use; whether some operation lacks its variable; the variable's type in the first operation in which it is not allowed; and
/// whether the variable may be null in some operation.
#[derive(Drop)]
pub(crate) struct JudgedUse<'d> {
    used: Use<'d>,
    undefined: bool,
    variable: Option<&'d TypeRef>,
    nullable: bool,
}

/// These uses, judged for no operation.
pub(crate) fn fresh_row<'d>(
    alloc: Global,
    uses: Listed<Use<'d>>,
) -> Result<Listed<JudgedUse<'d>>, Memory>
    ensures { IfOk result (λ row. seen.row_of row ≡ spec.fresh_row (seen.uses_of uses.entry)) }
{
    let mut row = Listed::new(alloc);
    for used in uses {
        row.push(JudgedUse {
            used,
            undefined: false,
            variable: None,
            nullable: false,
        })?;
    }
    Ok(row)
}

/// Judges uses for an operation with these variables too, and notes the names that they use.
pub(crate) fn judge_row<'d>(
    alloc: Global,
    variables: &Variables<'d>,
    row: Listed<JudgedUse<'d>>,
    names: &mut KeyTable,
) -> Result<Listed<JudgedUse<'d>>, Memory>
    ensures judged { IfOk result (λ judged. seen.row_of judged ≡ spec.row_judged variables.now.types.now variables.now.definitions.now (seen.row_of row.entry)) }
    ensures names { OnOk result (names.new ≡ fold with_use names.old (seen.row_of row.entry)) }
{
    let mut judged = Listed::new(alloc);
    for mut it in row {
        note_name(alloc, &it, names)?;
        judge(variables, &mut it);
        judged.push(it)?;
    }
    Ok(judged)
}

/// Notes the name of the variable that is used.
fn note_name(alloc: Global, it: &JudgedUse<'_>, names: &mut KeyTable) -> Result<(), Memory>
    ensures { OnOk result (names.new ≡ with_use names.old (seen.judged_of it.now)) }
{
    match names.find(it.used.name.as_str()) {
        Some(_) => Ok(()),
        None => names.push(alloc, it.used.name.as_str()),
    }
}

/// Judges a use for an operation with these variables too.
fn judge<'d>(variables: &Variables<'d>, it: &mut JudgedUse<'d>)
    ensures { seen.judged_of it.new ≡ spec.judged_in variables.now.types.now variables.now.definitions.now (seen.judged_of it.old) }
{
    match variables.get(it.used.name.as_str()) {
        Some(variable) => judge_defined(variables.types, variable, it),
        None => it.undefined = true,
    }
}

/// Judges a use for an operation that defines its variable so.
fn judge_defined<'d>(
    types: &Table<ExtendedType>,
    variable: &'d VariableDefinition,
    it: &mut JudgedUse<'d>,
)
    ensures { seen.judged_of it.new ≡ spec.judged_with types.now variable.now (seen.judged_of it.old) }
{
    it.nullable = it.nullable || is_nullable(variable);
    note_misfit(types, variable, it);
}

/// Notes the type of a variable that is defined so, if it may not stand there, and none was noted before.
fn note_misfit<'d>(
    types: &Table<ExtendedType>,
    variable: &'d VariableDefinition,
    it: &mut JudgedUse<'d>,
)
    ensures { seen.judged_of it.new ≡ spec.with_misfit types.now variable.now (seen.judged_of it.old) }
{
    if it.variable.is_none() {
        it.variable = misfit(types, &it.used.place, variable);
    }
}

/// Lists what is wrong with these uses.
pub(crate) fn list_row(
    alloc: Global,
    row: &[JudgedUse<'_>],
    faults: &mut Listed<DiagnosticData>,
) -> Result<(), Memory>
    ensures { OnOk result (faults.new ≡ faults.old ++ spec.row_told (seen.row_of row.now)) }
{
    for it in row {
        list_use(alloc, it, faults)?;
    }
    Ok(())
}

/// Lists what is wrong with a use.
fn list_use(
    alloc: Global,
    it: &JudgedUse<'_>,
    faults: &mut Listed<DiagnosticData>,
) -> Result<(), Memory>
    ensures { OnOk result (faults.new ≡ faults.old ++ spec.told (seen.judged_of it.now)) }
{
    list_undefined_variable(alloc, it.undefined, &it.used, faults)?;
    list_disallowed_usage(alloc, it.variable, &it.used, faults)?;
    list_one_of_variable(alloc, it.nullable, &it.used, faults)
}
