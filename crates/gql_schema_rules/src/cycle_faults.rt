//! What is told of names that lead back to themselves, and of chains of names that are too long.

ghost use Rattle.std.specs.Prelude.{◌≡◌, ◌++◌, ◌&&◌, List, OnOk};
ghost use Rattle.gql_rules_values.specs.Faults as told;
ghost use Rattle.gql_rules_values.specs.Written.{is_written};
ghost use Rattle.gql_diag_messages.specs.declared.diagnostic_data.DiagnosticData as item;
ghost use Rattle.gql_schema_rules.specs.CycleFaults as spec;

use gql_ast_base::Name;
use gql_diag_messages::{DiagnosticData, Rule};
use gql_graph::{is_marked, judge};
use gql_rules_values::{is_written, list_long_chain, list_name};
use gql_schema_types::Named;
use jb_text::{Listed, Memory};
use std::alloc::Global;

/// Judges a graph whose first nodes are these things, and tells of each what was found.
pub(crate) fn list_cycles<T: Named>(
    alloc: Global,
    rule: Rule,
    graph: &Listed<Listed<usize>>,
    named: usize,
    things: &[T],
    faults: &mut Listed<DiagnosticData>,
) -> Result<(), Memory>
    ensures { OnOk result ((told : List item.DiagnosticData) × spec.IsTold T.own rule graph.now named things.now told × (faults.new ≡ faults.old ++ told)) }
{
    let judged = judge(alloc, graph, named)?;
    list_judged(
        alloc,
        rule,
        judged.recursive.as_slice(),
        judged.long.as_slice(),
        things,
        faults,
    )
}

/// Tells of each thing what was found of its node.
fn list_judged<T: Named>(
    alloc: Global,
    rule: Rule,
    recursive: &[bool],
    long: &[bool],
    things: &[T],
    faults: &mut Listed<DiagnosticData>,
) -> Result<(), Memory>
    ensures { OnOk result (faults.new ≡ faults.old ++ spec.faults_from T.own rule recursive.now long.now 0 things.now) }
{
    let mut node = 0;
    for thing in things {
        let on_cycle = is_marked(recursive, node);
        let too_long = is_marked(long, node);
        list_thing(alloc, rule, on_cycle, too_long, thing.own_name(), faults)?;
        node += 1;
    }
    Ok(())
}

/// Tells what was found of one thing, if it is not built in.
fn list_thing(
    alloc: Global,
    rule: Rule,
    recursive: bool,
    long: bool,
    name: &Name,
    faults: &mut Listed<DiagnosticData>,
) -> Result<(), Memory>
    ensures { OnOk result (faults.new ≡ faults.old ++ spec.name_faults rule recursive long name.now) }
{
    list_recursive(alloc, rule, recursive, name, faults)?;
    list_long(long, name, faults)
}

fn list_recursive(
    alloc: Global,
    rule: Rule,
    recursive: bool,
    name: &Name,
    faults: &mut Listed<DiagnosticData>,
) -> Result<(), Memory>
    ensures { OnOk result (faults.new ≡ faults.old ++ told.only_if (recursive && is_written name.now.location) (told.name_fault rule name.now)) }
{
    if recursive && is_written(name.location()) {
        list_name(alloc, rule, name, faults)
    } else {
        Ok(())
    }
}

fn list_long(long: bool, name: &Name, faults: &mut Listed<DiagnosticData>) -> Result<(), Memory>
    ensures { OnOk result (faults.new ≡ faults.old ++ told.only_if (long && is_written name.now.location) (told.long_chain name.now)) }
{
    if long && is_written(name.location()) {
        list_long_chain(name, faults)
    } else {
        Ok(())
    }
}
