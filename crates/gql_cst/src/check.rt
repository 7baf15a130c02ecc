//! Tells of a whole text whether it is a sentence, and makes no tree.

ghost use Rattle.std.specs.Prelude.{◌≡◌, true, IfOk, is_some};
ghost use Rattle.gql_cst.specs.Checked.{IsChecked};
ghost use Rattle.gql_cst.specs.Sentences.{root_kind};
ghost use Rattle.gql_grammar.specs.Row as rows;
ghost use Rattle.gql_grammar.specs.Rule.{kind_of};

use crate::drive::read_text;
use crate::made::Made;
use crate::nothing::Nothing;
use crate::{Checked, Limits, Memory};
use gql_grammar::Rule;
use std::alloc::Global;

/// What is told of the text as far as it can be read by the rule.
fn check(alloc: Global, start: Rule, text: &str, limits: &Limits) -> Result<Checked, Memory>
    requires starts { is_some (kind_of start) ≡ true }
    requires root { rows.level (root_kind start) ≡ 0 }
    ensures { IfOk result (IsChecked start text.now limits.now) }
{
    let Made {
        out: _,
        error,
        recursion_reached,
        tokens_reached,
    } = read_text(alloc, start, text, limits, Nothing {})?;
    Ok(Checked {
        error,
        recursion_reached,
        tokens_reached,
    })
}

/// What [`parse_document`](crate::parse_document) tells of a text, but for its tree, which is not made (Document, GraphQL
/// October 2021, section 2.2).
///
/// `Err` only when out of memory. The memory that is needed grows with the nesting of the text, and not with its length.
pub fn check_document(alloc: Global, text: &str, limits: &Limits) -> Result<Checked, Memory>
    ensures { IfOk result (IsChecked Rule.Document text.now limits.now) }
{
    check(alloc, Rule::Document, text, limits)
}

/// What [`parse_selection_set`](crate::parse_selection_set) tells of a text, but for its tree (SelectionSet, GraphQL October
/// 2021, section 2.4). `Err` only when out of memory.
pub fn check_selection_set(alloc: Global, text: &str, limits: &Limits) -> Result<Checked, Memory>
    ensures { IfOk result (IsChecked Rule.FieldSet text.now limits.now) }
{
    check(alloc, Rule::FieldSet, text, limits)
}

/// What [`parse_type`](crate::parse_type) tells of a text, but for its tree (Type, GraphQL October 2021, section 2.11). `Err`
/// only when out of memory.
pub fn check_type(alloc: Global, text: &str, limits: &Limits) -> Result<Checked, Memory>
    ensures { IfOk result (IsChecked Rule.TypeReference text.now limits.now) }
{
    check(alloc, Rule::TypeReference, text, limits)
}
