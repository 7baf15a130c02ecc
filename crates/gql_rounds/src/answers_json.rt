//! Answers, read from JSON.

ghost use Rattle.std.specs.Prelude.{◌≡◌, codes, option_map, IfErr, OnErr, OnOk, MatchOption};
ghost use Rattle.std.specs.List.{AllByRecursion};
ghost use Rattle.std.specs.Map.{lookup};
ghost use Rattle.std.specs.Option.{option_copied};
ghost use Rattle.std.specs.Str.{bytes_eq};
ghost use Rattle.gql_rounds.specs.ToldMeaning.{number_member as object_number};
ghost use Rattle.gql_resolvers.specs.DataMeaning.{text_member as member_text};
ghost use Rattle.gql_rounds.specs.Told as spec;
ghost use Rattle.gql_rounds.specs.Told.{HasAnswersFault, IsAnswer, IsFirstOther, LeavesTable, TellsAnswers, TellsFirst, TellsSome, all_told, told_answer};
ghost use Rattle.gql_rounds.specs.bridge.Told.{IsItemFault, arguments_seen, seen};

use crate::Answers;
use bytes::Bytes;
use jb_read::{ReadFault, from_bytes_whole};
use jb_text::{Memory, Refused};
use jb_tree::{Map, Value};
use std::alloc::Global;

/// Why a text tells no answers.
#[derive(Clone, Copy, Debug, PartialEq, Eq, Drop)]
pub enum AnswersFault {
    /// It is no JSON text: the first fault.
    Read(ReadFault),
    /// It is a JSON text of another value than a list.
    NotList,
    /// The first item that is no answer, by its index.
    NotAnswer { index: usize },
}

/// An answer: a value of a field of an object with these arguments.
#[derive(Clone, Copy)]
struct Answer<'v> {
    object: u64,
    field: &'v str,
    arguments: Option<&'v Map>,
    value: &'v Value,
}

/// Adds the answers that a JSON text tells, a list of `{"object":7,"field":"author","arguments":{},"value":null}`. Arguments may be left
/// out where there are none, and other members are not looked at. What was told before stays.
///
/// # Errors
///
/// - An [`AnswersFault`] exactly where the text tells no answers. The table is as it was.
/// - [`Refused::Memory`] when out of memory. The first of the answers may have been added, in their order, and nothing else was
///   changed. So the same text may be read again.
pub fn read_answers(
    alloc: Global,
    text: &Bytes,
    answers: &mut Answers,
) -> Result<(), Refused<AnswersFault>>
    ensures told { OnOk result (TellsAnswers text.now answers.old answers.new) }
    ensures refused { IfErr result (HasAnswersFault text.now) }
    ensures left { IfErr result (λ refused. LeavesTable (TellsSome text.now answers.old answers.new) refused answers.old answers.new) }
{
    match from_bytes_whole(alloc, text) {
        Ok(Value::Array(items)) => add_answers(alloc, items.as_slice(), answers),
        Ok(_) => Err(Refused::Fault(AnswersFault::NotList)),
        Err(Refused::Fault(fault)) => Err(Refused::Fault(AnswersFault::Read(fault))),
        Err(Refused::Memory) => Err(Refused::Memory),
    }
}

/// Adds the answers that these items are, unless one is none.
fn add_answers(
    alloc: Global,
    items: &[Value],
    answers: &mut Answers,
) -> Result<(), Refused<AnswersFault>>
    ensures told { OnOk result (AllByRecursion IsAnswer items.now × (answers.new ≡ all_told answers.old items.now)) }
    ensures refused { IfErr result (IsItemFault items.now) }
    ensures left { IfErr result (λ refused. LeavesTable (AllByRecursion IsAnswer items.now × TellsFirst items.now answers.old answers.new)
        refused answers.old answers.new) }
{
    match first_other(items) {
        Some(index) => Err(Refused::Fault(AnswersFault::NotAnswer { index })),
        None => Ok(tell_all(alloc, items, answers)?),
    }
}

/// The index of the first item that is no answer.
fn first_other(items: &[Value]) -> Option<usize>
    ensures { MatchOption result (AllByRecursion IsAnswer items.now) (IsFirstOther items.now) }
{
    for (index, item) in items.iter().enumerate() {
        if answer_in(item).is_none() {
            return Some(index);
        }
    }
    None
}

/// Tells the answers among these items. `Err` only when out of memory.
fn tell_all(alloc: Global, items: &[Value], answers: &mut Answers) -> Result<(), Memory>
    ensures told { OnOk result (answers.new ≡ all_told answers.old items.now) }
    ensures left { OnErr result (TellsFirst items.now answers.old answers.new) }
{
    for item in items {
        tell_item(alloc, item, answers)?;
    }
    Ok(())
}

/// Tells the answer that an item is, if it is one. `Err` only when out of memory.
fn tell_item(alloc: Global, item: &Value, answers: &mut Answers) -> Result<(), Memory>
    ensures told { OnOk result (answers.new ≡ told_answer answers.old (spec.answer_in item.now)) }
    ensures unchanged { OnErr result (answers.new ≡ answers.old) }
{
    let Some(answer) = answer_in(item) else {
        return Ok(());
    };
    let no_arguments = Map::new(alloc);
    let arguments = answer.arguments.unwrap_or(&no_arguments);
    let value = answer.value.copy(alloc)?;
    answers.tell(alloc, answer.object, answer.field, arguments, value)?;
    Ok(())
}

/// The answer that an item is.
fn answer_in(item: &Value) -> Option<Answer<'_>>
    ensures { option_map seen result ≡ spec.answer_in item.now }
{
    answer_of(item.as_object()?)
}

/// The answer of these members.
fn answer_of(members: &Map) -> Option<Answer<'_>>
    ensures { option_map seen result ≡ spec.answer_of members.now }
{
    match (
        number_member(members),
        text_member(members),
        arguments_in(members),
        members.get("value"),
    ) {
        (Some(object), Some(field), Some(arguments), Some(value)) => Some(Answer {
            object,
            field,
            arguments,
            value,
        }),
        _ => None,
    }
}

/// The number of the object.
fn number_member(members: &Map) -> Option<u64>
    ensures { result ≡ object_number (codes "object") members.now }
{
    members.get("object")?.as_u64()
}

/// The name of the field.
fn text_member(members: &Map) -> Option<&str>
    ensures { option_copied result ≡ member_text (codes "field") members.now }
{
    members.get("field")?.as_str()
}

/// The arguments that these members tell: none where they are left out, and `None` where they are no object.
fn arguments_in(members: &Map) -> Option<Option<&Map>>
    ensures { option_map arguments_seen result ≡ spec.arguments_in (lookup (bytes_eq (codes "arguments")) members.now) }
{
    match members.get("arguments") {
        Some(arguments) => Some(Some(arguments.as_object()?)),
        None => Some(None),
    }
}
