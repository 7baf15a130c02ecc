//! Literals by themselves as JSON values.

ghost use Rattle.std.specs.Prelude.{◌≡◌, [], Ok, true, map};
ghost use Rattle.std.specs.Str.{bytes_eq};
ghost use Rattle.std.specs.Str.Parse.{digits_value, signed_digits_value, starts_with_minus, without_leading_plus, without_leading_sign};
ghost use Rattle.indexmap.specs.IndexMap.{insert_all};
ghost use Rattle.jb_text.specs.Numeral.{is_numeral};
ghost use Rattle.jb_tree.specs.declared.value.Value.{String as JsonString, Array, Object};
ghost use Rattle.gql_coerce.specs.Outcome.{Answers, mapped, all_of};
ghost use Rattle.gql_coerce.specs.bridge.Subject.{subject_text};
ghost use Rattle.gql_coerce.specs.Translation.{translated, translated_kind, whole_of, number_or, signed_within, unsigned_within};
ghost use Rattle.gql_coerce.specs.bridge.Translation.{translated_member};

use crate::fault::{CoercionFault, refuse, suspect};
use crate::messages::{float_overflow, int_overflow, variable_in_default};
use crate::outcome::put;
use crate::subject::Subject;
use gql_ast_base::{Name, Value as Literal, ValueKind};
use gql_source::SourceSpan;
use jb_text::{Listed, Number, Refused, is_numeral, without_sign};
use jb_tree::{Map, Value};
use std::alloc::Global;

/// What the literal stands for.
#[cycle(translate)]
pub(crate) fn translate(
    alloc: Global,
    literal: &Literal,
    subject: &Subject<'_>,
) -> Result<Value, Refused<CoercionFault>>
    ensures { Answers (translated (subject_text subject.now) literal.now) result }
{
    translate_kind(alloc, &literal.kind, literal.location, subject)
}

#[cycle(translate)]
fn translate_kind(
    alloc: Global,
    kind: &ValueKind,
    place: Option<SourceSpan>,
    subject: &Subject<'_>,
) -> Result<Value, Refused<CoercionFault>>
    ensures { Answers (translated_kind (subject_text subject.now) kind.now place) result }
{
    match kind {
        ValueKind::Null => Ok(Value::Null),
        ValueKind::Variable(_) => suspect(variable_in_default(alloc, subject), place),
        ValueKind::Int(number) => translate_int(alloc, number.as_str(), place, subject),
        ValueKind::Float(_) => refuse(float_overflow(alloc, subject), place),
        ValueKind::String(text) => string(alloc, text.as_str()),
        ValueKind::Boolean(truth) => Ok(Value::Bool(*truth)),
        ValueKind::Enum(name) => string(alloc, name.as_str()),
        ValueKind::List(items) => translate_items(alloc, items, subject),
        ValueKind::Object(members) => translate_members(alloc, members, subject),
    }
}

fn string(alloc: Global, text: &str) -> Result<Value, Refused<CoercionFault>>
    ensures { Answers (Ok (JsonString text.now)) result }
{
    Ok(Value::from_text(alloc, text)?)
}

fn translate_int(
    alloc: Global,
    digits: &str,
    place: Option<SourceSpan>,
    subject: &Subject<'_>,
) -> Result<Value, Refused<CoercionFault>>
    ensures { Answers (number_or (whole_of digits.now) (subject_text subject.now) place) result }
{
    match whole_of(digits) {
        Some(number) => Ok(Value::Number(number)),
        None => refuse(int_overflow(alloc, subject), place),
    }
}

#[cycle(translate)]
fn translate_items(
    alloc: Global,
    items: &Listed<Literal>,
    subject: &Subject<'_>,
) -> Result<Value, Refused<CoercionFault>>
    ensures { Answers (mapped Array (all_of (map (translated (subject_text subject.now)) items.now))) result }
{
    let mut made = Listed::new(alloc);
    for item in items.as_slice() {
        match translate(alloc, item, subject) {
            Ok(value) => made.push(value)?,
            Err(refused) => return Err(refused),
        }
    }
    Ok(Value::Array(made))
}

#[cycle(translate)]
fn translate_members(
    alloc: Global,
    members: &Listed<(Name, Literal)>,
    subject: &Subject<'_>,
) -> Result<Value, Refused<CoercionFault>>
    ensures { Answers (mapped (λ pairs. Object (insert_all bytes_eq [] pairs)) (all_of (map (translated_member (subject_text subject.now)) members.now))) result }
{
    let mut made = Map::new(alloc);
    for member in members.as_slice() {
        match translate(alloc, &member.1, subject) {
            Ok(value) => put(alloc, &mut made, member.0.as_str(), Some(value))?,
            Err(refused) => return Err(refused),
        }
    }
    Ok(Value::Object(made))
}

/// The number that digits write behind a sign or alone, where a JSON number may be it.
fn whole_of(digits: &str) -> Option<Number>
    ensures { result ≡ whole_of digits.now }
{
    if !is_numeral(without_sign(digits.as_bytes())) {
        return None;
    }
    if is_below_zero(digits.as_bytes()) {
        return signed(digits);
    }
    unsigned(digits)
}

fn signed(digits: &str) -> Option<Number>
    requires { is_numeral (without_leading_sign digits.now) ≡ true }
    ensures { result ≡ signed_within (signed_digits_value 10 digits.now) }
{
    match digits.parse::<i64>() {
        Ok(number) => Some(Number::from_i64(number)),
        Err(_) => None,
    }
}

fn unsigned(digits: &str) -> Option<Number>
    requires { is_numeral (without_leading_plus digits.now) ≡ true }
    ensures { result ≡ unsigned_within (digits_value 10 (without_leading_plus digits.now)) }
{
    match digits.parse::<u64>() {
        Ok(number) => Some(Number::from_u64(number)),
        Err(_) => None,
    }
}

fn is_below_zero(digits: &[u8]) -> bool
    ensures { result ≡ starts_with_minus digits.now }
{
    match digits {
        [b'-', ..] => true,
        _ => false,
    }
}
