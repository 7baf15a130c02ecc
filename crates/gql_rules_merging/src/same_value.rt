//! Values that are the same, whatever the order of the keys of objects (GraphQL October 2021, sections 2.9 and 5.3.2).

ghost use Rattle.std.specs.Prelude.{◌≡◌, map};
ghost use Rattle.std.specs.Option.{option_copied};
ghost use Rattle.gql_rules_merging.specs.SameValue as spec;
ghost use Rattle.gql_rules_merging.specs.bridge.Tests as seen;

use gql_ast_base::{Name, Value, ValueKind};

/// Whether two values are the same, but for their places and the order of the keys of objects.
#[cycle(same)]
pub(crate) fn same_value(value: &Value, other: &Value) -> bool
    ensures { result ≡ spec.same_value value.now other.now }
{
    same_kind(&value.kind, &other.kind)
}

#[cycle(same)]
fn same_kind(kind: &ValueKind, other: &ValueKind) -> bool
    ensures { result ≡ spec.same_kind kind.now other.now }
{
    match kind {
        ValueKind::Null => matches!(other, ValueKind::Null),
        ValueKind::Variable(name) => is_variable(name.as_str(), other),
        ValueKind::Int(number) => is_int(number.as_str(), other),
        ValueKind::Float(number) => is_float(number.as_str(), other),
        ValueKind::String(text) => is_string(text.as_str(), other),
        ValueKind::Boolean(truth) => is_boolean(*truth, other),
        ValueKind::Enum(name) => is_enum(name.as_str(), other),
        ValueKind::List(items) => match other {
            ValueKind::List(others) => same_items(items.as_slice(), others.as_slice()),
            _ => false,
        },
        ValueKind::Object(members) => match other {
            ValueKind::Object(others) => same_members(members.as_slice(), others.as_slice()),
            _ => false,
        },
    }
}

/// Item by item.
#[cycle(same)]
fn same_items(items: &[Value], others: &[Value]) -> bool
    ensures { result ≡ spec.same_items (map spec.same_value items.now) others.now }
{
    let mut index = 0;
    for item in items {
        match others.get(index) {
            Some(other) if same_value(item, other) => index += 1,
            _ => return false,
        }
    }
    match others.get(index) {
        Some(_) => false,
        None => true,
    }
}

/// As many, and each the same as the first of its name among the others.
#[cycle(same)]
fn same_members(members: &[(Name, Value)], others: &[(Name, Value)]) -> bool
    ensures { result ≡ spec.same_members (map seen.member_test members.now) others.now }
{
    if members.len() != others.len() {
        return false;
    }
    for member in members {
        match member_called(others, member.0.as_str()) {
            Some(other) if same_value(&member.1, &other.1) => {}
            _ => return false,
        }
    }
    true
}

/// The first of these members that has the name.
fn member_called<'v>(members: &'v [(Name, Value)], name: &str) -> Option<&'v (Name, Value)>
    ensures { option_copied result ≡ spec.member_called members.now name.now }
{
    members.iter().find(|member| name == member.0.as_str())
}

fn is_variable(name: &str, other: &ValueKind) -> bool
    ensures { result ≡ seen.is_variable name.now other.now }
{
    match other {
        ValueKind::Variable(other) => name == other.as_str(),
        _ => false,
    }
}

fn is_int(number: &str, other: &ValueKind) -> bool
    ensures { result ≡ seen.is_int number.now other.now }
{
    match other {
        ValueKind::Int(other) => number == other.as_str(),
        _ => false,
    }
}

fn is_float(number: &str, other: &ValueKind) -> bool
    ensures { result ≡ seen.is_float number.now other.now }
{
    match other {
        ValueKind::Float(other) => number == other.as_str(),
        _ => false,
    }
}

fn is_string(text: &str, other: &ValueKind) -> bool
    ensures { result ≡ seen.is_string text.now other.now }
{
    match other {
        ValueKind::String(other) => text == other.as_str(),
        _ => false,
    }
}

fn is_boolean(truth: bool, other: &ValueKind) -> bool
    ensures { result ≡ seen.is_boolean truth other.now }
{
    match other {
        ValueKind::Boolean(other) => truth == *other,
        _ => false,
    }
}

fn is_enum(name: &str, other: &ValueKind) -> bool
    ensures { result ≡ seen.is_enum name.now other.now }
{
    match other {
        ValueKind::Enum(other) => name == other.as_str(),
        _ => false,
    }
}
