//! Printed texts, character by character.
use jb_print::{to_bytes, to_pretty, to_text as shown};
use jb_read::{ReadFault, from_str};
use jb_tree::{Memory, Number, Refused, Value};
use std::alloc::Global;
use std::process::Abort;

const STRINGS: &[(&str, &str)] = &[
    ("", r#""""#),
    ("plain text", r#""plain text""#),
    ("\u{1}\"", r#""\u0001\"""#),
    ("\"a\\b\"", r#""\"a\\b\"""#),
    ("\u{8}\u{c}\n\r\t", r#""\b\f\n\r\t""#),
    ("\u{0}\u{b}\u{1a}\u{1f}", r#""\u0000\u000b\u001a\u001f""#),
    ("a/b \u{7f}", "\"a/b \u{7f}\""),
    ("é€😀\n", "\"é€😀\\n\""),
];

/// Whether a value has this text.
fn prints(alloc: Global, value: &Value, wanted: &str) -> Result<bool, Memory> {
    let text = shown(alloc, value)?;
    Ok(text.as_str() == wanted)
}

fn prints_string(alloc: Global, text: &str, wanted: &str) -> Result<bool, Memory> {
    let value = Value::from_text(alloc, text)?;
    prints(alloc, &value, wanted)
}

#[test]
fn strings(rt: HostRuntime) -> Result<(), Memory> {
    for (text, wanted) in STRINGS {
        assert!(rt; prints_string(rt.alloc(), text, wanted)?, "{text}");
    }
    Ok(())
}

fn prints_number(alloc: Global, number: Number, wanted: &str) -> Result<bool, Memory> {
    prints(alloc, &Value::from(number), wanted)
}

#[test]
fn numbers(rt: HostRuntime) -> Result<(), Memory> {
    for (number, wanted) in [
        (Number::from_i64(i64::MIN), "-9223372036854775808"),
        (Number::from_i64(-1), "-1"),
        (Number::from_i64(0), "0"),
        (Number::from_i64(120), "120"),
        (Number::from_i64(i64::MAX), "9223372036854775807"),
        (Number::from_u64(u64::MAX), "18446744073709551615"),
    ] {
        assert!(rt; prints_number(rt.alloc(), number, wanted)?, "{wanted}");
    }
    Ok(())
}

const TREE: &str = r#"{"a":[],"b":{"c":1},"d":[null,true,[false,{}]]}"#;

const PRETTY_TREE: &str =
    "{\n  \"a\": [],\n  \"b\": {\n    \"c\": 1\n  },\n  \"d\": [\n    null,\n    true,\n    [\n      false,\n      {}\n    ]\n  ]\n}";

fn is_bytes(alloc: Global, value: &Value) -> Result<bool, Memory> {
    let bytes = to_bytes(alloc, value)?;
    Ok(bytes.as_slice() == TREE.as_bytes())
}

fn is_pretty(alloc: Global, value: &Value) -> Result<bool, Memory> {
    let text = to_pretty(alloc, value)?;
    Ok(text.as_str() == PRETTY_TREE)
}

fn check_tree(rt: &impl Abort, alloc: Global, value: &Value) -> Result<(), Memory> {
    assert!(*rt; prints(alloc, value, TREE)?);
    assert!(*rt; is_bytes(alloc, value)?);
    assert!(*rt; is_pretty(alloc, value)?);
    Ok(())
}

#[test]
fn trees(rt: HostRuntime) -> Result<(), Refused<ReadFault>> {
    let value = from_str(rt.alloc(), TREE)?;
    check_tree(&rt, rt.alloc(), &value)?;
    Ok(())
}
