//! Texts that are read, and the kind and place of the first fault of others.
use bytes::Bytes;
use jb_io::holds_proper;
use jb_print::to_text as shown;
use jb_read::{FaultKind, ReadFault, from_bytes, from_bytes_whole, from_str};
use jb_tree::{Listed, Memory, Refused, Text, Value};
use std::alloc::Global;

/// Where each text breaks first.
const BROKEN: &[(&[u8], FaultKind, usize)] = &[
    (b"", FaultKind::Syntax, 0),
    (b" \n", FaultKind::Syntax, 2),
    (b"x", FaultKind::Syntax, 0),
    (b"\x0b1", FaultKind::Syntax, 0),
    (b"\xef\xbb\xbf1", FaultKind::Syntax, 0),
    (b"nul", FaultKind::Syntax, 3),
    (b"nulx", FaultKind::Syntax, 3),
    (b"True", FaultKind::Syntax, 0),
    (b"trux", FaultKind::Syntax, 3),
    (b"falsy", FaultKind::Syntax, 4),
    (b"nullx", FaultKind::Syntax, 4),
    (b"1 x", FaultKind::Syntax, 2),
    (b"1\x0b", FaultKind::Syntax, 1),
    (b"01", FaultKind::Syntax, 1),
    (b"00.5", FaultKind::Syntax, 1),
    (b"-01", FaultKind::Syntax, 2),
    (b"-", FaultKind::Syntax, 1),
    (b"-x", FaultKind::Syntax, 1),
    (b"+1", FaultKind::Syntax, 0),
    (b".5", FaultKind::Syntax, 0),
    (b"1a", FaultKind::Syntax, 1),
    (b"-0", FaultKind::Float, 0),
    (b"1.0", FaultKind::Float, 0),
    (b" 1e5", FaultKind::Float, 1),
    (b"1Ex", FaultKind::Float, 0),
    (b"0.", FaultKind::Float, 0),
    (b"-0.5", FaultKind::Float, 0),
    (b"[1,2.5]", FaultKind::Float, 3),
    (b"99999999999999999999.5", FaultKind::Float, 0),
    (b"18446744073709551616", FaultKind::NumberRange, 0),
    (b"[-9223372036854775809]", FaultKind::NumberRange, 1),
    (b"100000000000000000000000 x", FaultKind::NumberRange, 0),
    (b"[", FaultKind::Syntax, 1),
    (b"]", FaultKind::Syntax, 0),
    (b"[1", FaultKind::Syntax, 2),
    (b"[1,", FaultKind::Syntax, 3),
    (b"[1,]", FaultKind::Syntax, 3),
    (b"[,1]", FaultKind::Syntax, 1),
    (b"[1 2]", FaultKind::Syntax, 3),
    (b"[1}", FaultKind::Syntax, 2),
    (b"[]]", FaultKind::Syntax, 2),
    (b"{", FaultKind::Syntax, 1),
    (b"{\"a\"", FaultKind::Syntax, 4),
    (b"{\"a\" 1}", FaultKind::Syntax, 5),
    (b"{\"a\":}", FaultKind::Syntax, 5),
    (b"{\"a\":1", FaultKind::Syntax, 6),
    (b"{\"a\":1,}", FaultKind::Syntax, 7),
    (b"{\"a\":1]", FaultKind::Syntax, 6),
    (b"{a:1}", FaultKind::Syntax, 1),
    (b"{1:2}", FaultKind::Syntax, 1),
    (b"{,}", FaultKind::Syntax, 1),
    (b"\"", FaultKind::Syntax, 1),
    (b"\"a", FaultKind::Syntax, 2),
    (b"'a'", FaultKind::Syntax, 0),
    (b"\"\n\"", FaultKind::Syntax, 1),
    (b"\"a\x1f\"", FaultKind::Syntax, 2),
    (b"\"\\", FaultKind::Syntax, 2),
    (b"\"\\x\"", FaultKind::Syntax, 2),
    (b"\"\\u", FaultKind::Syntax, 3),
    (b"\"\\u12", FaultKind::Syntax, 5),
    (b"\"\\u12G4\"", FaultKind::Syntax, 5),
    (b"\"\\ud800\"", FaultKind::Syntax, 1),
    (b"\"\\udc00\"", FaultKind::Syntax, 1),
    (b"\"a\\ud800\\u0041\"", FaultKind::Syntax, 2),
    (b"\"\\ud800\\ud800\"", FaultKind::Syntax, 1),
    (b"\"\\ud800\\x\"", FaultKind::Syntax, 1),
    (b"\"\\ud800\\u12G4\"", FaultKind::Syntax, 1),
    (b"\"\\ud800", FaultKind::Syntax, 7),
    (b"\"\\ud800\\u12", FaultKind::Syntax, 11),
    (b"\"\xff\"", FaultKind::Syntax, 1),
    (b"\"a\xc3\"", FaultKind::Syntax, 2),
    (b"\"a\xc3", FaultKind::Syntax, 3),
    (b"\"\xc0\x80\"", FaultKind::Syntax, 1),
    (b"\"\xe2\x28\xa1\"", FaultKind::Syntax, 1),
    (b"\"\xe2\x82", FaultKind::Syntax, 3),
    (b"\"\xed\xa0\x80\"", FaultKind::Syntax, 1),
    (b"\"\xf0\x9f\x98", FaultKind::Syntax, 4),
    (b"\"\xf5", FaultKind::Syntax, 1),
    (b"\"\\n\xff\"", FaultKind::Syntax, 3),
];

fn read(alloc: Global, text: &[u8]) -> Result<Value, Refused<ReadFault>> {
    from_bytes_whole(alloc, &Bytes::copy_from_slice(alloc, text)?)
}

/// The kind and place of the fault that a text is refused with.
fn fault(alloc: Global, text: &[u8]) -> Option<(FaultKind, usize)> {
    match read(alloc, text) {
        Err(Refused::Fault(fault)) => Some((fault.kind, fault.place)),
        _ => None,
    }
}

#[test]
fn faults_stand_where_the_text_breaks(rt: HostRuntime) {
    for (text, kind, place) in BROKEN {
        assert_eq!(rt;
            fault(rt.alloc(), text),
            Some((*kind, *place)),
            "at {text:?}"
        );
    }
}

/// So many lists, one in the other.
fn nested(alloc: Global, count: usize) -> Result<Vec<u8>, Memory> {
    let mut text = vec![in alloc; b'['; count]?;
    for _ in 0..count {
        text.push(b']')?;
    }
    Ok(text)
}

#[test]
fn nesting_ends_at_level_127(rt: HostRuntime) -> Result<(), Memory> {
    let alloc = rt.alloc();
    assert!(rt; read(alloc, nested(alloc, 127)?.as_slice()).is_ok());
    let deep = vec![in alloc; b'['; 128]?;
    assert_eq!(rt;
        fault(alloc, deep.as_slice()),
        Some((FaultKind::Depth, 127))
    );
    Ok(())
}

/// The list of this value alone.
fn in_list(alloc: Global, value: Value) -> Result<Value, Memory> {
    let mut items = Listed::new(alloc);
    items.push(value)?;
    Ok(Value::from_list(items))
}

#[test]
fn a_value_nests_as_deep_as_a_text(rt: HostRuntime) -> Result<(), Refused<ReadFault>> {
    let alloc = rt.alloc();
    let deepest = read(alloc, nested(alloc, 127)?.as_slice())?;
    assert!(rt; holds_proper(&deepest));
    let too_deep = in_list(alloc, deepest)?;
    assert!(rt; !holds_proper(&too_deep));
    Ok(())
}

/// A number as each type has it.
type Numbers = (Option<i64>, Option<u64>);

const NUMBERS: &[(&str, Numbers)] = &[
    ("0", (Some(0), Some(0))),
    (" \t\r\n10 \n", (Some(10), Some(10))),
    ("-1", (Some(-1), None)),
    ("1234567890", (Some(1_234_567_890), Some(1_234_567_890))),
    (
        "9223372036854775807",
        (Some(i64::MAX), Some(9_223_372_036_854_775_807)),
    ),
    ("-9223372036854775808", (Some(i64::MIN), None)),
    ("18446744073709551615", (None, Some(u64::MAX))),
];

/// Whether a number's text is read as these.
fn is_number(alloc: Global, text: &str, wanted: Numbers) -> bool {
    match from_str(alloc, text) {
        Ok(value) => value.as_i64() == wanted.0 && value.as_u64() == wanted.1,
        Err(_) => false,
    }
}

#[test]
fn numbers(rt: HostRuntime) {
    for (text, wanted) in NUMBERS {
        assert!(rt; is_number(rt.alloc(), text, *wanted), "{text}");
    }
}

const STRINGS: &[(&str, &str)] = &[
    ("\"\"", ""),
    ("\"plain / text\"", "plain / text"),
    ("\"\u{e9}\u{20ac}\u{1f600}\"", "é€😀"),
    ("\"\\\"\\\\\\/\\b\\f\\n\\r\\t\"", "\"\\/\u{8}\u{c}\n\r\t"),
    ("\"\\u0041\\u00e9\\u20AC\\u0000\"", "Aé€\0"),
    ("\"a\\ud83d\\ude00z\"", "a😀z"),
    ("\"\\uDBFF\\uDFFF\"", "\u{10ffff}"),
    ("\"é\\né\"", "é\né"),
];

/// Whether a string's text is read as `wanted`.
fn is_string(alloc: Global, text: &str, wanted: &str) -> bool {
    match from_str(alloc, text) {
        Ok(value) => value.as_str() == Some(wanted),
        Err(_) => false,
    }
}

#[test]
fn strings(rt: HostRuntime) {
    for (text, wanted) in STRINGS {
        assert!(rt; is_string(rt.alloc(), text, wanted), "{text}");
    }
}

/// What a text is read as, printed.
fn read_and_shown(alloc: Global, text: &[u8]) -> Result<Text, Refused<ReadFault>> {
    Ok(shown(alloc, &read(alloc, text)?)?)
}

#[test]
fn a_repeated_key_keeps_its_place_and_takes_its_last_value(
    rt: HostRuntime,
) -> Result<(), Refused<ReadFault>> {
    let text = b" { \"b\" : 1 , \"a\" : [ true , false , null ] , \"b\" : 3 } ";
    assert_eq!(rt;
        read_and_shown(rt.alloc(), text)?.as_str(),
        "{\"b\":3,\"a\":[true,false,null]}"
    );
    Ok(())
}

/// What the front of a text is read as.
fn front(alloc: Global, text: &[u8]) -> Result<Value, Refused<ReadFault>> {
    from_bytes(alloc, &Bytes::copy_from_slice(alloc, text)?)
}

/// The kind and place of the fault that the front of a text is refused with.
fn front_fault(alloc: Global, text: &[u8]) -> Option<(FaultKind, usize)> {
    match front(alloc, text) {
        Err(Refused::Fault(fault)) => Some((fault.kind, fault.place)),
        _ => None,
    }
}

/// The number that the front of a text is read as.
fn front_number(alloc: Global, text: &[u8]) -> Option<i64> {
    front(alloc, text).ok()?.as_i64()
}

/// Where the fronts of texts break.
const BROKEN_FRONTS: &[(&[u8], FaultKind, usize)] = &[
    (b"01", FaultKind::Syntax, 1),
    (b"1.5", FaultKind::Float, 0),
    (b"[1", FaultKind::Syntax, 2),
];

#[test]
fn a_front_is_read_whatever_follows(rt: HostRuntime) {
    assert_eq!(rt; front_number(rt.alloc(), b" 12 x"), Some(12));
    for (text, kind, place) in BROKEN_FRONTS {
        assert_eq!(rt;
            front_fault(rt.alloc(), text),
            Some((*kind, *place)),
            "at {text:?}"
        );
    }
}
