//! Worked cases of what values stand for, by kind, with the cause of each refusal.
use jb_print::to_text as shown;
use jb_read::{ReadFault, from_str};
use jb_shape::{
    FromValue, MapKey, Members, ShapeError, ToValue, from_value, laws, member, read_members,
    read_variant, to_value,
};
use jb_tree::{Listed, Map, Memory, Refused, Text, Value};
use std::alloc::Global;

/// What the value of a JSON text is read as, if it is.
fn read<T: FromValue>(alloc: Global, text: &str) -> Option<T> {
    let value = from_str(alloc, text).ok()?;
    from_value(alloc, &value).ok()
}

/// Whether the value of a JSON text is read as `wanted`.
fn reads<T: FromValue + PartialEq>(alloc: Global, text: &str, wanted: T) -> bool {
    read(alloc, text) == Some(wanted)
}

/// Whether the value of a JSON text is refused so where the type is asked for.
fn refuses<T: FromValue>(alloc: Global, text: &str, wanted: ShapeError) -> bool {
    let Ok(value) = from_str(alloc, text) else {
        return false;
    };
    match from_value::<T>(alloc, &value) {
        Err(Refused::Fault(cause)) => cause == wanted,
        _ => false,
    }
}

#[test]
fn whole_numbers_of_each_type_are_read(rt: HostRuntime) {
    let alloc = rt.alloc();
    let are_read = [
        reads(alloc, "255", 255u8),
        reads(alloc, "65535", 65_535u16),
        reads(alloc, "4294967295", 4_294_967_295u32),
        reads(alloc, "18446744073709551615", u64::MAX),
        reads(alloc, "7", 7usize),
        reads(alloc, "-128", -128i8),
        reads(alloc, "-32768", -32_768i16),
        reads(alloc, "-9223372036854775808", isize::MIN),
        reads(alloc, "3", Some(3u8)),
        reads(alloc, "null", None::<u8>),
        reads(alloc, "[1,2]", (1u8, 2i64)),
        reads(alloc, "[false,null]", (false, ())),
    ];
    assert_eq!(rt; are_read, [true; 12]);
}

#[test]
fn numbers_outside_their_types_are_too_large(rt: HostRuntime) {
    let alloc = rt.alloc();
    let cause = ShapeError::NumberTooLarge;
    let are_refused = [
        refuses::<u8>(alloc, "300", cause),
        refuses::<u8>(alloc, "-1", cause),
        refuses::<i8>(alloc, "128", cause),
        refuses::<i32>(alloc, "2147483648", cause),
        refuses::<i64>(alloc, "18446744073709551615", cause),
    ];
    assert_eq!(rt; are_refused, [true; 5]);
}

#[test]
fn other_kinds_are_refused(rt: HostRuntime) {
    let alloc = rt.alloc();
    let cause = ShapeError::WrongKind;
    let are_refused = [
        refuses::<bool>(alloc, "\"true\"", cause),
        refuses::<u8>(alloc, "\"true\"", cause),
        refuses::<()>(alloc, "\"true\"", cause),
        refuses::<Text>(alloc, "null", cause),
        refuses::<Listed<bool>>(alloc, "\"true\"", cause),
        refuses::<(bool, bool)>(alloc, "\"true\"", cause),
        refuses::<(bool, Text)>(alloc, "[1,2]", cause),
        refuses::<Members<Text, bool>>(alloc, "\"true\"", cause),
        refuses::<Members<Text, bool>>(alloc, "{\"1\":30}", cause),
        refuses::<Option<u8>>(alloc, "\"true\"", cause),
    ];
    assert_eq!(rt; are_refused, [true; 10]);
}

fn has_text(alloc: Global, value: &Value, wanted: &str) -> bool {
    match shown(alloc, value) {
        Ok(text) => text.as_str() == wanted,
        Err(_) => false,
    }
}

/// Whether the value that stands for a thing has this JSON text.
fn gives<T: ToValue>(alloc: Global, thing: &T, wanted: &str) -> bool {
    match to_value(alloc, thing) {
        Ok(value) => has_text(alloc, &value, wanted),
        Err(_) => false,
    }
}

/// The list of these bytes.
fn bytes_of(alloc: Global, bytes: &[u8]) -> Result<Listed<u8>, Memory> {
    let mut list = Listed::new(alloc);
    for byte in bytes {
        list.push(*byte)?;
    }
    Ok(list)
}

#[test]
fn lists_and_pairs_are_arrays(rt: HostRuntime) -> Result<(), Memory> {
    let alloc = rt.alloc();
    assert!(rt; gives(alloc, &u64::MAX, "18446744073709551615"));
    assert!(rt; gives(alloc, &(false, ()), "[false,null]"));
    assert!(rt; refuses::<(u8, u8)>(alloc, "[1]", ShapeError::WrongLength));
    assert!(rt; gives(alloc, &bytes_of(alloc, &[1, 2])?, "[1,2]"));
    assert!(rt; reads(alloc, "[1,2]", bytes_of(alloc, &[1, 2])?));
    Ok(())
}

#[test]
fn a_value_stands_for_itself(rt: HostRuntime) -> Result<(), Refused<ReadFault>> {
    let value = from_str(rt.alloc(), "[1,2]")?;
    assert!(rt; gives(rt.alloc(), &value, "[1,2]"));
    Ok(())
}

/// Whether a text is read as this key, or refused so.
fn reads_key<K: MapKey + PartialEq>(
    alloc: Global,
    text: &str,
    wanted: Result<K, ShapeError>,
) -> bool {
    match (K::from_key(alloc, text), wanted) {
        (Ok(key), Ok(wanted)) => key == wanted,
        (Err(Refused::Fault(cause)), Err(wanted)) => cause == wanted,
        _ => false,
    }
}

/// Texts that are read as keys without a sign, or refused.
const UNSIGNED_KEYS: &[(&str, Result<u8, ShapeError>)] = &[
    ("0", Ok(0)),
    ("+7", Ok(7)),
    ("007", Ok(7)),
    ("255", Ok(255)),
    ("256", Err(ShapeError::NumberTooLarge)),
    ("99999999999999999999", Err(ShapeError::NumberTooLarge)),
    ("99999999999999999999x", Err(ShapeError::WrongKind)),
    ("-1", Err(ShapeError::WrongKind)),
    ("", Err(ShapeError::WrongKind)),
    ("+", Err(ShapeError::WrongKind)),
    ("1.0", Err(ShapeError::WrongKind)),
];

/// The same of keys that may have one.
const SIGNED_KEYS: &[(&str, Result<i8, ShapeError>)] = &[
    ("-128", Ok(-128)),
    ("-0", Ok(0)),
    ("+127", Ok(127)),
    ("-129", Err(ShapeError::NumberTooLarge)),
    ("--1", Err(ShapeError::WrongKind)),
    ("-", Err(ShapeError::WrongKind)),
];

/// The first of these texts that is neither read as the key beside it nor refused so.
fn first_misread<'t, K: MapKey + PartialEq + Copy>(
    alloc: Global,
    rows: &[(&'t str, Result<K, ShapeError>)],
) -> Option<&'t str> {
    for (text, wanted) in rows {
        if !reads_key(alloc, *text, *wanted) {
            return Some(*text);
        }
    }
    None
}

#[test]
fn texts_are_read_as_whole_numbers(rt: HostRuntime) {
    assert_eq!(rt; first_misread(rt.alloc(), UNSIGNED_KEYS), None);
    assert_eq!(rt; first_misread(rt.alloc(), SIGNED_KEYS), None);
}

/// Whether the text of the key is `wanted`.
fn gives_key<K: MapKey>(alloc: Global, key: &K, wanted: &str) -> Result<bool, Refused<ShapeError>> {
    Ok(key.to_key(alloc)?.as_str() == wanted)
}

#[test]
fn keys_have_texts(rt: HostRuntime) {
    let alloc = rt.alloc();
    let no_text = Err(Refused::Fault(ShapeError::KeyNotText));
    assert_eq!(rt; gives_key(alloc, &-12i16, "-12"), Ok(true));
    assert_eq!(rt;
        gives_key(alloc, &u64::MAX, "18446744073709551615"),
        Ok(true)
    );
    assert_eq!(rt; gives_key(alloc, &true, "true"), no_text);
    assert!(rt; reads_key::<bool>(alloc, "true", Err(ShapeError::KeyNotText)));
}

/// The members of these pairs.
fn members_of(alloc: Global, pairs: &[(u8, u8)]) -> Result<Members<u8, u8>, Memory> {
    let mut list = Listed::new(alloc);
    for pair in pairs {
        list.push(*pair)?;
    }
    Ok(Members { pairs: list })
}

#[test]
fn members_are_an_object(rt: HostRuntime) -> Result<(), Memory> {
    let alloc = rt.alloc();
    let cause = ShapeError::KeyNotText;
    assert!(rt; refuses::<Members<bool, u8>>(alloc, "{\"1\":30}", cause));
    let members = members_of(alloc, &[(1, 10), (2, 20), (1, 30)])?;
    assert!(rt; gives(alloc, &members, "{\"1\":30,\"2\":20}"));
    Ok(())
}

/// Whether members were read, and have these pairs.
fn has_pairs(members: Option<Members<i64, i64>>, wanted: &[(i64, i64)]) -> bool {
    match members {
        Some(members) => members.pairs.as_slice() == wanted,
        None => false,
    }
}

#[test]
fn an_object_is_read_as_members(rt: HostRuntime) {
    let back = read(rt.alloc(), "{\"1\":30,\"2\":20}");
    assert!(rt; has_pairs(back, &[(1, 30), (2, 20)]));
}

/// The names of the tests' variants and fields.
fn names(alloc: Global) -> Result<Listed<Text>, Memory> {
    let mut all = Listed::new(alloc);
    for name in ["A", "C"] {
        all.push(Text::from_str(alloc, name)?)?;
    }
    Ok(all)
}

/// The place of the variant that a value is, and whether it has content.
fn variant(value: &Value, names: &Listed<Text>) -> Result<(usize, bool), ShapeError> {
    let (place, content) = read_variant(value, names)?;
    Ok((place, content.is_some()))
}

/// Whether the value of a JSON text is this variant, or refused so.
fn is_variant(
    alloc: Global,
    names: &Listed<Text>,
    text: &str,
    wanted: Result<(usize, bool), ShapeError>,
) -> bool {
    match from_str(alloc, text) {
        Ok(value) => variant(&value, names) == wanted,
        Err(_) => false,
    }
}

const VARIANTS: &[(&str, Result<(usize, bool), ShapeError>)] = &[
    ("\"C\"", Ok((1, false))),
    ("{\"A\":5}", Ok((0, true))),
    ("\"B\"", Err(ShapeError::UnknownVariant)),
    ("{\"A\":5,\"C\":6}", Err(ShapeError::WrongLength)),
    ("1", Err(ShapeError::WrongKind)),
];

#[test]
fn variants_have_names(rt: HostRuntime) -> Result<(), Memory> {
    let names = names(rt.alloc())?;
    for (text, wanted) in VARIANTS {
        assert!(rt; is_variant(rt.alloc(), &names, text, *wanted), "{text}");
    }
    Ok(())
}

/// How many members a value has, all of whose names are known.
fn count_members(value: &Value, known: &Listed<Text>) -> Result<usize, ShapeError> {
    Ok(read_members(value, known)?.len())
}

/// Whether the value of a JSON text has so many members, or is refused so.
fn has_members(
    alloc: Global,
    known: &Listed<Text>,
    text: &str,
    wanted: Result<usize, ShapeError>,
) -> bool {
    match from_str(alloc, text) {
        Ok(value) => count_members(&value, known) == wanted,
        Err(_) => false,
    }
}

/// Why an object has no such member.
fn missing(members: &Map) -> Option<ShapeError> {
    member(members, "a").err()
}

const FIELDS: &[(&str, Result<usize, ShapeError>)] = &[
    ("{\"A\":5,\"C\":6}", Ok(2)),
    ("{\"B\":5}", Err(ShapeError::UnknownField)),
    ("\"C\"", Err(ShapeError::WrongKind)),
];

#[test]
fn fields_have_names(rt: HostRuntime) -> Result<(), Memory> {
    let alloc = rt.alloc();
    let refused = missing(&Map::new(alloc));
    assert_eq!(rt; refused, Some(ShapeError::MissingField));
    let names = names(alloc)?;
    for (text, wanted) in FIELDS {
        assert!(rt; has_members(alloc, &names, text, *wanted), "{text}");
    }
    Ok(())
}

/// What comes back for the members of one pair.
fn seven(alloc: Global) -> Result<Members<u64, Text>, Refused<ShapeError>> {
    let mut pairs = Listed::new(alloc);
    pairs.push((7u64, Text::from_str(alloc, "seven")?))?;
    laws::comes_back(alloc, &Members { pairs })
}

#[test]
fn what_was_given_comes_back(rt: HostRuntime) -> Result<(), Refused<ShapeError>> {
    let alloc = rt.alloc();
    assert_eq!(rt; laws::comes_back(alloc, &(true, -5i8))?, (true, -5));
    let members = seven(alloc)?;
    assert!(rt; gives(alloc, &members, "{\"7\":\"seven\"}"));
    Ok(())
}
