//! What no clause says: that calls succeed with ample memory.
use bytes::Bytes;
use jb_text::{ByteString, Listed, Memory, Number, Refused, SliceFault, Text};
use std::alloc::Global;
use std::process::Abort;

fn is_copied(alloc: Global, text: &str) -> Result<bool, Memory> {
    let copy = Text::from_str(alloc, text)?.copy(alloc)?;
    Ok(copy.as_str() == text)
}

fn is_kept(alloc: Global, text: &str) -> Result<bool, Memory> {
    let kept = Text::from_string(String::from_str(alloc, text)?);
    Ok(kept.as_str() == text)
}

fn sum_of(list: Listed<u8>) -> u32 {
    let mut sum = 0u32;
    for item in list {
        sum = sum.saturating_add(u32::from(item));
    }
    sum
}

fn check_list(rt: &impl Abort, list: &Listed<u8>) {
    assert_eq!(*rt; list.get(1).copied(), Some(8));
    assert_eq!(*rt; list.get(2).copied(), None);
    assert_eq!(*rt; list.as_slice(), [7, 8].as_slice());
}

/// The list of 7 and 8.
fn list_of(alloc: Global) -> Result<Listed<u8>, Memory> {
    let mut list = Listed::new(alloc);
    list.push(7)?;
    list.push(8)?;
    Ok(list)
}

#[test]
fn texts_and_lists(rt: HostRuntime) -> Result<(), Memory> {
    let alloc = rt.alloc();
    assert!(rt; is_copied(alloc, "größer")?);
    assert!(rt; is_kept(alloc, "a")?);
    assert!(rt; Listed::<u8>::new(alloc).is_empty());
    let list = list_of(alloc)?;
    check_list(&rt, &list);
    assert_eq!(rt; sum_of(list), 15);
    Ok(())
}

/// Whether a slice is this text.
fn is_text(slice: Result<ByteString, Refused<SliceFault>>, wanted: &str) -> bool {
    match slice {
        Ok(text) => text.as_str() == wanted,
        Err(_) => false,
    }
}

#[test]
fn slices_of_a_buffer(rt: HostRuntime) {
    let alloc = rt.alloc();
    let origin = Bytes::from_static(b"{\"a\":\"\xc3\xa9\"}");
    assert_eq!(rt; origin.len(), 10);
    assert!(rt; is_text(ByteString::from_slice(alloc, &origin, 6..8), "é"));
    let refused = ByteString::from_slice(alloc, &origin, 6..7).err();
    assert_eq!(rt; refused, Some(Refused::Fault(SliceFault::NotText)));
}

#[test]
fn numbers(rt: HostRuntime) {
    assert_eq!(rt; Number::from_i64(5), Number::from_u64(5));
    let signed = [
        Number::from_i64(i64::MIN).as_i64(),
        Number::from_u64(u64::MAX).as_i64(),
    ];
    assert_eq!(rt; signed, [Some(i64::MIN), None]);
    let unsigned = [
        Number::from_i64(-1).as_u64(),
        Number::from_u64(u64::MAX).as_u64(),
    ];
    assert_eq!(rt; unsigned, [None, Some(u64::MAX)]);
}
