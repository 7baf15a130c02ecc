//! Reading and printing as methods of a value's own type.
use bytes::Bytes;
use jb_io::{FaultKind, ReadFault, ValueBytes};
use jb_tree::{Refused, Text, Value};
use std::alloc::Global;

/// The bytes of a whole text's value.
fn bytes_of<V: ValueBytes + Drop>(
    alloc: Global,
    bytes: &Bytes,
) -> Result<Bytes, Refused<ReadFault>> {
    let value = V::from_bytes_whole(alloc, bytes)?;
    Ok(value.to_bytes(alloc)?)
}

/// The text of the value in front.
fn text_of<V: ValueBytes + Drop>(alloc: Global, bytes: &Bytes) -> Result<Text, Refused<ReadFault>> {
    let value = V::from_bytes(alloc, bytes)?;
    Ok(value.to_text(alloc)?)
}

/// What a text holds, read and printed in each way.
fn printed<V: ValueBytes + Drop>(alloc: Global, bytes: &Bytes) -> Result<Text, Refused<ReadFault>> {
    let again = bytes_of::<V>(alloc, bytes)?;
    let text = text_of::<V>(alloc, &again)?;
    let value = V::from_str(alloc, text.as_str())?;
    Ok(value.to_pretty(alloc)?)
}

#[test]
fn a_value_is_read_and_printed_by_the_trait(rt: HostRuntime) -> Result<(), Refused<ReadFault>> {
    let alloc = rt.alloc();
    let bytes = Bytes::from_static(b" { \"a\" : [ 1 , -2 ], \"b\" : null } ");
    assert_eq!(rt;
        printed::<Value>(alloc, &bytes)?.as_str(),
        "{\n  \"a\": [\n    1,\n    -2\n  ],\n  \"b\": null\n}"
    );
    Ok(())
}

#[test]
fn a_front_is_read_by_the_trait(rt: HostRuntime) -> Result<(), Refused<ReadFault>> {
    let alloc = rt.alloc();
    let more = Bytes::from_static(b"1 2");
    assert_eq!(rt; text_of::<Value>(alloc, &more)?.as_str(), "1");
    let fault = ReadFault {
        kind: FaultKind::Syntax,
        place: 2,
    };
    let refused = bytes_of::<Value>(alloc, &more).err();
    assert_eq!(rt; refused, Some(Refused::Fault(fault)));
    Ok(())
}
