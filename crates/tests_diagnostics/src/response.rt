//! Responses printed, and read back.

use bytes::Bytes;
use gql_response::{ExecutionResponse, ResponseFault};
use jb_read::{FaultKind, ReadFault};
use jb_shape::ShapeError;
use jb_text::Refused;
use std::alloc::Global;
use std::test::Fail;

fn read(alloc: Global, text: &'static [u8]) -> Result<ExecutionResponse, Fail> {
    let response = ExecutionResponse::from_bytes(alloc, &Bytes::from_static(text));
    Ok(response.ok().ok_or("refused")?)
}

/// Responses, how many errors they have, and what is printed of them.
const PRINTED: &[(&[u8], usize, &[u8])] = &[
    (
        b"{\"errors\":[{\"message\":\"resolver error: !\",\"locations\":[{\"line\":1,\"column\":3}],\"path\":[\"f\",1]},{\"message\":\"\",\"extensions\":{\"a\":[]}}],\"data\":{\"f\":null}}",
        2,
        b"{\"errors\":[{\"message\":\"resolver error: !\",\"locations\":[{\"line\":1,\"column\":3}],\"path\":[\"f\",1]},{\"message\":\"\",\"extensions\":{\"a\":[]}}],\"data\":{\"f\":null}}",
    ),
    (b" { } ", 0, b"{\"data\":null}"),
];

/// How many errors a response has, and what is printed of it.
fn reprinted(alloc: Global, text: &'static [u8]) -> Result<(usize, Bytes), Fail> {
    let response = read(alloc, text)?;
    printed(alloc, &response)
}

fn printed(alloc: Global, response: &ExecutionResponse) -> Result<(usize, Bytes), Fail> {
    let bytes = response.to_bytes(alloc)?;
    Ok((response.errors.len(), bytes))
}

#[test]
fn a_response_reads_back_and_prints_the_same(rt: HostRuntime) -> Result<(), Fail> {
    for (text, errors, reprint) in PRINTED {
        let (found_errors, bytes) = reprinted(rt.alloc(), text)?;
        assert_eq!(rt; (found_errors, bytes.as_slice()), (*errors, *reprint));
    }
    Ok(())
}

/// A response, and what is printed of the refusal for its errors.
const ERRORS: &[u8] =
    b"{\"errors\":[{\"message\":\"m\",\"path\":[\"f\"]},{\"message\":\"n\"}],\"data\":{\"f\":null}}";

const REFUSAL: &[u8] = b"{\"errors\":[{\"message\":\"m\",\"path\":[\"f\"]},{\"message\":\"n\"}]}";

/// What is printed of the refusal for the errors of a response.
fn refusal_printed(alloc: Global, text: &'static [u8]) -> Result<Bytes, Fail> {
    let response = read(alloc, text)?;
    let errors = response.errors.as_slice();
    Ok(ExecutionResponse::refusal_bytes(alloc, errors)?)
}

#[test]
fn a_refusal_has_its_errors_alone(rt: HostRuntime) -> Result<(), Fail> {
    assert_eq!(rt; refusal_printed(rt.alloc(), ERRORS)?.as_slice(), REFUSAL);
    Ok(())
}

/// Texts that are no response, and why they are refused.
const REFUSED: &[(&[u8], ResponseFault)] = &[
    (b"{", ResponseFault::Read(BROKEN_OFF)),
    (b"[]", ResponseFault::Shape(ShapeError::WrongKind)),
    (
        b"{\"data\":{},\"x\":1}",
        ResponseFault::Shape(ShapeError::UnknownField),
    ),
    (
        b"{\"data\":1,\"x\":1}",
        ResponseFault::Shape(ShapeError::WrongKind),
    ),
    (
        b"{\"errors\":[{\"path\":[]}]}",
        ResponseFault::Shape(ShapeError::MissingField),
    ),
    (
        b"{\"errors\":[{\"path\":[\"1a\"]}]}",
        ResponseFault::Shape(ShapeError::WrongKind),
    ),
    (
        b"{\"errors\":[{\"path\":[-1]}]}",
        ResponseFault::Shape(ShapeError::NumberTooLarge),
    ),
];

const BROKEN_OFF: ReadFault = ReadFault {
    kind: FaultKind::Syntax,
    place: 1,
};

/// Why a text is refused, or `None` where it is a response.
fn refusal(alloc: Global, text: &'static [u8]) -> Option<Refused<ResponseFault>> {
    ExecutionResponse::from_bytes(alloc, &Bytes::from_static(text)).err()
}

#[test]
fn each_refusal_has_its_cause(rt: HostRuntime) {
    for (text, fault) in REFUSED {
        assert_eq!(rt; refusal(rt.alloc(), text), Some(Refused::Fault(*fault)));
    }
}

/// Two responses, and whether they are equal.
const PAIRS: &[(&[u8], &[u8], bool)] = &[
    (
        b"{\"data\":{\"a\":1,\"b\":{\"c\":2,\"d\":3}}}",
        b"{\"data\":{\"b\":{\"d\":3,\"c\":2},\"a\":1}}",
        true,
    ),
    (b"{\"data\":{\"a\":1}}", b"{\"data\":{\"a\":2}}", false),
    (b"{\"data\":{}}", b"{\"data\":null}", false),
    (
        b"{\"errors\":[{\"message\":\"m\",\"extensions\":{\"a\":1,\"b\":2}}]}",
        b"{\"errors\":[{\"message\":\"m\",\"extensions\":{\"b\":2,\"a\":1}}]}",
        true,
    ),
    (
        b"{\"errors\":[{\"message\":\"m\"}]}",
        b"{\"errors\":[{\"message\":\"n\"}]}",
        false,
    ),
    (
        b"{\"errors\":[{\"message\":\"\",\"locations\":[{\"line\":1,\"column\":2}]}]}",
        b"{\"errors\":[{\"message\":\"\",\"locations\":[{\"line\":1,\"column\":3}]}]}",
        false,
    ),
    (
        b"{\"errors\":[{\"message\":\"\",\"path\":[\"a\",0]}]}",
        b"{\"errors\":[{\"message\":\"\",\"path\":[\"a\",1]}]}",
        false,
    ),
    (
        b"{\"errors\":[{\"message\":\"\",\"path\":[\"a\"]}]}",
        b"{\"errors\":[{\"message\":\"\",\"path\":[\"b\"]}]}",
        false,
    ),
];

fn are_equal(alloc: Global, text: &'static [u8], other: &'static [u8]) -> Result<bool, Fail> {
    let response = read(alloc, text)?;
    reads_as(alloc, other, &response)
}

/// Whether a text is this response.
fn reads_as(
    alloc: Global,
    text: &'static [u8],
    response: &ExecutionResponse,
) -> Result<bool, Fail> {
    let read = read(alloc, text)?;
    Ok(read == *response)
}

#[test]
fn responses_are_equal_part_by_part(rt: HostRuntime) -> Result<(), Fail> {
    for (text, other, equal) in PAIRS {
        assert_eq!(rt; are_equal(rt.alloc(), text, other)?, *equal);
    }
    Ok(())
}
