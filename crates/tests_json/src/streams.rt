//! Whole inputs and outputs, over each kind of stream.
ghost use Rattle.std.specs.Prelude.{◌<◌};

use bytes::Bytes;
use jb_io::{
    INPUT_LIMIT, InputFault, ReaderSource, SinkFault, Source, SourceFault, SureSink, SureSource,
    WriterSink, read_to_end, write_all,
};
use jb_tree::Refused;
use std::alloc::{AllocError, Global};
use std::test::Fail;

/// Whether the source gives just these bytes to its end.
fn gives<S: Source>(
    alloc: Global,
    source: &mut S,
    wanted: &[u8],
) -> Result<bool, Refused<InputFault>> {
    let bytes = read_to_end(alloc, source)?;
    Ok(bytes.as_slice() == wanted)
}

/// Whether the source gives just these bytes to its end, and has none left then.
fn gives_once<S: Source>(
    alloc: Global,
    source: &mut S,
    wanted: &[u8],
) -> Result<bool, Refused<InputFault>> {
    let is_given = gives(alloc, source, wanted)?;
    Ok(is_given && gives(alloc, source, b"")?)
}

#[test]
fn a_source_is_read_to_its_end(rt: HostRuntime) -> Result<(), Refused<InputFault>> {
    let alloc = rt.alloc();
    for piece in [1, 3, 100] {
        let mut source = SureSource::new(Bytes::from_static(b"some bytes"), piece);
        assert!(rt; gives_once(alloc, &mut source, b"some bytes")?);
    }
    let mut reader = ReaderSource::new(b"more bytes".as_slice());
    assert!(rt; gives(alloc, &mut reader, b"more bytes")?);
    Ok(())
}

/// How many bytes are read of so many spaces.
fn count_read(alloc: Global, count: usize, piece: usize) -> Result<usize, Refused<InputFault>>
    requires { 0 < piece }
{
    let spaces = Bytes::from_vec(vec![in alloc; b' '; count]?).map_err(AllocError::from)?;
    let bytes = read_to_end(alloc, &mut SureSource::new(spaces, piece))?;
    Ok(bytes.len())
}

#[test]
fn the_limit_is_within_reach(rt: HostRuntime) {
    let alloc = rt.alloc();
    assert_eq!(rt; count_read(alloc, INPUT_LIMIT, usize::MAX), Ok(16_777_216));
    let too_long = Err(Refused::Fault(InputFault::TooLong));
    assert_eq!(rt; count_read(alloc, INPUT_LIMIT + 1, 4_096), too_long);
}

/// A source that gives a byte at each call but the second, which fails.
#[derive(Drop)]
struct Faltering(u64);

impl Source for Faltering {
    ghost use Rattle.std.specs.Prelude.{None};

    ghost left = { λ _. None };

    ghost faults = { λ source. source.0 };

    fn read(&mut self, buffer: &mut [u8]) -> Result<usize, SourceFault> {
        self.0 = self.0.saturating_add(1);
        if self.0 == 2 {
            return Err(SourceFault);
        }
        Ok(buffer.len().min(1))
    }
}

#[test]
fn a_source_that_fails_gives_no_text(rt: HostRuntime) {
    let refused = read_to_end(rt.alloc(), &mut Faltering(0));
    assert_eq!(rt;
        refused.err(),
        Some(Refused::Fault(InputFault::SourceFailed))
    );
}

#[test]
fn all_is_written(rt: HostRuntime) -> Result<(), Fail> {
    let mut sure = SureSink::new(rt.alloc(), 16)?;
    write_all(&mut sure, b"a text")?;
    write_all(&mut sure, b"")?;
    assert_eq!(rt; sure.written(), b"a text".as_slice());

    let mut room = [0; 4];
    let mut full = WriterSink::new(room.as_mut_slice());
    assert_eq!(rt; write_all(&mut full, b"a text"), Err(SinkFault));
    assert_eq!(rt; room, *b"a te");
    Ok(())
}
