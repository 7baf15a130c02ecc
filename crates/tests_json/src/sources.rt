//! Sources: each piece that is given, and each call that fails.
use bytes::Bytes;
use jb_io::{MemorySource, ReaderSource, Source, SourceFault, SureSource};
use jb_tree::{Listed, Memory};
use std::alloc::Global;
use std::io;
use std::io::{ErrorKind, Read};

/// What a read into four empty bytes answers, and what it leaves there.
fn read_four<S: Source>(source: &mut S) -> (Result<usize, SourceFault>, [u8; 4]) {
    let mut buffer = [0; 4];
    (source.read(&mut buffer), buffer)
}

const PIECES: &[(usize, [u8; 4])] = &[
    (2, *b"he\0\0"),
    (2, *b"ll\0\0"),
    (1, *b"o\0\0\0"),
    (0, [0; 4]),
];

#[test]
fn a_sure_source_gives_pieces(rt: HostRuntime) {
    let mut source = SureSource::new(Bytes::from_static(b"hello"), 2);
    assert_eq!(rt; source.read(&mut []), Ok(0));
    for (count, bytes) in PIECES {
        assert_eq!(rt; read_four(&mut source), (Ok(*count), *bytes));
    }
}

/// A reader that is interrupted once, gives one byte, and then fails once.
#[derive(Drop)]
struct Faltering(u32);

impl Read for Faltering {
    fn read(&mut self, buf: &mut [u8]) -> io::Result<usize> {
        self.0 = self.0.saturating_add(1);
        match self.0 {
            1 => Err(io::Error::from(ErrorKind::Interrupted)),
            3 => Err(io::Error::from(ErrorKind::Other)),
            _ => b"x".as_slice().read(buf),
        }
    }
}

#[test]
fn a_reader_source_goes_on_past_what_fails(rt: HostRuntime) {
    let mut source = ReaderSource::new(Faltering(0));
    for wanted in [
        (Ok(1), *b"x\0\0\0"),
        (Err(SourceFault), [0; 4]),
        (Ok(1), *b"x\0\0\0"),
    ] {
        assert_eq!(rt; read_four(&mut source), wanted);
    }
}

/// The second and the fourth call.
fn two_calls(alloc: Global) -> Result<Listed<u64>, Memory> {
    let mut fails = Listed::new(alloc);
    fails.push(2)?;
    fails.push(4)?;
    Ok(fails)
}

const ANSWERS: &[(Result<usize, SourceFault>, [u8; 4])] = &[
    (Ok(2), *b"ab\0\0"),
    (Err(SourceFault), [0; 4]),
    (Ok(2), *b"cd\0\0"),
    (Err(SourceFault), [0; 4]),
    (Ok(1), *b"e\0\0\0"),
    (Ok(0), [0; 4]),
];

#[test]
fn listed_calls_fail_and_take_nothing(rt: HostRuntime) -> Result<(), Memory> {
    let fails = two_calls(rt.alloc())?;
    let mut source = MemorySource::new(Bytes::from_static(b"abcde"), 2, fails);
    for wanted in ANSWERS {
        assert_eq!(rt; read_four(&mut source), *wanted);
    }
    Ok(())
}
