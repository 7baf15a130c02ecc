//! Sinks: what each takes and holds, and each call that fails.
use jb_io::{MemorySink, Sink, SinkFault, SureSink, WriterSink};
use jb_tree::{Listed, Memory};
use std::io;
use std::io::{ErrorKind, Write};

/// What is written, and what a sink of five bytes then holds, and whether that is all.
const SURE_WRITES: &[(&str, &str, bool)] = &[
    ("abc", "abc", true),
    ("", "abc", true),
    ("de", "abcde", true),
    ("f", "abcde", false),
];

#[test]
fn a_sure_sink_holds_what_fits(rt: HostRuntime) -> Result<(), Memory> {
    let mut sink = SureSink::new(rt.alloc(), 5)?;
    for (bytes, held, is_whole) in SURE_WRITES {
        assert_eq!(rt; sink.write(bytes.as_bytes()), Ok(bytes.len()));
        assert_eq!(rt; sink.is_whole(), *is_whole);
        assert_eq!(rt; sink.written(), held.as_bytes());
    }
    Ok(())
}

#[test]
fn a_small_sure_sink_holds_the_first_bytes(rt: HostRuntime) -> Result<(), Memory> {
    let mut small = SureSink::new(rt.alloc(), 2)?;
    assert_eq!(rt; small.write(b"abc"), Ok(3));
    assert!(rt; !small.is_whole());
    assert_eq!(rt; small.written(), b"ab".as_slice());
    Ok(())
}

/// Whether each of these texts is taken whole.
fn takes<S: Sink>(sink: &mut S, texts: &[&str]) -> bool {
    for text in texts {
        if sink.write(text.as_bytes()) != Ok(text.len()) {
            return false;
        }
    }
    true
}

#[test]
fn a_writer_sink_hands_on_what_it_takes(rt: HostRuntime) {
    let mut held = Vec::new(rt.alloc());
    assert!(rt; takes(&mut WriterSink::new(&mut held), &["ab", "", "c"]));
    assert_eq!(rt; held.as_slice(), b"abc".as_slice());
}

/// What a writer does at its writes, in turn, and at each flush.
#[derive(Drop)]
struct Scripted<'a> {
    writes: &'a [Option<usize>],
    interrupts: u32,
    flushes: bool,
}

impl Write for Scripted<'_> {
    fn write(&mut self, buf: &[u8]) -> io::Result<usize> {
        if self.interrupts > 0 {
            self.interrupts -= 1;
            return Err(io::Error::from(ErrorKind::Interrupted));
        }
        let Some((first, rest)) = self.writes.split_first() else {
            return Err(io::Error::from(ErrorKind::Other));
        };
        self.writes = rest;
        match first {
            Some(count) => Ok((*count).min(buf.len())),
            None => Err(io::Error::from(ErrorKind::BrokenPipe)),
        }
    }

    fn flush(&mut self) -> io::Result<()> {
        if self.flushes {
            Ok(())
        } else {
            Err(io::Error::from(ErrorKind::StorageFull))
        }
    }
}

const SCRIPTED_WRITES: &[(&str, Result<usize, SinkFault>)] = &[
    ("abc", Ok(2)),
    ("a broken pipe", Err(SinkFault)),
    ("a write of nothing", Err(SinkFault)),
    ("c", Ok(1)),
];

#[test]
fn a_writer_sink_goes_on_past_what_fails(rt: HostRuntime) {
    let mut sink = WriterSink::new(Scripted {
        writes: &[Some(2), None, Some(0), Some(9)],
        interrupts: 3,
        flushes: true,
    });
    for (bytes, wanted) in SCRIPTED_WRITES {
        assert_eq!(rt; sink.write(bytes.as_bytes()), *wanted, "{bytes}");
    }
    let mut full = WriterSink::new(Scripted {
        writes: &[Some(1)],
        interrupts: 0,
        flushes: false,
    });
    assert_eq!(rt; full.write(b"c"), Err(SinkFault), "no flush");
}

const MEMORY_WRITES: &[(&str, Result<usize, SinkFault>)] = &[
    ("abcd", Ok(3)),
    ("d", Err(SinkFault)),
    ("defg", Ok(2)),
    ("", Ok(0)),
    ("f", Err(SinkFault)),
];

#[test]
fn listed_calls_fail_and_so_does_a_full_sink(rt: HostRuntime) -> Result<(), Memory> {
    let mut fails = Listed::new(rt.alloc());
    fails.push(2)?;
    let mut sink = MemorySink::new(rt.alloc(), 5, 3, fails)?;
    for (bytes, wanted) in MEMORY_WRITES {
        assert_eq!(rt; sink.write(bytes.as_bytes()), *wanted, "{bytes}");
    }
    assert_eq!(rt; sink.written(), b"abcde".as_slice());
    Ok(())
}
