//! Bytes that stand for themselves.

ghost use Rattle.std.specs.Prelude.{◌≡◌, ◌≤◌, ◌+◌, drop, length};
ghost use Rattle.std.specs.List.{prefix_len, list_all};
ghost use Rattle.jb_text.specs.Plain.{is_plain};

/// How many bytes are looked at in one step.
const RUN: usize = 16;

/// How many bytes stand before the first one that does not stand for itself in a JSON string: all of them, where each does.
#[must_use]
#[inline]
pub fn plain_length(bytes: &[u8]) -> usize
    ensures { result ≡ prefix_len is_plain bytes.now }
{
    for at in plain_runs(bytes)..bytes.len() {
        if !is_plain(bytes[at]) {
            return at;
        }
    }
    bytes.len()
}

// The end of the last whole run of plain bytes from the start on, where a run is looked at in one step.
fn plain_runs(bytes: &[u8]) -> usize
    ensures within { result ≤ length bytes.now }
    ensures plain { result + prefix_len is_plain (drop result bytes.now)
        ≡ prefix_len is_plain bytes.now }
{
    let mut at = 0;
    while bytes.len() - at >= RUN {
        if !are_plain(&bytes[at..at + RUN]) {
            return at;
        }
        at += RUN;
    }
    at
}

// It goes on behind a byte that is not plain, so that the bytes can be compared side by side.
#[inline(always)]
fn are_plain(bytes: &[u8]) -> bool
    ensures { result ≡ list_all is_plain bytes.now }
{
    let mut plain = true;
    for &byte in bytes {
        plain &= is_plain(byte);
    }
    plain
}

#[inline(always)]
fn is_plain(byte: u8) -> bool
    ensures { result ≡ is_plain byte }
{
    (byte >= 0x20) & (byte != b'"') & (byte != b'\\')
}
