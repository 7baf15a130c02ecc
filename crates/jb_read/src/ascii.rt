//! ASCII at the front of a string: bytes that need no test of UTF-8.

ghost use Rattle.std.specs.Prelude.{◌≡◌, ◌≤◌, length, take, true};
ghost use Rattle.std.specs.List.{list_all};
ghost use Rattle.jb_read.specs.bridge.Strings.{is_plain_ascii};

/// How many bytes are looked at one by one before runs are, and how many are looked at in one step then.
const RUN: usize = 8;

/// How many bytes at the front are surely ASCII and stand for themselves: all up to the first other one.
pub fn ascii_length(bytes: &[u8]) -> usize
    ensures within { result ≤ length bytes.now }
    ensures ascii { list_all is_plain_ascii (take result bytes.now) ≡ true }
{
    if bytes.len() < RUN {
        return ascii_bytes(bytes);
    }
    let few = ascii_bytes(&bytes[..RUN]);
    if few < RUN {
        return few;
    }
    few + ascii_behind(&bytes[few..])
}

/// The same, where a long string is expected.
fn ascii_behind(bytes: &[u8]) -> usize
    ensures within { result ≤ length bytes.now }
    ensures ascii { list_all is_plain_ascii (take result bytes.now) ≡ true }
{
    let runs = ascii_runs(bytes);
    runs + ascii_bytes(&bytes[runs..])
}

/// The same, byte by byte.
#[inline(always)]
fn ascii_bytes(bytes: &[u8]) -> usize
    ensures within { result ≤ length bytes.now }
    ensures ascii { list_all is_plain_ascii (take result bytes.now) ≡ true }
{
    for at in 0..bytes.len() {
        if !is_plain_ascii(bytes[at]) {
            return at;
        }
    }
    bytes.len()
}

/// The end of the last whole run of such bytes from the start on.
#[inline(always)]
fn ascii_runs(bytes: &[u8]) -> usize
    ensures within { result ≤ length bytes.now }
    ensures ascii { list_all is_plain_ascii (take result bytes.now) ≡ true }
{
    let mut at = 0;
    while bytes.len() - at >= RUN {
        if !are_plain_ascii(&bytes[at..at + RUN]) {
            return at;
        }
        at += RUN;
    }
    at
}

// It goes on behind another byte, so that the bytes can be compared side by side.
#[inline(always)]
fn are_plain_ascii(bytes: &[u8]) -> bool
    ensures { result ≡ list_all is_plain_ascii bytes.now }
{
    let mut plain = true;
    for &byte in bytes {
        plain &= is_plain_ascii(byte);
    }
    plain
}

#[inline(always)]
fn is_plain_ascii(byte: u8) -> bool
    ensures { result ≡ is_plain_ascii byte }
{
    (byte >= 0x20) & (byte < 0x80) & (byte != b'"') & (byte != b'\\')
}
