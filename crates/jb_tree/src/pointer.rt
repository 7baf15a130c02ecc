//! What a JSON Pointer names in a value (RFC 6901).
ghost use Rattle.std.specs.Prelude.{◌≡◌, ◌<◌, ℕ, [], ◌∷◌, length, position, decimal, MatchOption};
ghost use Rattle.std.specs.Option.{option_copied, option_copied_mut};
ghost use Rattle.std.specs.Str.{bytes_eq};
ghost use Rattle.std.specs.Map.{keys_of, lookup};
ghost use Rattle.jb_tree.specs.Pointer.{decoded, item_named, child as named_child, pointed};

use crate::value::{Map, Value};
use itoa::Buffer;
use jb_text::Listed;

impl Value {
    /// What a JSON Pointer names (RFC 6901): the empty text the value itself; behind each `/` the next token, a key in
    /// an object (`~1` stands for `/` and `~0` for `~`), or in an array a place in decimal digits without a leading
    /// zero. `None` where there is no such place, or the text is no pointer.
    pub fn pointer(&self, pointer: &str) -> Option<&Value>
        ensures { option_copied result ≡ pointed pointer.now self.now }
    {
        if pointer.is_empty() {
            return Some(self);
        }
        let mut rest = pointer.strip_prefix('/')?;
        let mut place = self;
        'tokens: while let Some((token, more)) = rest.split_once('/') {
            place = child(place, token)?;
            rest = more;
        }
        child(place, rest)
    }

    /// The same, to be changed in its place. No clause says what a write there leaves of the rest.
    pub fn pointer_mut(&mut self, pointer: &str) -> Option<&mut Value>
        ensures { option_copied_mut result ≡ pointed pointer.now self.old }
    {
        if pointer.is_empty() {
            return Some(self);
        }
        let mut rest = pointer.strip_prefix('/')?;
        let mut place = self;
        'tokens: while let Some((token, more)) = rest.split_once('/') {
            place = child_mut(place, token)?;
            rest = more;
        }
        child_mut(place, rest)
    }
}

/// What one token names in a value.
fn child<'v>(value: &'v Value, token: &str) -> Option<&'v Value>
    ensures { option_copied result ≡ named_child token.now value.now }
{
    match value {
        Value::Array(items) => match item_place(items.len(), token) {
            Some(place) => items.get(place),
            None => None,
        },
        Value::Object(members) => match member_place(members, token) {
            Some(place) => Some(members.value_at(place)),
            None => None,
        },
        _ => None,
    }
}

/// The same, to be changed in its place.
fn child_mut<'v>(value: &'v mut Value, token: &str) -> Option<&'v mut Value>
    ensures { option_copied_mut result ≡ named_child token.now value.old }
{
    match value {
        Value::Array(items) => item_mut(items, token),
        Value::Object(members) => member_mut(members, token),
        _ => None,
    }
}

fn item_mut<'v>(items: &'v mut Listed<Value>, token: &str) -> Option<&'v mut Value>
    ensures { option_copied_mut result ≡ item_named token.now 0 items.old }
{
    match item_place(items.len(), token) {
        Some(place) => items.get_mut(place),
        None => None,
    }
}

fn member_mut<'v>(members: &'v mut Map, token: &str) -> Option<&'v mut Value>
    ensures { option_copied_mut result ≡ lookup (bytes_eq (decoded token.now)) members.old }
{
    match member_place(members, token) {
        Some(place) => Some(members.value_mut_at(place)),
        None => None,
    }
}

/// The place below `len` that the token writes.
pub(crate) fn item_place(len: usize, token: &str) -> Option<usize>
    ensures { MatchOption result ((i : ℕ) → i < len → ¬ (token.now ≡ decimal i)) (λ i. (i < len) × (token.now ≡ decimal i)) }
{
    let Ok(place) = token.parse::<usize>() else {
        return None;
    };
    if place < len && Buffer::new().format(place) == token {
        Some(place)
    } else {
        None
    }
}

/// The place of the member that the token names.
pub(crate) fn member_place(members: &Map, token: &str) -> Option<usize>
    ensures { result ≡ position (bytes_eq (decoded token.now)) (keys_of members.now) }
{
    if !token.contains('~') {
        return members.find(token);
    }
    for index in 0..members.len() {
        if decodes_to(token.as_bytes(), members.key_at(index).as_str().as_bytes()) {
            return Some(index);
        }
    }
    None
}

/// Whether the token stands for this key, byte by byte, so that no memory is taken.
fn decodes_to(token: &[u8], key: &[u8]) -> bool
    ensures { result ≡ bytes_eq (decoded token.now) key.now }
{
    let mut token = token;
    let mut key = key;
    'bytes: while let Some((byte, more)) = first_decoded(token) {
        match key.split_first() {
            Some((first, others)) if *first == byte => {
                token = more;
                key = others;
            }
            _ => return false,
        }
    }
    key.is_empty()
}

/// The first byte that a token stands for, and the rest of the token.
fn first_decoded(token: &[u8]) -> Option<(u8, &[u8])>
    ensures { MatchOption result (token.now ≡ []) (λ p. (decoded token.now ≡ p.0 ∷ decoded p.1.now) × (length p.1.now < length token.now)) }
{
    let Some((first, rest)) = token.split_first() else {
        return None;
    };
    let byte = *first;
    if byte != b'~' {
        return Some((byte, rest));
    }
    let Some((second, more)) = rest.split_first() else {
        return Some((byte, rest));
    };
    let second = *second;
    if second == b'1' {
        Some((b'/', more))
    } else if second == b'0' {
        Some((b'~', more))
    } else {
        Some((byte, rest))
    }
}
