//! What a response has at a place.

ghost use Rattle.std.specs.Prelude.{◌≡◌, false, slice_get};
ghost use Rattle.std.specs.Option.{option_copied, option_map_or};
ghost use Rattle.std.specs.Str.{bytes_eq};
ghost use Rattle.gql_collect.specs.Plan.{group_in, groups_in};
ghost use Rattle.gql_checker_laws.specs.Reported as spec;
ghost use Rattle.gql_response_check.specs.bridge.Views.{claims_in, is_bad, value_in};

use crate::claim::Claim;
use gql_collect::Part;
use jb_text::Listed;
use jb_tree::{Map, Value};

/// What a response has at a place: the value that its data have there, and the errors whose paths go to the place or through it.
#[derive(Clone, Copy)]
pub(crate) struct Reported<'p, 'r> {
    pub value: Option<&'r Value>,
    pub claims: &'p [Claim<'r>],
}

impl<'r> Reported<'_, 'r> {
    /// Whether the response has nothing there.
    pub(crate) fn is_idle(&self) -> bool
        ensures { result ≡ spec.is_idle (value_in self.now) (claims_in self.now) }
    {
        self.value.is_none() && self.claims.is_empty()
    }

    /// Whether the value is this leaf, the order of pairs included.
    pub(crate) fn is_leaf(&self, leaf: &Value) -> bool
        ensures { result ≡ spec.is_leaf leaf.now (value_in self.now) }
    {
        match self.value {
            Some(value) => leaf.is_identical(value),
            None => false,
        }
    }

    /// Whether the value is neither as it is given nor a null that is held there.
    pub(crate) fn is_bad(&self, held: bool, given: bool) -> bool
        ensures { result ≡ is_bad held given (value_in self.now) }
    {
        match self.value {
            Some(value) => !given && !(held && value.is_null()),
            None => false,
        }
    }

    /// The items, where the value is a list of so many.
    pub(crate) fn items(&self, count: usize) -> Option<&'r Listed<Value>>
        ensures { option_copied result ≡ spec.items_of count (value_in self.now) }
    {
        let items = self.value?.as_array()?;
        if items.len() == count {
            Some(items)
        } else {
            None
        }
    }

    /// The members, where the value is an object that has the keys of the parts in order.
    pub(crate) fn members(&self, parts: &Listed<Part<'_>>) -> Option<&'r Map>
        ensures { option_copied result ≡ spec.members_of (groups_in parts.now) (value_in self.now) }
    {
        with_keys(parts, self.value?.as_object())
    }
}

/// The members, where they are there and have the keys of the parts in order.
pub(crate) fn with_keys<'r>(parts: &Listed<Part<'_>>, members: Option<&'r Map>) -> Option<&'r Map>
    ensures { option_copied result ≡ spec.with_keys (groups_in parts.now) (option_copied members.entry) }
{
    let members = members?;
    if are_keys(parts, members) {
        Some(members)
    } else {
        None
    }
}

/// Whether the members have the keys of the parts in order.
fn are_keys(parts: &Listed<Part<'_>>, members: &Map) -> bool
    ensures { result ≡ spec.have_keys (groups_in parts.now) members.now }
{
    let count = parts.len();
    if members.len() != count {
        return false;
    }
    for number in 0..count {
        if !is_key(parts, number, members.key_at(number).as_str()) {
            return false;
        }
    }
    true
}

/// Whether the part of the number has the key.
fn is_key(parts: &Listed<Part<'_>>, number: usize, key: &str) -> bool
    ensures { result ≡ option_map_or (λ part. bytes_eq (spec.key_in (group_in part)) key.now) (slice_get parts.now number) false }
{
    match parts.get(number) {
        Some(part) => part.field.group.key().as_str() == key,
        None => false,
    }
}

/// The item at an index, where there is one.
pub(crate) fn item_at<'r>(items: Option<&'r Listed<Value>>, index: usize) -> Option<&'r Value>
    ensures { option_copied result ≡ spec.item_at index (option_copied items.entry) }
{
    items?.get(index)
}

/// The value of the member of a number, where there is one.
pub(crate) fn member_at<'r>(members: Option<&'r Map>, number: usize) -> Option<&'r Value>
    ensures { option_copied result ≡ spec.member_at number (option_copied members.entry) }
{
    let members = members?;
    if number < members.len() {
        Some(members.value_at(number))
    } else {
        None
    }
}
