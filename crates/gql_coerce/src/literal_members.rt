//! The members of an object literal by name.

ghost use Rattle.std.specs.Prelude.{◌≡◌, ℕ, List, IfOk};
ghost use Rattle.std.specs.Option.{option_copied};
ghost use Rattle.std.specs.Str.{bytes_eq};
ghost use Rattle.std.specs.Map.{lookup};
ghost use Rattle.gql_coerce.specs.bridge.ByName.{FindsLast};
ghost use Rattle.gql_coerce.specs.LiteralValue.{Literals, last_named};

use crate::outcome::insert;
use gql_ast_base::{Name, Value as Literal};
use jb_map::Pairs;
use jb_text::{ByteString, Memory};
use std::alloc::Global;

/// Up to this many members are gone through; more are kept by hash.
const MOST_SCANNED: usize = 16;

/// The members of an object literal, of which the last of a name counts.
#[derive(Drop)]
pub(crate) enum LiteralMembers<'m> {
    Few(&'m [(Name, Literal)]),
    Many(Pairs<&'m Literal>),
}

impl<'m> LiteralMembers<'m> {
    /// These members.
    pub(crate) fn of(
        alloc: Global,
        members: &'m [(Name, Literal)],
    ) -> Result<LiteralMembers<'m>, Memory>
        ensures { IfOk result (λ made. FindsLast made members.now) }
    {
        if members.len() <= MOST_SCANNED {
            return Ok(LiteralMembers::Few(members));
        }
        Ok(LiteralMembers::Many(last_by_name(alloc, members)?))
    }

    /// The value of the last member of the name.
    pub(crate) fn last(&self, name: &str) -> Option<&'m Literal>
        ensures { (members : Literals) → FindsLast self.now members → option_copied result ≡ last_named name.now members }
    {
        match self {
            LiteralMembers::Few(members) => last_named(members, name),
            LiteralMembers::Many(found) => found.get(name).copied(),
        }
    }
}

/// The value of the last member of each name.
fn last_by_name<'m>(
    alloc: Global,
    members: &'m [(Name, Literal)],
) -> Result<Pairs<&'m Literal>, Memory>
    ensures { IfOk result (λ found. (name : List ℕ) → option_copied (lookup (bytes_eq name) found) ≡ last_named name members.now) }
{
    let mut found = Pairs::new(alloc);
    for member in members {
        let key = ByteString::from_text(alloc, member.0.as_str())?;
        insert(&mut found, key, &member.1)?;
    }
    Ok(found)
}

/// The value of the last member of this name.
fn last_named<'m>(members: &'m [(Name, Literal)], name: &str) -> Option<&'m Literal>
    ensures { option_copied result ≡ last_named name.now members.now }
{
    let mut found = None;
    for member in members {
        if name == member.0.as_str() {
            found = Some(&member.1);
        }
    }
    found
}
