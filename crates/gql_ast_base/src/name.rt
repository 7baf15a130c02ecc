//! Names.

ghost use Rattle.std.specs.Prelude.{◌≡◌, true, Some, nat_eq};
ghost use Rattle.std.specs.List.{list_all};
ghost use Rattle.gql_cst.specs.Class.{is_name_start, is_name_continue};
ghost use Rattle.gql_ast_base.specs.Names.{is_name, is_reserved, IsNamed};
ghost use Rattle.gql_ast_base.specs.Parts as parts;

use crate::convert::Convert;
use crate::copying::Copying;
use crate::source::Source;
use crate::token::name_of;
use gql_cst::Tree;
use gql_source::SourceSpan;
use jb_text::{ByteString, Memory, Refused};
use std::alloc::Global;
use std::cmp::Ordering;
use std::hash::{Hash, Hasher};
use std::marker::Model;

/// Why a text is no [`Name`].
#[derive(Clone, Copy, Debug, PartialEq, Eq)]
pub enum NameFault {
    /// It is not a letter or `_`, and then letters, digits and `_` alone.
    InvalidName,
}

/// A name (GraphQL October 2021, section 2.1.9), and the place that it was read from.
///
/// A contract sees a record with `text` and `location`.
pub struct Name {
    text: ByteString,
    location: Option<SourceSpan>,
}

impl Drop for Name {
    fn drop(self) {
        let Name {
            text: _,
            location: _,
        } = self;
    }
}

impl Model for Name {
    ghost use Rattle.std.specs.Prelude.{◌≡◌, true};
    ghost use Rattle.gql_ast_base.specs.Names.{Named, is_name};

    ghost Value = { Named };

    ghost view = { λ name. record { text = name.text; location = name.location } };

    ghost invariant = { λ name. is_name name.text ≡ true };
}

impl Name {
    /// The name with this text, from no place. `InvalidName` exactly where the text is no name; else `Err` only where
    /// memory runs out.
    pub fn new(alloc: Global, text: &str) -> Result<Name, Refused<NameFault>>
        ensures { IsNamed text.now result }
    {
        if !Name::is_valid_syntax(text) {
            return Err(Refused::Fault(NameFault::InvalidName));
        }
        match ByteString::from_text(alloc, text) {
            Ok(text) => Ok(Name {
                text,
                location: None,
            }),
            Err(_) => Err(Refused::Memory),
        }
    }

    /// The name with this text, read from this place.
    pub(crate) fn at(text: ByteString, location: Option<SourceSpan>) -> Name
        requires { is_name text ≡ true }
        ensures { result ≡ record { text = text; location = location } }
    {
        Name { text, location }
    }

    /// Whether the text is a name: a letter or `_`, and then letters, digits and `_` alone.
    #[must_use]
    pub fn is_valid_syntax(text: &str) -> bool
        ensures { result ≡ is_name text.now }
    {
        match text.as_bytes().split_first() {
            Some((first, rest)) => is_name_start(*first) && are_name_continue(rest),
            None => false,
        }
    }

    /// Whether it begins with two underscores, as the names that introspection keeps for itself do (section 2.1.9).
    #[must_use]
    pub fn is_reserved(&self) -> bool
        ensures { result ≡ is_reserved self.now.text }
    {
        match self.as_str().as_bytes() {
            [one, two, ..] => *one == b'_' && *two == b'_',
            _ => false,
        }
    }

    /// The text of the name.
    #[must_use]
    pub fn as_str(&self) -> &str
        ensures text { result.now ≡ self.now.text }
        ensures name { is_name self.now.text ≡ true }
    {
        self.text.as_str()
    }

    /// The text of the name, which may share the bytes of the text that it was read from.
    #[must_use]
    pub fn text(&self) -> &ByteString
        ensures { result.now ≡ self.now.text }
    {
        &self.text
    }

    /// The place that the name was read from, if it was read.
    #[must_use]
    pub fn location(&self) -> Option<SourceSpan>
        ensures { result ≡ self.now.location }
    {
        self.location
    }

    /// The same name from this place.
    #[must_use]
    pub fn with_location(self, location: SourceSpan) -> Name
        ensures { result ≡ record { text = self.text; location = Some location } }
    {
        let Name { text, location: _ } = self;
        Name {
            text,
            location: Some(location),
        }
    }
}

impl Copying for Name {
    /// The same name from the same place, whose text is shared. `Err` only where memory runs out.
    fn copy(&self, alloc: Global) -> Result<Name, Memory> {
        Ok(Name {
            text: self.text.copy(alloc)?,
            location: self.location,
        })
    }
}

impl Convert for Name {
    ghost meaning = { parts.name_of };

    /// The name that a token is.
    fn read(source: &Source<'_>, tree: &Tree) -> Result<Option<Name>, Memory> {
        let made = name_of(source, tree)?;
        Ok(made)
    }
}

// Names compare, order and hash as their texts: where they were read from is left aside.
impl PartialEq for Name {
    ghost use Rattle.std.specs.Prelude.{nat_eq};
    ghost use Rattle.std.specs.Cmp.{partial_equiv_from_equiv, on_per};
    ghost use Rattle.std.specs.Cmp.Lexicographic.{pointwise, nat_list_eq_equiv};

    ghost eq = { λ a b. pointwise nat_eq a.text b.text };

    ghost laws = { on_per (λ name. name.text) (partial_equiv_from_equiv nat_list_eq_equiv) };

    fn eq(&self, other: &Self) -> bool {
        self.as_str() == other.as_str()
    }
}

impl Eq for Name {
    ghost use Rattle.std.specs.Cmp.{on_equiv};
    ghost use Rattle.std.specs.Cmp.Lexicographic.{nat_list_eq_equiv};

    ghost laws = { on_equiv (λ name. name.text) nat_list_eq_equiv };
}

impl PartialOrd for Name {
    ghost use Rattle.std.specs.Prelude.{Some};
    ghost use Rattle.std.specs.Ordering.{nat_cmp};
    ghost use Rattle.std.specs.Cmp.{on_po};
    ghost use Rattle.std.specs.Cmp.Lexicographic.{slice_cmp, texts_po};

    ghost partial_cmp = { λ a b. Some (slice_cmp nat_cmp a.text b.text) };

    ghost laws = { on_po (λ name. name.text) texts_po };

    fn partial_cmp(&self, other: &Self) -> Option<Ordering> {
        Some(self.cmp(other))
    }
}

impl Ord for Name {
    ghost use Rattle.std.specs.Prelude.{refl};
    ghost use Rattle.std.specs.Ordering.{nat_cmp};
    ghost use Rattle.std.specs.Cmp.{on_total};
    ghost use Rattle.std.specs.Cmp.Lexicographic.{slice_cmp, nat_list_cmp_total, texts_ties};

    ghost cmp = { λ a b. slice_cmp nat_cmp a.text b.text };

    ghost total = { on_total (λ name. name.text) nat_list_cmp_total };

    ghost matches_partial_cmp = { λ a b. refl };

    ghost matches_eq = { λ a b. texts_ties a.text b.text };

    fn cmp(&self, other: &Self) -> Ordering {
        self.as_str().cmp(other.as_str())
    }
}

impl Hash for Name {
    ghost use Rattle.std.specs.Hash as fed;
    ghost use Rattle.std.specs.Cmp.Rules.{hashing};
    ghost use Rattle.std.proofs.Common.{rules};

    ghost hash_input = { λ name. fed.str name.text };

    ghost respects_eq = { Prim.search (hashing, rules) };

    fn hash<H: Hasher>(&self, state: &mut H) {
        self.as_str().hash(state);
    }
}

// A letter or `_`.
fn is_name_start(byte: u8) -> bool
    ensures { result ≡ is_name_start byte }
{
    // Most letters of names are small.
    byte.is_ascii_lowercase() || matches!(byte, b'_' | b'A'..=b'Z')
}

fn are_name_continue(bytes: &[u8]) -> bool
    ensures { result ≡ list_all is_name_continue bytes.now }
{
    bytes
        .iter()
        .all(|&byte| is_name_start(byte) || byte.is_ascii_digit())
}
