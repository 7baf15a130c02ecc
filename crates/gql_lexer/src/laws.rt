//! Laws of the definitions alone: what stands at a place of a text, and which strings are block strings.

ghost use Rattle.std.specs.Prelude.{◌≡◌, ℕ, true, false, take};
ghost use Rattle.gql_lexer.specs.BlockString.{is_block_string};
ghost use Rattle.gql_lexer.specs.Class.{Text};
ghost use Rattle.gql_lexer.specs.Lexical.{IsToken, OpensBlock, OpensString, StandsOne};
ghost use Rattle.gql_lexer.specs.declared.token.TokenKind.TheVariants.{StringValue};

/// At the front of each text stands exactly one thing: one token, which has one kind and one length, or one fault, at
/// one place.
///
/// The tokens are those of section 2.1 of GraphQL October 2021.
pub fn one_thing_stands()
    ensures { (at : Text) → StandsOne at }
{}

/// [`is_block_string`](crate::is_block_string) tells the tokens of strings apart: it holds of those that three quotes open,
/// which [`block_string_value`](crate::block_string_value) takes, and of no other.
///
/// The tokens are those of section 2.9.4 of GraphQL October 2021.
pub fn strings_are_told_apart()
    ensures block { (at : Text) (n : ℕ) → IsToken StringValue at n → OpensBlock at → is_block_string (take n at) ≡ true }
    ensures line { (at : Text) (n : ℕ) → IsToken StringValue at n → OpensString at → is_block_string (take n at) ≡ false }
{}
