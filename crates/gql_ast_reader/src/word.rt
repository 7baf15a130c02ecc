//! Words among the tokens of a row.

ghost use Rattle.std.specs.Prelude.{◌≡◌};
ghost use Rattle.std.specs.Option.{option_copied};
ghost use Rattle.gql_ast_base.specs.Parts.{is_word};

/// Whether something stands there, and it is the word.
pub(crate) fn word_is(found: Option<&str>, word: &str) -> bool
    ensures { result ≡ is_word (option_copied found.entry) word.now }
{
    match found {
        Some(found) => found == word,
        None => false,
    }
}
