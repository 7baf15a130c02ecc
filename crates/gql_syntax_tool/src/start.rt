//! What the words of the program ask for.

ghost use Rattle.std.specs.Prelude.{◌≡◌};
ghost use Rattle.gql_syntax_tool.specs.Start.{start_asked, start_named};

/// What a text is read as.
#[derive(Clone, Copy, Debug, PartialEq, Eq)]
pub enum Start {
    /// A document (GraphQL October 2021, section 2.2).
    Document,
    /// A selection set, or selections without the braces around them (section 2.4).
    SelectionSet,
    /// A reference to a type (section 2.11).
    TypeReference,
}

/// What the words ask to read a text as: its name alone.
pub(crate) fn start_asked(words: &[String]) -> Option<Start>
    ensures { result ≡ start_asked words.now }
{
    match words {
        [word] => start_named(word.as_str()),
        _ => None,
    }
}

fn start_named(word: &str) -> Option<Start>
    ensures { result ≡ start_named word.now }
{
    if word == "document" {
        Some(Start::Document)
    } else if word == "selection_set" {
        Some(Start::SelectionSet)
    } else if word == "type" {
        Some(Start::TypeReference)
    } else {
        None
    }
}
