//! Words of names and signs, and each public call once.

use gql_grammar::{Rule, Symbol, SyntaxKind, Terminal, Word, laws};

const NAMES: &[(&str, Word)] = &[
    ("on", Word::OnWord),
    ("On", Word::OtherName),
    ("mutation", Word::OperationWord),
    ("false", Word::BooleanWord),
    ("INPUT_FIELD_DEFINITION", Word::LocationWord),
    ("FIELD", Word::LocationWord),
    ("extend", Word::ExtendWord),
    ("", Word::OtherName),
];

fn is_word(name: &str, word: Word) -> bool {
    Word::of_name(name) == word && Terminal::AnyName.takes(word)
}

#[test]
fn words_of_tokens(rt: HostRuntime) {
    for (name, word) in NAMES {
        assert!(rt; is_word(name, *word), "{name}");
    }
    assert!(rt; Word::of_punctuator(b'|') == Word::Bar);
    assert!(rt; Word::of_punctuator(b'.') == Word::Spread);
}

/// Whether a selection is a field before a name, has two parts behind dots, and does not begin with a brace.
fn selection_has_its_ways() -> bool {
    let field = Rule::Selection.way(Word::TypeWord);
    let spread = Rule::Selection.way(Word::Spread);
    matches!(field, Some([Symbol::One(Rule::Field)]))
        && matches!(spread, Some([_, _]))
        && Rule::Selection.way(Word::BraceOpen).is_none()
}

#[test]
fn ways_of_a_selection(rt: HostRuntime) {
    assert!(rt; selection_has_its_ways());
    assert!(rt; Rule::Selection.kind() == Some(SyntaxKind::Selection));
    assert!(rt; Rule::AfterSpread.kind().is_none());
    laws::sentences_have_one_tree();
    laws::factored_is_declared();
    laws::first_word_chooses();
}
