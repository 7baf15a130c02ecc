//! The words that tokens are.

ghost use Rattle.std.specs.Prelude.{◌≡◌, ◌<◌, length, if◌then◌else◌};
ghost use Rattle.std.specs.Str.{bytes_eq};
ghost use Rattle.gql_grammar.specs.bridge.Lengths as by_length;
ghost use Rattle.gql_grammar.specs.Spelling as spec;

use crate::Word;

impl Word {
    /// The word of a punctuator, by its first byte. The dots begin `...`.
    pub fn of_punctuator(first: u8) -> Word
        ensures { result ≡ spec.word_of_punctuator first }
    {
        match first {
            b'!' => Word::Bang,
            b'$' => Word::Dollar,
            b'&' => Word::Ampersand,
            b'(' => Word::ParenOpen,
            b')' => Word::ParenClose,
            b':' => Word::Colon,
            b'=' => Word::Equals,
            b'@' => Word::At,
            b'[' => Word::BracketOpen,
            b']' => Word::BracketClose,
            b'{' => Word::BraceOpen,
            b'|' => Word::Bar,
            b'}' => Word::BraceClose,
            _ => Word::Spread,
        }
    }

    /// The word of a name. It is looked for among those of the name's length and first byte alone.
    pub fn of_name(name: &str) -> Word
        ensures { result ≡ spec.word_of_name name.now }
    {
        match name.len() {
            2 => word_of_two(name),
            4 => word_of_four(name),
            5 => word_of_five(name),
            6 => word_of_six(name),
            8 => word_of_eight(name),
            9 => word_of_nine(name),
            10 => word_of_ten(name),
            0 | 1 | 3 | 7 | 11 => Word::OtherName,
            _ => word_of_long(name),
        }
    }
}

/// The word of a name of two bytes.
fn word_of_two(name: &str) -> Word
    ensures { result ≡ by_length.word_of_two name.now }
{
    match name {
        "on" => Word::OnWord,
        _ => Word::OtherName,
    }
}

/// The word of a name of four bytes.
#[tactic(auto, using(crate::proofs::FirstBytes::other_first))]
fn word_of_four(name: &str) -> Word
    requires { 0 < length name.now }
    ensures { result ≡ by_length.word_of_four name.now }
{
    match name.as_bytes()[0] {
        b'E' => one_word(name, "ENUM", Word::LocationWord),
        b't' => two_words(name, "true", Word::BooleanWord, "type", Word::TypeWord),
        b'n' => one_word(name, "null", Word::NullWord),
        b'e' => one_word(name, "enum", Word::EnumWord),
        _ => Word::OtherName,
    }
}

/// The word of a name of five bytes.
#[tactic(auto, using(crate::proofs::FirstBytes::other_first))]
fn word_of_five(name: &str) -> Word
    requires { 0 < length name.now }
    ensures { result ≡ by_length.word_of_five name.now }
{
    match name.as_bytes()[0] {
        b'Q' => one_word(name, "QUERY", Word::LocationWord),
        b'F' => one_word(name, "FIELD", Word::LocationWord),
        b'U' => one_word(name, "UNION", Word::LocationWord),
        b'q' => one_word(name, "query", Word::OperationWord),
        b'f' => one_word(name, "false", Word::BooleanWord),
        b'u' => one_word(name, "union", Word::UnionWord),
        b'i' => one_word(name, "input", Word::InputWord),
        _ => Word::OtherName,
    }
}

/// The word of a name of six bytes.
#[tactic(auto, using(crate::proofs::FirstBytes::other_first))]
fn word_of_six(name: &str) -> Word
    requires { 0 < length name.now }
    ensures { result ≡ by_length.word_of_six name.now }
{
    match name.as_bytes()[0] {
        b'S' => two_words(
            name,
            "SCHEMA",
            Word::LocationWord,
            "SCALAR",
            Word::LocationWord,
        ),
        b'O' => one_word(name, "OBJECT", Word::LocationWord),
        b's' => two_words(name, "schema", Word::SchemaWord, "scalar", Word::ScalarWord),
        b'e' => one_word(name, "extend", Word::ExtendWord),
        _ => Word::OtherName,
    }
}

/// The word of a name of eight bytes.
#[tactic(auto, using(crate::proofs::FirstBytes::other_first))]
fn word_of_eight(name: &str) -> Word
    requires { 0 < length name.now }
    ensures { result ≡ by_length.word_of_eight name.now }
{
    match name.as_bytes()[0] {
        b'M' => one_word(name, "MUTATION", Word::LocationWord),
        b'm' => one_word(name, "mutation", Word::OperationWord),
        b'f' => one_word(name, "fragment", Word::FragmentWord),
        _ => Word::OtherName,
    }
}

/// The word of a name of nine bytes.
#[tactic(auto, using(crate::proofs::FirstBytes::other_first))]
fn word_of_nine(name: &str) -> Word
    requires { 0 < length name.now }
    ensures { result ≡ by_length.word_of_nine name.now }
{
    match name.as_bytes()[0] {
        b'I' => one_word(name, "INTERFACE", Word::LocationWord),
        b'i' => one_word(name, "interface", Word::InterfaceWord),
        b'd' => one_word(name, "directive", Word::DirectiveWord),
        _ => Word::OtherName,
    }
}

/// The word of a name of ten bytes.
#[tactic(auto, using(crate::proofs::FirstBytes::other_first))]
fn word_of_ten(name: &str) -> Word
    requires { 0 < length name.now }
    ensures { result ≡ by_length.word_of_ten name.now }
{
    match name.as_bytes()[0] {
        b'E' => one_word(name, "ENUM_VALUE", Word::LocationWord),
        b'i' => one_word(name, "implements", Word::ImplementsWord),
        b'r' => one_word(name, "repeatable", Word::RepeatableWord),
        _ => Word::OtherName,
    }
}

/// The word, if the name is spelled so.
fn one_word(name: &str, spelling: &str, word: Word) -> Word
    ensures { result ≡ (if bytes_eq name.now spelling.now then word else Word.OtherName) }
{
    if name == spelling {
        word
    } else {
        Word::OtherName
    }
}

/// The word of one or of the other spelling, if the name has one of the two.
fn two_words(name: &str, one: &str, word_of_one: Word, other: &str, word_of_other: Word) -> Word
    ensures { result ≡ (if bytes_eq name.now one.now then word_of_one else if bytes_eq name.now other.now then word_of_other else Word.OtherName) }
{
    if name == one {
        word_of_one
    } else {
        one_word(name, other, word_of_other)
    }
}

/// The word of a name of twelve bytes or more.
fn word_of_long(name: &str) -> Word
    ensures { result ≡ by_length.word_of_long name.now }
{
    match name {
        "SUBSCRIPTION" => Word::LocationWord,
        "FRAGMENT_DEFINITION" => Word::LocationWord,
        "FRAGMENT_SPREAD" => Word::LocationWord,
        "INLINE_FRAGMENT" => Word::LocationWord,
        "VARIABLE_DEFINITION" => Word::LocationWord,
        "FIELD_DEFINITION" => Word::LocationWord,
        "ARGUMENT_DEFINITION" => Word::LocationWord,
        "INPUT_OBJECT" => Word::LocationWord,
        "INPUT_FIELD_DEFINITION" => Word::LocationWord,
        "subscription" => Word::OperationWord,
        _ => Word::OtherName,
    }
}
