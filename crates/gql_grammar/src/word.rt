//! The words of the grammar: what it tells apart among tokens.

ghost use Rattle.std.specs.Prelude.{◌≡◌};
ghost use Rattle.gql_grammar.specs.Word as spec;

/// A class of tokens that the grammar does not tell apart. Each token that is not ignored is of one word.
///
/// Names come last, so that the tests for sets of names are short.
#[derive(Clone, Copy, Debug, PartialEq, Eq)]
pub enum Word {
    /// `!`
    Bang,
    /// `$`
    Dollar,
    /// `&`
    Ampersand,
    /// `(`
    ParenOpen,
    /// `)`
    ParenClose,
    /// `...`
    Spread,
    /// `:`
    Colon,
    /// `=`
    Equals,
    /// `@`
    At,
    /// `[`
    BracketOpen,
    /// `]`
    BracketClose,
    /// `{`
    BraceOpen,
    /// `|`
    Bar,
    /// `}`
    BraceClose,
    /// An IntValue.
    IntLiteral,
    /// A FloatValue.
    FloatLiteral,
    /// A StringValue, also one in three quotes.
    StringLiteral,
    /// Any name but those below.
    OtherName,
    /// `query`, `mutation` or `subscription`
    OperationWord,
    /// `fragment`
    FragmentWord,
    /// `on`
    OnWord,
    /// `true` or `false`
    BooleanWord,
    /// `null`
    NullWord,
    /// `schema`
    SchemaWord,
    /// `scalar`
    ScalarWord,
    /// `type`
    TypeWord,
    /// `interface`
    InterfaceWord,
    /// `implements`
    ImplementsWord,
    /// `union`
    UnionWord,
    /// `enum`
    EnumWord,
    /// `input`
    InputWord,
    /// `directive`
    DirectiveWord,
    /// `repeatable`
    RepeatableWord,
    /// `extend`
    ExtendWord,
    /// One of the nineteen names of places for directives, such as `FIELD_DEFINITION`.
    LocationWord,
}

impl Word {
    /// The place of the word in the list above, from 0 to 34.
    pub fn number(self) -> u8
        ensures { result ≡ spec.number self }
    {
        self as u8
    }

    /// Whether the two are one word.
    pub fn is(self, other: Word) -> bool
        ensures { result ≡ spec.is_same self other }
    {
        self.number() == other.number()
    }

    /// Whether the word is a name.
    pub fn is_name(self) -> bool
        ensures { result ≡ spec.is_name self }
    {
        self.number() >= Word::OtherName.number()
    }
}
