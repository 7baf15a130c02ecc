//! The words that a rule can begin with.

ghost use Rattle.std.specs.Prelude.{◌≡◌};
ghost use Rattle.gql_grammar.specs.Starts as spec;

use crate::{Rule, Word};

// Sets of words, a bit for each word at its number. Sums are of sets without a word in common.
const BANG: u64 = 1 << 0;

const DOLLAR: u64 = 1 << 1;

const AMPERSAND: u64 = 1 << 2;

const PAREN_OPEN: u64 = 1 << 3;

const SPREAD: u64 = 1 << 5;

const COLON: u64 = 1 << 6;

const EQUALS: u64 = 1 << 7;

const AT: u64 = 1 << 8;

const BRACKET_OPEN: u64 = 1 << 9;

const BRACE_OPEN: u64 = 1 << 11;

const BAR: u64 = 1 << 12;

const INT_LITERAL: u64 = 1 << 14;

const FLOAT_LITERAL: u64 = 1 << 15;

const STRING_LITERAL: u64 = 1 << 16;

const OPERATION_WORD: u64 = 1 << 18;

const FRAGMENT_WORD: u64 = 1 << 19;

const ON_WORD: u64 = 1 << 20;

const BOOLEAN_WORD: u64 = 1 << 21;

const NULL_WORD: u64 = 1 << 22;

const SCHEMA_WORD: u64 = 1 << 23;

const SCALAR_WORD: u64 = 1 << 24;

const TYPE_WORD: u64 = 1 << 25;

const INTERFACE_WORD: u64 = 1 << 26;

const IMPLEMENTS_WORD: u64 = 1 << 27;

const UNION_WORD: u64 = 1 << 28;

const ENUM_WORD: u64 = 1 << 29;

const INPUT_WORD: u64 = 1 << 30;

const DIRECTIVE_WORD: u64 = 1 << 31;

const REPEATABLE_WORD: u64 = 1 << 32;

const EXTEND_WORD: u64 = 1 << 33;

const NAME: u64 = (1 << 35) - (1 << 17);

const NAME_BUT_ON: u64 = NAME - ON_WORD;

const NAME_BUT_LITERAL: u64 = NAME - BOOLEAN_WORD - NULL_WORD;

const DEFINITION_WORD: u64 = SCHEMA_WORD
    + SCALAR_WORD
    + TYPE_WORD
    + INTERFACE_WORD
    + UNION_WORD
    + ENUM_WORD
    + INPUT_WORD
    + DIRECTIVE_WORD;

impl Rule {
    /// Whether the rule can begin with the word. No rule is without words.
    #[inline(always)]
    pub fn starts(self, word: Word) -> bool
        ensures { result ≡ spec.starts self word }
    {
        (self.first() >> word.number()) % 2 == 1
    }

    /// The words that the rule can begin with.
    #[inline(always)]
    fn first(self) -> u64
        ensures { result ≡ spec.first self }
    {
        match self {
            Rule::Document | Rule::Definition => DEFINITION_WORD
                + BRACE_OPEN
                + STRING_LITERAL
                + OPERATION_WORD
                + FRAGMENT_WORD
                + EXTEND_WORD,
            Rule::OperationDefinition => BRACE_OPEN + OPERATION_WORD,
            Rule::OperationType | Rule::RootOperationTypeDefinition => OPERATION_WORD,
            Rule::SelectionSet
            | Rule::ObjectValue
            | Rule::ConstObjectValue
            | Rule::FieldsDefinition
            | Rule::EnumValuesDefinition
            | Rule::InputFieldsDefinition
            | Rule::RootOperations => BRACE_OPEN,
            Rule::Selection => NAME + SPREAD,
            Rule::Field
            | Rule::Alias
            | Rule::Argument
            | Rule::ObjectField
            | Rule::ConstObjectField
            | Rule::NamedType
            | Rule::ConstArgument
            | Rule::OperationName => NAME,
            Rule::Arguments
            | Rule::VariableDefinitions
            | Rule::ConstArguments
            | Rule::ArgumentsDefinition => PAREN_OPEN,
            Rule::FragmentSpread | Rule::InlineFragment => SPREAD,
            Rule::FragmentDefinition => FRAGMENT_WORD,
            Rule::FragmentName => NAME_BUT_ON,
            Rule::TypeCondition => ON_WORD,
            Rule::Value => NAME
                + DOLLAR
                + BRACKET_OPEN
                + BRACE_OPEN
                + INT_LITERAL
                + FLOAT_LITERAL
                + STRING_LITERAL,
            Rule::ConstValue => NAME
                + BRACKET_OPEN
                + BRACE_OPEN
                + INT_LITERAL
                + FLOAT_LITERAL
                + STRING_LITERAL,
            Rule::BooleanValue => BOOLEAN_WORD,
            Rule::NullValue => NULL_WORD,
            Rule::EnumValue => NAME_BUT_LITERAL,
            Rule::Variable | Rule::VariableDefinition => DOLLAR,
            Rule::ListValue | Rule::ConstListValue | Rule::ListType => BRACKET_OPEN,
            Rule::DefaultValue | Rule::UnionMemberTypes => EQUALS,
            Rule::TypeReference | Rule::NonNullType | Rule::TypeCore => NAME + BRACKET_OPEN,
            Rule::Directives | Rule::ConstDirectives | Rule::Directive | Rule::ConstDirective => AT,
            Rule::Description => STRING_LITERAL,
            Rule::SchemaDefinition => STRING_LITERAL + SCHEMA_WORD,
            Rule::ScalarTypeDefinition => STRING_LITERAL + SCALAR_WORD,
            Rule::ObjectTypeDefinition => STRING_LITERAL + TYPE_WORD,
            Rule::InterfaceTypeDefinition => STRING_LITERAL + INTERFACE_WORD,
            Rule::ImplementsInterfaces => IMPLEMENTS_WORD,
            Rule::FieldDefinition | Rule::InputValueDefinition => NAME + STRING_LITERAL,
            Rule::UnionTypeDefinition => STRING_LITERAL + UNION_WORD,
            Rule::EnumTypeDefinition => STRING_LITERAL + ENUM_WORD,
            Rule::EnumValueDefinition => NAME_BUT_LITERAL + STRING_LITERAL,
            Rule::InputObjectTypeDefinition => STRING_LITERAL + INPUT_WORD,
            Rule::DirectiveDefinition => STRING_LITERAL + DIRECTIVE_WORD,
            Rule::Extension => EXTEND_WORD,
            Rule::FieldSet => NAME + SPREAD + BRACE_OPEN,
            Rule::AmpersandSign | Rule::AmpersandType => AMPERSAND,
            Rule::BarSign | Rule::BarType | Rule::BarLocation => BAR,
            Rule::RepeatableSign => REPEATABLE_WORD,
            Rule::ExtendedDefinition => SCHEMA_WORD
                + SCALAR_WORD
                + TYPE_WORD
                + INTERFACE_WORD
                + UNION_WORD
                + ENUM_WORD
                + INPUT_WORD,
            Rule::SchemaParts | Rule::EnumParts | Rule::InputParts => AT + BRACE_OPEN,
            Rule::ObjectParts => AT + BRACE_OPEN + IMPLEMENTS_WORD,
            Rule::UnionParts => EQUALS + AT,
            Rule::DescribedDefinition => DEFINITION_WORD,
            Rule::AfterSpread => NAME + AT + BRACE_OPEN,
            Rule::AliasTail => COLON,
            Rule::BangTail => BANG,
        }
    }
}
