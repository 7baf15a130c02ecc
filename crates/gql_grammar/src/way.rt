//! The way to write a rule that the next word chooses.

ghost use Rattle.std.specs.Option.{option_map};
ghost use Rattle.std.specs.Prelude.{◌≡◌};
ghost use Rattle.gql_grammar.specs.Starts as spec;

use crate::{Rule, Symbol, Word, definition, executable, extension, value};

impl Rule {
    /// The symbols that the rule is written with where it begins with the word, or None where it cannot.
    #[inline(always)]
    pub fn way(self, word: Word) -> Option<&'static [Symbol]>
        ensures { option_map (λ way. way.now) result ≡ spec.way self word }
    {
        if self.starts(word) {
            Some(self.chosen(word))
        } else {
            None
        }
    }

    /// The first way that can begin with the word, and the last where none before it can.
    #[inline(never)]
    fn chosen(self, word: Word) -> &'static [Symbol]
        ensures { result.now ≡ spec.chosen_way self word }
    {
        match self {
            Rule::Document => executable::DOCUMENT,
            Rule::Definition => executable::definition(word),
            Rule::OperationDefinition => executable::operation_definition(word),
            Rule::OperationType => executable::OPERATION_TYPE,
            Rule::SelectionSet => executable::SELECTION_SET,
            Rule::Selection => executable::selection(word),
            Rule::Field => executable::FIELD,
            Rule::Alias => executable::ALIAS,
            Rule::Arguments => executable::ARGUMENTS,
            Rule::Argument => executable::ARGUMENT,
            Rule::FragmentSpread => executable::FRAGMENT_SPREAD,
            Rule::InlineFragment => executable::INLINE_FRAGMENT,
            Rule::FragmentDefinition => executable::FRAGMENT_DEFINITION,
            Rule::FragmentName => executable::FRAGMENT_NAME,
            Rule::TypeCondition => executable::TYPE_CONDITION,
            Rule::Value => value::value(word),
            Rule::ConstValue => value::const_value(word),
            Rule::BooleanValue => value::BOOLEAN_VALUE,
            Rule::NullValue => value::NULL_VALUE,
            Rule::EnumValue => value::ENUM_VALUE,
            Rule::Variable => value::VARIABLE,
            Rule::ListValue => value::LIST_VALUE,
            Rule::ConstListValue => value::CONST_LIST_VALUE,
            Rule::ObjectValue => value::OBJECT_VALUE,
            Rule::ConstObjectValue => value::CONST_OBJECT_VALUE,
            Rule::ObjectField => value::OBJECT_FIELD,
            Rule::ConstObjectField => value::CONST_OBJECT_FIELD,
            Rule::VariableDefinitions => value::VARIABLE_DEFINITIONS,
            Rule::VariableDefinition => value::VARIABLE_DEFINITION,
            Rule::DefaultValue => value::DEFAULT_VALUE,
            Rule::TypeReference => value::TYPE_REFERENCE,
            Rule::NamedType => value::NAMED_TYPE,
            Rule::ListType => value::LIST_TYPE,
            Rule::NonNullType => value::NON_NULL_TYPE,
            Rule::Directives => value::DIRECTIVES,
            Rule::ConstDirectives => value::CONST_DIRECTIVES,
            Rule::Directive => value::DIRECTIVE,
            Rule::ConstDirective => value::CONST_DIRECTIVE,
            Rule::ConstArguments => value::CONST_ARGUMENTS,
            Rule::ConstArgument => value::CONST_ARGUMENT,
            Rule::Description => value::DESCRIPTION,
            Rule::SchemaDefinition => definition::SCHEMA_DEFINITION,
            Rule::RootOperationTypeDefinition => definition::ROOT_OPERATION_TYPE_DEFINITION,
            Rule::ScalarTypeDefinition => definition::SCALAR_TYPE_DEFINITION,
            Rule::ObjectTypeDefinition => definition::OBJECT_TYPE_DEFINITION,
            Rule::InterfaceTypeDefinition => definition::INTERFACE_TYPE_DEFINITION,
            Rule::ImplementsInterfaces => definition::IMPLEMENTS_INTERFACES,
            Rule::FieldsDefinition => definition::FIELDS_DEFINITION,
            Rule::FieldDefinition => definition::FIELD_DEFINITION,
            Rule::ArgumentsDefinition => definition::ARGUMENTS_DEFINITION,
            Rule::InputValueDefinition => definition::INPUT_VALUE_DEFINITION,
            Rule::UnionTypeDefinition => definition::UNION_TYPE_DEFINITION,
            Rule::UnionMemberTypes => definition::UNION_MEMBER_TYPES,
            Rule::EnumTypeDefinition => definition::ENUM_TYPE_DEFINITION,
            Rule::EnumValuesDefinition => definition::ENUM_VALUES_DEFINITION,
            Rule::EnumValueDefinition => definition::ENUM_VALUE_DEFINITION,
            Rule::InputObjectTypeDefinition => definition::INPUT_OBJECT_TYPE_DEFINITION,
            Rule::InputFieldsDefinition => definition::INPUT_FIELDS_DEFINITION,
            Rule::DirectiveDefinition => definition::DIRECTIVE_DEFINITION,
            Rule::Extension => extension::EXTENSION,
            Rule::FieldSet => executable::field_set(word),
            Rule::OperationName => executable::OPERATION_NAME,
            Rule::TypeCore => value::type_core(word),
            Rule::RootOperations => definition::ROOT_OPERATIONS,
            Rule::AmpersandSign => definition::AMPERSAND_SIGN,
            Rule::AmpersandType => definition::AMPERSAND_TYPE,
            Rule::BarSign => definition::BAR_SIGN,
            Rule::BarType => definition::BAR_TYPE,
            Rule::BarLocation => definition::BAR_LOCATION,
            Rule::RepeatableSign => definition::REPEATABLE_SIGN,
            Rule::ExtendedDefinition => extension::extended_definition(word),
            Rule::SchemaParts => extension::schema_parts(word),
            Rule::ObjectParts => extension::object_parts(word),
            Rule::UnionParts => extension::union_parts(word),
            Rule::EnumParts => extension::enum_parts(word),
            Rule::InputParts => extension::input_parts(word),
            Rule::DescribedDefinition => definition::described_definition(word),
            Rule::AfterSpread => executable::after_spread(word),
            Rule::AliasTail => executable::ALIAS_TAIL,
            Rule::BangTail => value::BANG_TAIL,
        }
    }
}
