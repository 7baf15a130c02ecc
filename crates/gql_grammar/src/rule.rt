//! The rules of the grammar.

ghost use Rattle.std.specs.Prelude.{◌≡◌};
ghost use Rattle.gql_grammar.specs.Rule as spec;

use crate::SyntaxKind;

/// A left side of the grammar, a left side in its constant form, or a group of symbols that makes no node.
#[derive(Clone, Copy, Debug, PartialEq, Eq)]
pub enum Rule {
    Document,
    Definition,
    OperationDefinition,
    OperationType,
    SelectionSet,
    Selection,
    Field,
    Alias,
    Arguments,
    Argument,
    FragmentSpread,
    InlineFragment,
    FragmentDefinition,
    FragmentName,
    TypeCondition,
    Value,
    ConstValue,
    BooleanValue,
    NullValue,
    EnumValue,
    Variable,
    ListValue,
    ConstListValue,
    ObjectValue,
    ConstObjectValue,
    ObjectField,
    ConstObjectField,
    VariableDefinitions,
    VariableDefinition,
    DefaultValue,
    TypeReference,
    NamedType,
    ListType,
    NonNullType,
    Directives,
    ConstDirectives,
    Directive,
    ConstDirective,
    ConstArguments,
    ConstArgument,
    Description,
    SchemaDefinition,
    RootOperationTypeDefinition,
    ScalarTypeDefinition,
    ObjectTypeDefinition,
    InterfaceTypeDefinition,
    ImplementsInterfaces,
    FieldsDefinition,
    FieldDefinition,
    ArgumentsDefinition,
    InputValueDefinition,
    UnionTypeDefinition,
    UnionMemberTypes,
    EnumTypeDefinition,
    EnumValuesDefinition,
    EnumValueDefinition,
    InputObjectTypeDefinition,
    InputFieldsDefinition,
    DirectiveDefinition,
    Extension,
    FieldSet,
    OperationName,
    TypeCore,
    RootOperations,
    AmpersandSign,
    AmpersandType,
    BarSign,
    BarType,
    BarLocation,
    RepeatableSign,
    ExtendedDefinition,
    SchemaParts,
    ObjectParts,
    UnionParts,
    EnumParts,
    InputParts,
    DescribedDefinition,
    AfterSpread,
    AliasTail,
    BangTail,
}

impl Rule {
    /// The kind of the node that the rule makes, or None for a group, whose parts stand in the node around it.
    #[inline(always)]
    pub fn kind(self) -> Option<SyntaxKind>
        ensures { result ≡ spec.kind_of self }
    {
        let kind = match self {
            Rule::Document => SyntaxKind::Document,
            Rule::Definition => SyntaxKind::Definition,
            Rule::OperationDefinition => SyntaxKind::OperationDefinition,
            Rule::OperationType => SyntaxKind::OperationType,
            Rule::SelectionSet => SyntaxKind::SelectionSet,
            Rule::Selection => SyntaxKind::Selection,
            Rule::Field => SyntaxKind::Field,
            Rule::Alias => SyntaxKind::Alias,
            Rule::Arguments => SyntaxKind::Arguments,
            Rule::Argument => SyntaxKind::Argument,
            Rule::FragmentSpread => SyntaxKind::FragmentSpread,
            Rule::InlineFragment => SyntaxKind::InlineFragment,
            Rule::FragmentDefinition => SyntaxKind::FragmentDefinition,
            Rule::FragmentName => SyntaxKind::FragmentName,
            Rule::TypeCondition => SyntaxKind::TypeCondition,
            Rule::Value => SyntaxKind::Value,
            Rule::ConstValue => SyntaxKind::Value,
            Rule::BooleanValue => SyntaxKind::BooleanValue,
            Rule::NullValue => SyntaxKind::NullValue,
            Rule::EnumValue => SyntaxKind::EnumValue,
            Rule::Variable => SyntaxKind::Variable,
            Rule::ListValue => SyntaxKind::ListValue,
            Rule::ConstListValue => SyntaxKind::ListValue,
            Rule::ObjectValue => SyntaxKind::ObjectValue,
            Rule::ConstObjectValue => SyntaxKind::ObjectValue,
            Rule::ObjectField => SyntaxKind::ObjectField,
            Rule::ConstObjectField => SyntaxKind::ObjectField,
            Rule::VariableDefinitions => SyntaxKind::VariableDefinitions,
            Rule::VariableDefinition => SyntaxKind::VariableDefinition,
            Rule::DefaultValue => SyntaxKind::DefaultValue,
            Rule::TypeReference => SyntaxKind::TypeReference,
            Rule::NamedType => SyntaxKind::NamedType,
            Rule::ListType => SyntaxKind::ListType,
            Rule::NonNullType => SyntaxKind::NonNullType,
            Rule::Directives => SyntaxKind::Directives,
            Rule::ConstDirectives => SyntaxKind::Directives,
            Rule::Directive => SyntaxKind::Directive,
            Rule::ConstDirective => SyntaxKind::Directive,
            Rule::ConstArguments => SyntaxKind::Arguments,
            Rule::ConstArgument => SyntaxKind::Argument,
            Rule::Description => SyntaxKind::Description,
            Rule::SchemaDefinition => SyntaxKind::SchemaDefinition,
            Rule::RootOperationTypeDefinition => SyntaxKind::RootOperationTypeDefinition,
            Rule::ScalarTypeDefinition => SyntaxKind::ScalarTypeDefinition,
            Rule::ObjectTypeDefinition => SyntaxKind::ObjectTypeDefinition,
            Rule::InterfaceTypeDefinition => SyntaxKind::InterfaceTypeDefinition,
            Rule::ImplementsInterfaces => SyntaxKind::ImplementsInterfaces,
            Rule::FieldsDefinition => SyntaxKind::FieldsDefinition,
            Rule::FieldDefinition => SyntaxKind::FieldDefinition,
            Rule::ArgumentsDefinition => SyntaxKind::ArgumentsDefinition,
            Rule::InputValueDefinition => SyntaxKind::InputValueDefinition,
            Rule::UnionTypeDefinition => SyntaxKind::UnionTypeDefinition,
            Rule::UnionMemberTypes => SyntaxKind::UnionMemberTypes,
            Rule::EnumTypeDefinition => SyntaxKind::EnumTypeDefinition,
            Rule::EnumValuesDefinition => SyntaxKind::EnumValuesDefinition,
            Rule::EnumValueDefinition => SyntaxKind::EnumValueDefinition,
            Rule::InputObjectTypeDefinition => SyntaxKind::InputObjectTypeDefinition,
            Rule::InputFieldsDefinition => SyntaxKind::InputFieldsDefinition,
            Rule::DirectiveDefinition => SyntaxKind::DirectiveDefinition,
            Rule::Extension => SyntaxKind::Extension,
            Rule::FieldSet => SyntaxKind::FieldSet,
            Rule::OperationName
            | Rule::TypeCore
            | Rule::RootOperations
            | Rule::AmpersandSign
            | Rule::AmpersandType
            | Rule::BarSign
            | Rule::BarType
            | Rule::BarLocation
            | Rule::RepeatableSign
            | Rule::ExtendedDefinition
            | Rule::SchemaParts
            | Rule::ObjectParts
            | Rule::UnionParts
            | Rule::EnumParts
            | Rule::InputParts
            | Rule::DescribedDefinition
            | Rule::AfterSpread
            | Rule::AliasTail
            | Rule::BangTail => return None,
        };
        Some(kind)
    }
}
