//! What is written of a schema is read as definitions that say the same. Each of these laws is on the text that `gql_sdl` writes, in
//! any file, and each leaves aside the places that things were read from.

ghost use Rattle.std.specs.Prelude.{◌≡◌, ◌≤◌, ℕ, List, map};
ghost use Rattle.gql_source.specs.declared.file_id.FileId.{FileId};
ghost use Rattle.gql_ast.specs.declared.definition.Definition.{Definition};
ghost use Rattle.gql_ast_base.specs.declared.value.ValueKind.{ValueKind};
ghost use Rattle.gql_ast_laws.specs.Meant.{IsDocumentOf};
ghost use Rattle.gql_cst.specs.Nesting.{nesting};
ghost use Rattle.gql_print_laws.specs.Literal.{literal_of};
ghost use Rattle.gql_print_laws.specs.ReadBack.{IsValueOf};
ghost use Rattle.gql_sdl.specs.Schemas.{schema_text};
ghost use Rattle.gql_sdl.specs.declared.shown.ShownDirective.{ShownDirective};
ghost use Rattle.gql_sdl.specs.declared.shown.ShownEnumValue.{ShownEnumValue};
ghost use Rattle.gql_sdl.specs.declared.shown.ShownField.{ShownField};
ghost use Rattle.gql_sdl.specs.declared.shown.ShownInput.{ShownInput};
ghost use Rattle.gql_sdl.specs.declared.shown.ShownSchema.{ShownSchema};
ghost use Rattle.gql_sdl.specs.declared.shown.ShownType.{ShownType};
ghost use Rattle.gql_print_laws.specs.Depth.{literal_depth};
ghost use Rattle.gql_print_laws.specs.Forms.{IsReadBack, SaysSchema, input_form, field_form, enum_value_form, named_type_form, directive_form, roots_form};
ghost use Rattle.gql_print_laws.specs.Meant.{says};
ghost use Rattle.gql_print_laws.specs.Printable.{IsInput, IsField, IsEnumValue, IsType, IsDirective, AreRoots, IsSchema};
ghost use Rattle.gql_print_laws.specs.Told.{schema_told};

use gql_ast_laws::laws as text_laws;
use gql_cst::laws as tree_laws;

/// What is written of an argument, or of a field of an input object, is an InputValueDefinition by the grammar. It stands for one with
/// the description, the name, the type, the default and the deprecation that are shown, and for no other (GraphQL October 2021, section
/// 3.6.1). The name and those in the type are to be names, a default is to be what is written of a constant value, and both the type and
/// the default are to be nested at most 500 deep.
pub fn printed_inputs_are_read_back()
    ensures { (file : FileId) (it : ShownInput) → IsInput it → IsReadBack input_form file it }
{
    tree_laws::texts_have_one_tree();
}

/// What is written of a field is a FieldDefinition by the grammar. It stands for one with the description, the name, the arguments, the
/// type and the deprecation that are shown, and for no other (GraphQL October 2021, section 3.6).
pub fn printed_fields_are_read_back()
    ensures { (file : FileId) (it : ShownField) → IsField it → IsReadBack field_form file it }
{
    tree_laws::texts_have_one_tree();
}

/// What is written of an enum value is an EnumValueDefinition by the grammar. It stands for one with the description, the name and the
/// deprecation that are shown, and for no other (GraphQL October 2021, section 3.9). The name is to be none of `true`, `false` and
/// `null`.
pub fn printed_enum_values_are_read_back()
    ensures { (file : FileId) (it : ShownEnumValue) → IsEnumValue it → IsReadBack enum_value_form file it }
{
    tree_laws::texts_have_one_tree();
}

/// What is written of a type is a Definition by the grammar. It stands for a type of that kind, with the description and the name that
/// are shown, and with those of the URL, the interfaces, the fields, the member types, the values, the input fields and `@oneOf` that
/// such a type has; and for nothing else (GraphQL October 2021, sections 3.5 to 3.10).
pub fn printed_type_definitions_are_read_back()
    ensures { (file : FileId) (it : ShownType) → IsType it → IsReadBack named_type_form file it }
{
    tree_laws::texts_have_one_tree();
}

/// What is written of a directive is a Definition by the grammar. It stands for the definition of a directive with the description, the
/// name, the arguments and the locations that are shown, which may be repeated where that is shown; and for nothing else (GraphQL
/// October 2021, section 3.13). There is to be a location.
pub fn printed_directive_definitions_are_read_back()
    ensures { (file : FileId) (it : ShownDirective) → IsDirective it → IsReadBack directive_form file it }
{
    tree_laws::texts_have_one_tree();
}

/// What is written of a schema itself is a Definition by the grammar. It stands for a schema with the description and the root types
/// that are shown, and for nothing else (GraphQL October 2021, section 3.3).
pub fn printed_schema_definitions_are_read_back()
    ensures { (file : FileId) (it : ShownSchema) → AreRoots it → IsReadBack roots_form file it }
{
    tree_laws::texts_have_one_tree();
}

/// What is written of a whole schema is a document by the grammar, nested at most 500 deep, and its definitions say what is shown, one
/// after the other: the schema with its root types, then the directives, then the types, the built-in ones left out. All that the text
/// means says this (GraphQL October 2021, section 3).
pub fn printed_schemas_are_read_back()
    ensures reads { (file : FileId) (it : ShownSchema) → IsSchema it → SaysSchema file (schema_text it) it }
    ensures alone { (file : FileId) (it : ShownSchema) (meant : List Definition) → IsSchema it → IsDocumentOf (schema_text it) file meant
        → map says meant ≡ schema_told it }
{
    text_laws::texts_have_one_document();
}

/// A constant value that a text stands for is nested no deeper than the tree of the text (GraphQL October 2021, section 2.9). So what is
/// written of it is a default that can be printed, wherever a parser reads the text.
pub fn read_values_nest_as_their_text()
    ensures { (text : List ℕ) (file : FileId) (read : ValueKind) (is : IsValueOf text file read)
        → literal_depth (literal_of read) ≤ nesting is.children }
{}
