//! What is written of a constant value is read as that value, and as no other.

ghost use Rattle.std.specs.Prelude.{◌≡◌, ℕ, List};
ghost use Rattle.gql_source.specs.declared.file_id.FileId.{FileId};
ghost use Rattle.gql_ast.specs.ValueText.{value_text};
ghost use Rattle.gql_ast_base.specs.declared.value.Value.{Value};
ghost use Rattle.gql_ast_base.specs.declared.value.ValueKind.{ValueKind};
ghost use Rattle.gql_print_laws.specs.Literal.{literal_in, literal_of};
ghost use Rattle.gql_print_laws.specs.ReadBack.{IsValueOf, StandsFor};
ghost use Rattle.gql_print_laws.specs.Written.{IsConstant};

use gql_cst::laws as tree_laws;

/// A text is one constant value at most, the places included that it is read from (section 2.9 of GraphQL October 2021).
pub fn texts_have_one_value()
    ensures { (text : List ℕ) (file : FileId) (one other : ValueKind)
        → IsValueOf text file one → IsValueOf text file other → one ≡ other }
{
    tree_laws::texts_have_one_tree();
}

/// The text that a constant value is written as is a constant value by the grammar, and stands for that value and for no other,
/// the places aside (section 2.9 of GraphQL October 2021).
///
/// A value is constant where no variable stands in it, its names are names, and each of its numbers is a token.
pub fn printed_values_are_read_back()
    ensures reads { (file : FileId) (value : Value) → IsConstant (literal_in value) → StandsFor (value_text value) file (literal_in value) }
    ensures alone { (file : FileId) (value : Value) (read : ValueKind) → IsConstant (literal_in value) → IsValueOf (value_text value) file read
        → literal_of read ≡ literal_in value }
{
    texts_have_one_value();
}

/// What a text stands for as a constant value is constant: no variable stands in it, its names are names, and each of its numbers is a
/// token by itself (section 2.9 of GraphQL October 2021).
pub fn read_values_are_constant()
    ensures { (text : List ℕ) (file : FileId) (read : ValueKind) → IsValueOf text file read → IsConstant (literal_of read) }
{}
