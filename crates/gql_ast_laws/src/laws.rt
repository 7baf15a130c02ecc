//! Laws of the definitions alone: what a text stands for is one, whichever tree of it is taken, and what is written of a type is
//! read as that type.

ghost use Rattle.std.specs.Prelude.{◌≡◌, ◌++◌, ℕ, List, None, Some, IsSome, true};
ghost use Rattle.std.specs.List.{All};
ghost use Rattle.gql_ast.specs.Documents.{definitions, definition_of};
ghost use Rattle.gql_ast.specs.TypeText.{type_text};
ghost use Rattle.gql_ast.specs.declared.definition.Definition.{Definition};
ghost use Rattle.gql_ast_base.specs.Types.{type_of};
ghost use Rattle.gql_ast_base.specs.declared.type_ref.TypeRef.{TypeRef};
ghost use Rattle.gql_ast.specs.Selections.{selections, selected};
ghost use Rattle.gql_ast.specs.declared.selection.Selection.{Selection};
ghost use Rattle.gql_ast_laws.specs.Complete.{EachNode};
ghost use Rattle.gql_ast_laws.specs.Defaults.{HasConstantDefaults};
ghost use Rattle.gql_ast_laws.specs.FieldsIn.{HasFieldsIn};
ghost use Rattle.gql_ast_laws.specs.Meant.{IsDocumentOf, AreSelectionsOf, IsTypeOf};
ghost use Rattle.gql_ast_laws.specs.Printed.{has_names, unplaced, RefersTo};
ghost use Rattle.gql_cst.specs.Forest.{Forest, Plain};
ghost use Rattle.gql_cst.specs.Parses.{IsReport};
ghost use Rattle.gql_cst.specs.Report.{Report};
ghost use Rattle.gql_cst.specs.TreeOf.{IsTreeOf};
ghost use Rattle.gql_cst.specs.declared.limits.Limits.{Limits};
ghost use Rattle.gql_grammar.specs.declared.rule.Rule.TheVariants.{Document, FieldSet, TypeReference};
ghost use Rattle.gql_grammar.specs.declared.syntax_kind.SyntaxKind.TheVariants as kind;
ghost use Rattle.gql_source.specs.declared.file_id.FileId.{FileId};

use gql_cst::laws as tree_laws;
use gql_grammar::laws as grammar_laws;

/// A text is one document at most: all its trees have the same definitions, locations included (section 2.2 of GraphQL
/// October 2021).
pub fn texts_have_one_document()
    ensures trees { (text : List ℕ) (file : FileId) (one other : Plain)
        → IsTreeOf Document text one.children → IsTreeOf Document text other.children
        → definitions text file one ≡ definitions text file other }
    ensures document { (text : List ℕ) (file : FileId) (one other : List Definition)
        → IsDocumentOf text file one → IsDocumentOf text file other → one ≡ other }
{
    tree_laws::texts_have_one_tree();
}

/// A text is one list of selections at most, with braces around it or without (section 2.4 of GraphQL October 2021).
pub fn texts_have_one_selection_set()
    ensures trees { (text : List ℕ) (file : FileId) (one other : Forest)
        → IsTreeOf FieldSet text one → IsTreeOf FieldSet text other
        → selections text file one ≡ selections text file other }
    ensures within { (text : List ℕ) (file : FileId) (one other : Forest)
        → IsTreeOf FieldSet text one → IsTreeOf FieldSet text other
        → selected text file one ≡ selected text file other }
    ensures selections { (text : List ℕ) (file : FileId) (one other : List Selection)
        → AreSelectionsOf text file one → AreSelectionsOf text file other → one ≡ other }
{
    tree_laws::texts_have_one_tree();
}

/// A text is one reference to a type at most (section 2.11 of GraphQL October 2021).
pub fn texts_have_one_type()
    ensures trees { (text : List ℕ) (file : FileId) (one other : Plain) → one.kind ≡ kind.TypeReference → other.kind ≡ kind.TypeReference
        → IsTreeOf TypeReference text one.children → IsTreeOf TypeReference text other.children
        → type_of text file one ≡ type_of text file other }
    ensures ty { (text : List ℕ) (file : FileId) (one other : TypeRef)
        → IsTypeOf text file one → IsTypeOf text file other → one ≡ other }
{
    tree_laws::texts_have_one_tree();
}

/// What the tree of a text that was read without an error stands for is what the text stands for. The reading is told of by a
/// report, since a program need not hold the tree; where it holds one, the report is that of the parse.
pub fn parses_mean_their_text()
    ensures document { (text : List ℕ) (file : FileId) (limits : Limits) (report : Report)
        → IsReport Document text limits report → report.error ≡ None
        → IsDocumentOf text file (definitions text file report.tree) }
    ensures selections { (text : List ℕ) (file : FileId) (limits : Limits) (report : Report)
        → IsReport FieldSet text limits report → report.error ≡ None
        → AreSelectionsOf text file (selected text file report.tree.children ++ selections text file report.tree.children) }
    ensures ty { (text : List ℕ) (file : FileId) (limits : Limits) (report : Report) (ty : TypeRef)
        → IsReport TypeReference text limits report → report.error ≡ None
        → type_of text file report.tree ≡ Some ty → IsTypeOf text file ty }
{}

/// In a sentence no definition is left out: each node of a document stands for one (section 2.2 of GraphQL October 2021).
/// And a tree that refers to a type stands for one (section 2.11).
pub fn sentences_are_complete()
    ensures definitions { (text : List ℕ) (file : FileId) (children : Forest)
        → IsTreeOf Document text children → EachNode (λ tree. IsSome (definition_of text file tree)) children }
    ensures ty { (text : List ℕ) (file : FileId) (tree : Plain) → tree.kind ≡ kind.TypeReference
        → IsTreeOf TypeReference text tree.children → IsSome (type_of text file tree) }
{
    grammar_laws::sentences_have_one_tree();
}

/// In a document that a text means no default of a variable or of an input field has a variable in it (GraphQL October 2021,
/// sections 2.10 and 3.10), and what is defined by an input field stands in the text's file.
pub fn defaults_are_constant()
    ensures { (text : List ℕ) (file : FileId) (definitions : List Definition) → IsDocumentOf text file definitions
        → All (HasConstantDefaults file) definitions }
{
    grammar_laws::sentences_have_one_tree();
}

/// In a document that a text means each field of an object type or an interface type, or of an extension of one, stands in the
/// text's file (GraphQL October 2021, sections 3.6 and 3.7).
pub fn fields_stand_in_their_file()
    ensures { (text : List ℕ) (file : FileId) (definitions : List Definition) → IsDocumentOf text file definitions
        → All (HasFieldsIn file) definitions }
{}

/// The text that a type is written as refers to that type, and to no other, the places aside that its names were read
/// from (section 2.11 of GraphQL October 2021).
///
/// Each type that a program holds has such names, since a `Name` is always one.
pub fn printed_types_are_read_back()
    ensures refers { (file : FileId) (ty : TypeRef) → has_names ty ≡ true → RefersTo (type_text ty) file ty }
    ensures alone { (file : FileId) (ty read : TypeRef) → has_names ty ≡ true → IsTypeOf (type_text ty) file read
        → unplaced read ≡ unplaced ty }
{
    texts_have_one_type();
}
