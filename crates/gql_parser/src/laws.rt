//! Laws of the definitions alone.

ghost use Rattle.std.specs.Prelude.{◌≡◌, ℕ, List, [], true};
ghost use Rattle.std.specs.List.{list_all};
ghost use Rattle.gql_ast.specs.declared.definition.Definition.{Definition};
ghost use Rattle.gql_ast_laws.specs.Meant.{IsDocumentOf};
ghost use Rattle.gql_diag.specs.List.{Diagnostics};
ghost use Rattle.gql_parser.specs.BuiltInText.{built_in_text, is_scalar_of};
ghost use Rattle.gql_parser.specs.DocumentFaults.{DocumentFaults};
ghost use Rattle.gql_parser.specs.DocumentText.{DocumentText};
ghost use Rattle.gql_parser.specs.OutputFields.{HaveNoReservedFields, HaveOutputTypes};
ghost use Rattle.gql_parser.specs.Roots.{AreRootsObjects};
ghost use Rattle.gql_parser.specs.Running.{AreOnRoots, AreSpreadsDefined};
ghost use Rattle.gql_parser.specs.SameFaults.{TellTheSame};
ghost use Rattle.gql_parser.specs.SchemaFaults.{SchemaFaults};
ghost use Rattle.gql_parser.specs.SchemaText.{SchemaText};
ghost use Rattle.gql_parser.specs.Selecting.{SelectSomething};
ghost use Rattle.gql_document_types.specs.Spreads.{AreAcyclic};
ghost use Rattle.gql_document_types.specs.Typed.{IsDocumentTyped};
ghost use Rattle.gql_document_types.specs.declared.document.ExecutableDocument.{ExecutableDocument as DocumentOf};
ghost use Rattle.gql_document_types.specs.Ranks.{AreRanked};
ghost use Rattle.gql_schema.specs.BuiltInSchema.{IsBuiltIn, built_in_file};
ghost use Rattle.gql_schema_build.specs.declared.built_in.BuiltIn.{BuiltIn};
ghost use Rattle.gql_schema_rules.specs.Scalars.{built_in_scalars};
ghost use Rattle.gql_schema_rules.specs.SchemaFaults.{AreSchemaFaults};
ghost use Rattle.gql_schema_types.specs.declared.schema.Schema.{Schema as SchemaOf};

use gql_ast_laws::laws as tree_laws;
use gql_diag::laws as list_laws;
use gql_grammar::laws as grammar_laws;
use gql_graph::laws as graph_laws;
use gql_lexer::laws as token_laws;

/// The built-in text is a document, and the five built-in scalars are scalars in it (GraphQL October 2021, section 3.5).
pub fn built_in_text_is_a_document()
    ensures document { (definitions : List Definition) × IsDocumentOf built_in_text built_in_file definitions }
    ensures scalars { (built_in : BuiltIn) → IsBuiltIn built_in → list_all (is_scalar_of built_in) built_in_scalars ≡ true }
{
    grammar_laws::factored_is_declared();
    tree_laws::texts_have_one_document();
}

/// A text means one schema at most (GraphQL October 2021, section 3), and none where something is wrong with it. What is
/// wrong with it is one list.
pub fn texts_have_one_schema()
    ensures schema { (text : List ℕ) (one other : SchemaOf) → SchemaText text one → SchemaText text other → one ≡ other }
    ensures no_faults { (text : List ℕ) (schema : SchemaOf) (list : Diagnostics) → SchemaText text schema → SchemaFaults text list → ⊥ }
    ensures faults { (text : List ℕ) (one other : Diagnostics) → SchemaFaults text one → SchemaFaults text other → one ≡ other }
{
    tree_laws::texts_have_one_document();
    list_laws::stable_sorts_are_one();
    token_laws::one_thing_stands();
    grammar_laws::sentences_have_one_tree();
}

/// Where no rule finds a fault in a schema, each root type is an object type of it (GraphQL October 2021, section 3.3.1). And so
/// it is in a schema that a text means, which has the built-in scalars as validation leaves them.
pub fn roots_are_object_types()
    ensures rules { (schema : SchemaOf) → AreSchemaFaults schema [] → AreRootsObjects schema }
    ensures text { (text : List ℕ) (schema : SchemaOf) → SchemaText text schema → AreRootsObjects schema }
{
    built_in_text_is_a_document();
}

/// Against one schema a text means one document at most (GraphQL October 2021, section 2.2), and none where something is wrong
/// with it. Two lists of what is wrong with it tell the same.
pub fn texts_have_one_document_each()
    ensures document { (schema : SchemaOf) (text : List ℕ) (one other : DocumentOf) → DocumentText schema text one → DocumentText schema text other → one ≡ other }
    ensures no_faults { (schema : SchemaOf) (text : List ℕ) (document : DocumentOf) (list : Diagnostics) → DocumentText schema text document → DocumentFaults schema text list → ⊥ }
    ensures faults { (schema : SchemaOf) (text : List ℕ) (one other : Diagnostics) → DocumentFaults schema text one → DocumentFaults schema text other → TellTheSame one other }
{
    tree_laws::texts_have_one_document();
    token_laws::one_thing_stands();
    grammar_laws::sentences_have_one_tree();
}

/// A document that a text means can be executed (GraphQL October 2021, section 6): each fragment that is spread is defined, none
/// leads back to itself, so that each has a rank above those that it spreads, and each operation is on the root type that the
/// schema names for its kind.
pub fn valid_documents_run()
    ensures defined { (schema : SchemaOf) (text : List ℕ) (document : DocumentOf) → DocumentText schema text document → AreSpreadsDefined document }
    ensures acyclic { (schema : SchemaOf) (text : List ℕ) (document : DocumentOf) → DocumentText schema text document
        → AreAcyclic document.fragments }
    ensures ranked { (schema : SchemaOf) (text : List ℕ) (document : DocumentOf) → DocumentText schema text document
        → (rank : ℕ → ℕ) × AreRanked document.fragments rank }
    ensures roots { (schema : SchemaOf) (text : List ℕ) (document : DocumentOf) → DocumentText schema text document → AreOnRoots schema document }
{
    graph_laws::acyclic_graphs_have_ranks();
}

/// Each operation of a document that a text means selects something: between braces at least one selection stands, and where
/// nothing is wrong with a document, none is left out of it (GraphQL October 2021, section 2.4).
pub fn operations_select_something()
    ensures { (schema : SchemaOf) (text : List ℕ) (document : DocumentOf) → DocumentText schema text document → SelectSomething document }
{
    grammar_laws::sentences_have_one_tree();
}

/// Each field of a document that a text means has the definition that the type of its set gives it, at every depth (GraphQL October
/// 2021, section 5.3.1).
pub fn documents_are_typed()
    ensures { (schema : SchemaOf) (text : List ℕ) (document : DocumentOf) → DocumentText schema text document → IsDocumentTyped schema document }
{}

/// In a schema that a text means no type has a field of its own whose name begins with two underscores, so `__schema`, `__type` and
/// `__typename` are introspection's alone (GraphQL October 2021, sections 2.1.9 and 4.1). And each field of an object type or an
/// interface type names a type that is defined and is no input object type (sections 3.3, 3.6 and 3.7).
pub fn fields_have_output_types()
    ensures unreserved { (text : List ℕ) (schema : SchemaOf) → SchemaText text schema → HaveNoReservedFields schema }
    ensures outputs { (text : List ℕ) (schema : SchemaOf) → SchemaText text schema → HaveOutputTypes schema }
{
    grammar_laws::factored_is_declared();
    tree_laws::texts_have_one_document();
    built_in_text_is_a_document();
    tree_laws::fields_stand_in_their_file();
}
