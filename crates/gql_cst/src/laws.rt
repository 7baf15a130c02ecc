//! Laws of the definitions alone: a text has one list of tokens and, ignored tokens aside, one tree, and what a parse tells
//! of it is one.

ghost use Rattle.std.specs.Prelude.{◌≡◌, ℕ, List, None};
ghost use Rattle.gql_grammar.specs.declared.rule.Rule.{Rule};
ghost use Rattle.gql_cst.specs.declared.limits.Limits.{Limits};
ghost use Rattle.gql_cst.specs.declared.limits.Parsed.{Parsed};
ghost use Rattle.gql_cst.specs.Forest.{Forest, plain};
ghost use Rattle.gql_cst.specs.Leaves.{Leaf, Tiles};
ghost use Rattle.gql_cst.specs.Parses.{IsParse};
ghost use Rattle.gql_cst.specs.Sentences.{root_kind};
ghost use Rattle.gql_cst.specs.Bare.{bare, TokensEnd};
ghost use Rattle.gql_cst.specs.TreeOf.{IsTreeOf};

use gql_grammar::laws as grammar_laws;
use gql_lexer::laws as lexer_laws;

/// The tokens of a text between two places are one list, those included that the grammar ignores.
///
/// Tokens are those of section 2.1 of GraphQL October 2021.
pub fn tokens_are_one()
    ensures { (text : List ℕ) (from to : ℕ) (one other : List Leaf) → Tiles text from one to → Tiles text from other to → one ≡ other }
{
    lexer_laws::one_thing_stands();
}

/// A text has one tree from each start, once ignored tokens and the places of inner nodes are left out. In none of its
/// trees does a word stand below a token.
///
/// Sentences are those of appendix B of GraphQL October 2021.
pub fn texts_have_one_tree()
    ensures tree { (start : Rule) (text : List ℕ) (one other : Forest)
        → IsTreeOf start text one → IsTreeOf start text other → bare one ≡ bare other }
    ensures ends { (start : Rule) (text : List ℕ) (one : Forest) → IsTreeOf start text one → TokensEnd one }
{
    tokens_are_one();
    grammar_laws::sentences_have_one_tree();
}

/// What a parse without an error gives is a tree of the text, whose node is that of the start.
pub fn parses_are_trees()
    ensures children { (start : Rule) (text : List ℕ) (limits : Limits) (parsed : Parsed)
        → IsParse start text limits parsed → parsed.error ≡ None → IsTreeOf start text (plain parsed.tree).children }
    ensures kind { (start : Rule) (text : List ℕ) (limits : Limits) (parsed : Parsed)
        → IsParse start text limits parsed → (plain parsed.tree).kind ≡ root_kind start }
{}

/// What a parse tells of a text is one: two parses of a text within the same limits end by the same error, or both by none,
/// and have the same counts.
pub fn parses_tell_the_same()
    ensures error { (start : Rule) (text : List ℕ) (limits : Limits) (one other : Parsed)
        → IsParse start text limits one → IsParse start text limits other → one.error ≡ other.error }
    ensures levels { (start : Rule) (text : List ℕ) (limits : Limits) (one other : Parsed)
        → IsParse start text limits one → IsParse start text limits other → one.recursion_reached ≡ other.recursion_reached }
    ensures tokens { (start : Rule) (text : List ℕ) (limits : Limits) (one other : Parsed)
        → IsParse start text limits one → IsParse start text limits other → one.tokens_reached ≡ other.tokens_reached }
{
    lexer_laws::one_thing_stands();
    grammar_laws::sentences_have_one_tree();
}
