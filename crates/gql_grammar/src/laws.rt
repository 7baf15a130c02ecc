//! Laws of the definitions alone: what the tables of the grammar mean.

ghost use Rattle.std.specs.Prelude.{◌≡◌, true, is_some, List, [], ◌∷◌, Some};
ghost use Rattle.gql_grammar.specs.declared.rule.Rule.{Rule};
ghost use Rattle.gql_grammar.specs.declared.symbol.Symbol.{Symbol};
ghost use Rattle.gql_grammar.specs.declared.symbol.Symbol.TheVariants.{One};
ghost use Rattle.gql_grammar.specs.declared.word.Word.{Word};
ghost use Rattle.gql_grammar.specs.Factored.{factored};
ghost use Rattle.gql_grammar.specs.Nodes.{AllAllowed};
ghost use Rattle.gql_grammar.specs.Reads.{Reads};
ghost use Rattle.gql_grammar.specs.Sentence.{IsOneOf, Sentence};
ghost use Rattle.gql_grammar.specs.Row.{Row, nothing, leaves};
ghost use Rattle.gql_grammar.specs.Rule.{kind_of};
ghost use Rattle.gql_grammar.specs.Starts.{way};

/// A list of words has one tree at most from each start. Its leaves are the words, and each of its nodes is one that a
/// rule of its kind allows.
pub fn sentences_have_one_tree()
    ensures tree { (start : Rule) (ws : List Word) (f g : Row)
        → Sentence start ws f → Sentence start ws g → f ≡ g }
    ensures words { (start : Rule) (ws : List Word) (f : Row) → Sentence start ws f → leaves f ≡ ws }
    ensures nodes { (start : Rule) (ws : List Word) (f : Row) → Sentence start ws f → AllAllowed f }
{}

/// The factored grammar, of which [`crate::Rule::way`] gives the ways, makes of all words what the declared grammar
/// makes of them, from each start that makes a node.
pub fn factored_is_declared()
    ensures sound { (start : Rule) (ws : List Word) (f : Row) → is_some (kind_of start) ≡ true
        → Reads factored (One start ∷ []) nothing ws f [] → Sentence start ws f }
    ensures complete { (start : Rule) (ws : List Word) (f : Row)
        → Sentence start ws f → Reads factored (One start ∷ []) nothing ws f [] }
{}

/// A way to write a rule that reads words is the one that the first of them chooses.
pub fn first_word_chooses()
    ensures { (r : Rule) (w : Word) (ws vs : List Word) (x y : Row) (a : List Symbol)
        → IsOneOf a (factored r) → Reads factored a x (w ∷ ws) y vs → way r w ≡ Some a }
{}
