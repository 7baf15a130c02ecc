//! What one turn of the machine comes to.

ghost use Rattle.std.specs.Prelude.{◌≡◌, if◌then◌else◌};
ghost use Rattle.std.specs.Option.{option_map};
ghost use Rattle.gql_grammar.specs.bridge.Stands as stands;
ghost use Rattle.gql_cst.specs.bridge.Machine as spec;

use gql_grammar::{Rule, Symbol, Terminal, Word};

/// What one turn came to.
#[derive(Clone, Copy)]
pub(crate) enum Turn {
    /// The next word still stands.
    Again,
    /// The next word is what a token of the grammar wants.
    Taken,
    /// No sentence goes on with the next word.
    Refused,
    /// Nothing is left to read.
    Finished,
}

/// The way to write the rule that the next word chooses.
#[inline(always)]
pub(crate) fn way_at(rule: Rule, next: Option<Word>) -> Option<&'static [Symbol]>
    ensures { option_map (λ way. way.now) result ≡ stands.way_at rule next }
{
    match next {
        Some(word) => rule.way(word),
        None => None,
    }
}

/// What a terminal makes of the next word.
pub(crate) fn token_turn(terminal: Terminal, next: Option<Word>) -> Turn
    ensures { (s : spec.State) → spec.told result s ≡ (if spec.takes_at terminal next then spec.taken s else spec.refused s) }
{
    match next {
        Some(word) if terminal.takes(word) => Turn::Taken,
        _ => Turn::Refused,
    }
}
