//! What the words of the program ask for.

ghost use Rattle.std.specs.Prelude.{MatchOption, map, string_bytes};
ghost use Rattle.gql_cost.specs.Words.{Asks, IsNoCommand};

use crate::cost_limit::CostLimit;
use gql_engine::serving::decimal_word;

/// The limit that the words ask for: how many items lists are taken to have, and how many nodes may be, each in decimal without a
/// leading zero.
pub(crate) fn limit_asked(words: &[String]) -> Option<CostLimit>
    ensures { MatchOption result (IsNoCommand (map string_bytes words.now)) (Asks (map string_bytes words.now)) }
{
    match words {
        [items, nodes] => {
            let items = decimal_word(items.as_str())?;
            let nodes = decimal_word(nodes.as_str())?;
            Some(CostLimit { items, nodes })
        }
        _ => None,
    }
}
