//! What the words of the program ask for.

ghost use Rattle.std.specs.Prelude.{MatchOption, map, string_bytes};
ghost use Rattle.gql_engine.specs.Task.{Asks, IsCount, IsNoCommand};
ghost use Rattle.gql_engine.specs.bridge.Task.{IsNoCount};

use crate::decimal_word::decimal_word;

/// What can be wished of a request.
#[derive(Clone, Copy, Debug, PartialEq, Eq)]
pub(crate) enum Wish {
    /// The response.
    Answer,
    /// What is wrong with its texts.
    Check,
}

/// What the program can be asked for.
#[derive(Clone, Copy, Debug, PartialEq, Eq)]
pub(crate) enum Task {
    /// To read a request and to do this with it.
    Request(Wish),
    /// To answer a request of its own, whose data has so many items.
    SelfTest { items: u32 },
}

/// The most items of a self-test.
pub(crate) const MOST_ITEMS: u32 = 100_000;

/// The task that the words ask for: `answer`, `check`, or `selftest` and a number of items.
pub(crate) fn task_asked(words: &[String]) -> Option<Task>
    ensures { MatchOption result (IsNoCommand (map string_bytes words.now)) (Asks (map string_bytes words.now)) }
{
    match words {
        [word] if word.as_str() == "answer" => Some(Task::Request(Wish::Answer)),
        [word] if word.as_str() == "check" => Some(Task::Request(Wish::Check)),
        [word, count] if word.as_str() == "selftest" => {
            let items = count_in(count.as_str())?;
            Some(Task::SelfTest { items })
        }
        _ => None,
    }
}

/// The number that a word is in decimal without a leading zero, if it is no more than the most.
fn count_in(word: &str) -> Option<u32>
    ensures { MatchOption result (IsNoCount word.now) (IsCount word.now) }
{
    match decimal_word(word) {
        Some(count) if count <= MOST_ITEMS => Some(count),
        _ => None,
    }
}
