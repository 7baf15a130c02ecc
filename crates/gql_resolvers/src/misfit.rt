//! What is wrong with an answer of a resolver.

ghost use Rattle.std.specs.Prelude.{◌≡◌, ℕ, List, IfOk, Some};
ghost use Rattle.gql_resolvers.specs.bridge.Seen.{misfit_seen, Refuses};
ghost use Rattle.gql_resolvers.specs.Fit as spec;

use jb_text::{Memory, Refused, Text};

/// What is wrong with an answer of a resolver: the message, and whether validation should have found it before.
#[derive(Drop)]
pub struct Misfit {
    pub message: Text,
    pub suspected: bool,
}

/// The misfit with this message.
pub(crate) fn wrong(message: Result<Text, Memory>) -> Result<Option<Misfit>, Memory>
    ensures { (text : List ℕ) → IfOk message (λ made. made ≡ text) → IfOk result (λ found. misfit_seen found ≡ Some (spec.wrong text)) }
{
    Ok(Some(Misfit {
        message: message?,
        suspected: false,
    }))
}

/// The misfit with this message that validation should have found.
pub(crate) fn bug(message: Result<Text, Memory>) -> Result<Option<Misfit>, Memory>
    ensures { (text : List ℕ) → IfOk message (λ made. made ≡ text) → IfOk result (λ found. misfit_seen found ≡ Some (spec.bug text)) }
{
    Ok(Some(Misfit {
        message: message?,
        suspected: true,
    }))
}

/// The refusal with this message.
pub(crate) fn refuse<A>(message: Result<Text, Memory>) -> Result<A, Refused<Misfit>>
    ensures { (text : List ℕ) → IfOk message (λ made. made ≡ text) → Refuses (spec.wrong text) result }
{
    match message {
        Ok(message) => Err(Refused::Fault(Misfit {
            message,
            suspected: false,
        })),
        Err(_) => Err(Refused::Memory),
    }
}

/// The refusal of what validation should have found.
pub(crate) fn suspect<A>(message: Result<Text, Memory>) -> Result<A, Refused<Misfit>>
    ensures { (text : List ℕ) → IfOk message (λ made. made ≡ text) → Refuses (spec.bug text) result }
{
    match message {
        Ok(message) => Err(Refused::Fault(Misfit {
            message,
            suspected: true,
        })),
        Err(_) => Err(Refused::Memory),
    }
}
