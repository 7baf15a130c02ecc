//! The calls that are measured.

/// A call that is measured.
#[derive(Clone, Copy, PartialEq, Eq)]
pub enum Call {
    /// The request alone is read, which each other call needs too.
    Read,
    /// A service is made of the schema's text.
    New,
    /// A service is made, and then answers.
    Answer,
    /// A service is made, and then prepares the query.
    Prepare,
    /// A service is made and the query prepared, and then that answers.
    Prepared,
    /// The texts are answered without a service.
    Whole,
}

impl Call {
    /// Every call, in the order in which they are told.
    pub const ALL: [Call; 6] = [
        Call::Read,
        Call::New,
        Call::Answer,
        Call::Prepare,
        Call::Prepared,
        Call::Whole,
    ];

    /// The word that asks for the call. No clause says which: the stored output shows them all.
    pub fn name(self) -> &'static str {
        match self {
            Call::Read => "read",
            Call::New => "new",
            Call::Answer => "answer",
            Call::Prepare => "prepare",
            Call::Prepared => "prepared",
            Call::Whole => "whole",
        }
    }

    /// The call that the word asks for. No clause says which: it is a search through [`Call::ALL`].
    pub fn named(name: &str) -> Option<Call> {
        Call::ALL.into_iter().find(|call| call.name() == name)
    }
}
