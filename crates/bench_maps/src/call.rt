//! The calls that are measured.

/// A call that is measured.
#[derive(Clone, Copy, PartialEq, Eq)]
pub enum Call {
    /// The keys alone are made, which each other call needs too.
    Keys,
    /// Each member is inserted.
    Build,
    /// Each key is looked up.
    Find,
    /// The object is copied.
    Copy,
    /// The object is compared with a copy.
    Equal,
    /// Each key is removed.
    Remove,
}

impl Call {
    /// Every call, in the order in which they are told.
    pub const ALL: [Call; 6] = [
        Call::Keys,
        Call::Build,
        Call::Find,
        Call::Copy,
        Call::Equal,
        Call::Remove,
    ];

    /// The word that asks for the call. No clause says which: the stored output shows them all.
    pub fn name(self) -> &'static str {
        match self {
            Call::Keys => "keys",
            Call::Build => "build",
            Call::Find => "find",
            Call::Copy => "copy",
            Call::Equal => "equal",
            Call::Remove => "remove",
        }
    }

    /// The call that the word asks for. No clause says which: it is a search through [`Call::ALL`].
    pub fn named(name: &str) -> Option<Call> {
        Call::ALL.into_iter().find(|call| call.name() == name)
    }
}
