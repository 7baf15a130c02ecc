//! The refusals of calls that allocate: a fault of their own, or out of memory.
use std::alloc::AllocError;

/// Out of memory: the one refusal that every call that allocates has, and that is never merged with another.
pub type Memory = AllocError;

/// Why a call that may run out of memory gave nothing: a fault of its own, or out of memory.
#[derive(Clone, Copy, Debug, PartialEq, Eq, Drop)]
pub enum Refused<E> {
    Fault(E),
    Memory,
}

impl<E> From<AllocError> for Refused<E> {
    ghost use Rattle.std.specs.Prelude.{◌≡◌};
    ghost use Rattle.jb_text.specs.declared.refused.Refused.TheVariants as refused_variant;

    ghost from_gives = { λ _ refused. refused ≡ refused_variant.Memory };

    fn from(_want: AllocError) -> Refused<E> {
        Refused::Memory
    }
}
