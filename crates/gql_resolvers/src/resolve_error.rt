//! Why a resolver has no value.

use jb_text::{Memory, Text};

/// Why a field has no value: the text that stands after `resolver error: ` in the error that is listed.
#[derive(Drop)]
pub struct FieldError {
    pub message: Text,
}

/// Why a resolver gave nothing: a failure of its own, or out of memory.
#[derive(Drop)]
pub enum ResolveError {
    Field(FieldError),
    Memory,
}

impl From<Memory> for ResolveError {
    ghost use Rattle.std.specs.Prelude.{◌≡◌};
    ghost use Rattle.gql_resolvers.specs.declared.resolve_error.ResolveError.TheVariants as refused;

    ghost from_gives = { λ _ error. error ≡ refused.Memory };

    fn from(_want: Memory) -> ResolveError {
        ResolveError::Memory
    }
}

impl From<FieldError> for ResolveError {
    ghost use Rattle.std.specs.Prelude.{◌≡◌};
    ghost use Rattle.gql_resolvers.specs.declared.resolve_error.ResolveError.TheVariants as refused;

    ghost from_gives = { λ field error. error ≡ refused.Field field };

    fn from(field: FieldError) -> ResolveError {
        ResolveError::Field(field)
    }
}
