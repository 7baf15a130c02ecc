//! Why something has no value, or a value no such shape.
use jb_tree::Refused;
use thiserror::Error;

/// Why something has no value, or a value has not the shape that was asked for.
#[derive(Clone, Copy, Debug, PartialEq, Eq, Error)]
pub enum ShapeError {
    /// The value, or the text of a key, is not of the kind that was asked for.
    #[error("a value of another kind was asked for")]
    WrongKind,
    /// An array of another length than a pair's two, or an object without exactly one member where a variant was
    /// asked for.
    #[error("the value has another length")]
    WrongLength,
    /// A member that was asked for is not there.
    #[error("a field is missing")]
    MissingField,
    /// A member is none of those that are known.
    #[error("a field is unknown")]
    UnknownField,
    /// The name of a variant is none of those that are known.
    #[error("a variant is unknown")]
    UnknownVariant,
    /// A number is outside the type that was asked for.
    #[error("a number is outside its type")]
    NumberTooLarge,
    /// A key of a type that has no texts.
    #[error("a key is no text")]
    KeyNotText,
}

impl From<ShapeError> for Refused<ShapeError> {
    ghost use Rattle.std.specs.Prelude.{◌≡◌};
    ghost use Rattle.jb_text.specs.declared.refused.Refused.TheVariants as refused_variant;

    ghost from_gives = { λ cause refused. refused ≡ refused_variant.Fault cause };

    fn from(cause: ShapeError) -> Refused<ShapeError> {
        Refused::Fault(cause)
    }
}
