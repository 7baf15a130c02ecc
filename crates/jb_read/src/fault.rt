//! What a text is refused for, and where.

ghost use Rattle.std.specs.Prelude.{◌≡◌};
ghost use Rattle.jb_read.specs.KindName.{kind_name};
ghost use Rattle.jb_text.specs.declared.refused.Refused.TheVariants.{Fault};

use jb_tree::Refused;

/// Which rule a text breaks first, from the left.
#[derive(Clone, Copy, Debug, PartialEq, Eq)]
pub enum FaultKind {
    /// A byte that no text has there, or a text that ends early (RFC 8259, section 2).
    Syntax,
    /// A number with a fraction or an exponent, or the literal `-0`.
    Float,
    /// A whole number below -2^63 or above 2^64-1.
    NumberRange,
    /// A bracket that opens level 128.
    Depth,
}

impl FaultKind {
    /// Its name in messages: `syntax`, `float`, `number range` or `depth`.
    pub fn name(self) -> &'static str
        ensures { result.now ≡ kind_name self }
    {
        match self {
            FaultKind::Syntax => "syntax",
            FaultKind::Float => "float",
            FaultKind::NumberRange => "number range",
            FaultKind::Depth => "depth",
        }
    }
}

/// The first fault of a text, and the byte where it stands: for `Syntax` the byte itself, or the text's length
/// where the text ends early; for `Float` and `NumberRange` the number's first byte; for `Depth` the bracket.
#[derive(Clone, Copy, Debug, PartialEq, Eq)]
pub struct ReadFault {
    pub kind: FaultKind,
    pub place: usize,
}

/// A fault while a text is read, and how many bytes are left where it stands. Counted from the end it is the same
/// for each beginning that is cut off.
#[derive(Clone, Copy, Debug, PartialEq, Eq)]
pub struct Broken {
    pub kind: FaultKind,
    pub left: usize,
}

/// Why a reader that may allocate gave nothing.
pub type Stop = Refused<Broken>;

impl From<Broken> for Refused<Broken> {
    ghost from_gives = { λ broken stop. stop ≡ Fault broken };

    fn from(broken: Broken) -> Refused<Broken> {
        Refused::Fault(broken)
    }
}
