//! Why the reading of a text stops.

use super::fault::{FaultKind, PatternField};
use std::alloc::AllocError;

/// Why a text is refused, and where: the field that refused it, and the part of the field's list.
#[derive(Clone, Copy, Drop)]
pub enum Cause {
    /// Only white space.
    Empty,
    /// A count of fields that the settings don't accept.
    Invalid,
    /// A character that is not legal in this field, the first that has one.
    Illegal(PatternField),
    /// A text that this field can't read, the first such field, and how many parts of its list come before the first that can't
    /// be read.
    Component(PatternField, usize),
}

impl Cause {
    ghost use Rattle.std.specs.Prelude.{◌≡◌};
    ghost use Rattle.croner.specs.parser.Faults.{kind_of, refused_by};
    ghost use Rattle.croner.specs.Private.parser.Steps.{refusal_of};

    /// The kind of the refusal.
    pub fn kind(self) -> FaultKind
        ensures { result ≡ kind_of (refusal_of self) }
    {
        match self {
            Cause::Empty => FaultKind::EmptyPattern,
            Cause::Invalid => FaultKind::InvalidPattern,
            Cause::Illegal(_) => FaultKind::IllegalCharacters,
            Cause::Component(_, _) => FaultKind::ComponentError,
        }
    }

    /// The field that refused the text, if one did.
    pub fn field(self) -> Option<PatternField>
        ensures { result ≡ refused_by (refusal_of self) }
    {
        match self {
            Cause::Empty | Cause::Invalid => None,
            Cause::Illegal(field) | Cause::Component(field, _) => Some(field),
        }
    }
}

/// Why the reading of a text stops: the text is refused, or memory runs out.
#[derive(Clone, Copy, Drop)]
pub enum Stop {
    Refused(Cause),
    OutOfMemory,
}

impl From<AllocError> for Stop {
    ghost use Rattle.std.specs.Prelude.{◌≡◌};
    ghost use Rattle.croner.specs.declared.parser.stop.Stop.TheVariants as stops;

    ghost from_gives = { λ error r. r ≡ stops.OutOfMemory };

    fn from(_error: AllocError) -> Stop {
        Stop::OutOfMemory
    }
}
