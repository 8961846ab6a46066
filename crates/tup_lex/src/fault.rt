//! Why a file gives no lines, or a text no rule.
use std::alloc::{AllocError, AllocFailed};
use thiserror::Error;

/// Why a file can't be cut into lines, or a rule into its parts.
#[derive(Clone, Copy, Debug, PartialEq, Eq, Error)]
pub enum LexFault {
    /// The rule hasn't exactly two arrows.
    #[error("a rule has two arrows")]
    NoArrow,
    /// A word of the rule can't stand where it does.
    #[error("bad word")]
    BadBrace,
    /// The file isn't UTF-8; its first wrong byte stands in this line.
    #[error("not UTF-8 in line {line}")]
    NotUtf8 { line: u32 },
    /// The joined line that begins with this one has more than 65,535 bytes.
    #[error("line {line} is too long")]
    LineTooLong { line: u32 },
    /// There was no memory; nothing is known of the file or the text.
    #[error("no memory")]
    Memory,
}

impl From<AllocError> for LexFault {
    ghost use Rattle.std.specs.Prelude.{◌≡◌};
    ghost use Rattle.tup_lex.specs.declared.fault.LexFault.TheVariants.{Memory};

    ghost from_gives = { λ _ fault. fault ≡ Memory };

    fn from(_: AllocError) -> LexFault {
        LexFault::Memory
    }
}

impl<T: Drop> From<AllocFailed<T>> for LexFault {
    ghost use Rattle.std.specs.Prelude.{◌≡◌};
    ghost use Rattle.tup_lex.specs.declared.fault.LexFault.TheVariants.{Memory};

    ghost from_gives = { λ _ fault. fault ≡ Memory };

    fn from(_: AllocFailed<T>) -> LexFault {
        LexFault::Memory
    }
}
