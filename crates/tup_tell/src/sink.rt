//! A place for lines.
ghost use Rattle.std.specs.Prelude.{◌≡◌, ◌++◌, ℕ, Bool, List, IsTrue, OnOk, OnErr, Err};
ghost use Rattle.tup_tell.specs.Sink.{GrownByPart, CountsFaults};
ghost use Rattle.tup_tell.specs.declared.sink.SinkFailed.TheVariants.{Memory};

use std::alloc::{AllocError, AllocFailed, Global};
use thiserror::Error;
use tup_path::Bytes;

/// Why a write is refused.
#[derive(Clone, Copy, Debug, PartialEq, Eq, Error)]
pub enum SinkFailed {
    /// The outside failed; the sink counts these.
    #[error("the output failed")]
    Fault,
    /// There was no memory.
    #[error("no memory")]
    Memory,
}

impl From<AllocError> for SinkFailed {
    ghost use Rattle.std.specs.Prelude.{◌≡◌};
    ghost use Rattle.tup_tell.specs.declared.sink.SinkFailed.TheVariants.{Memory};

    ghost from_gives = { λ _ failed. failed ≡ Memory };

    fn from(_: AllocError) -> SinkFailed {
        SinkFailed::Memory
    }
}

impl<T: Drop> From<AllocFailed<T>> for SinkFailed {
    ghost use Rattle.std.specs.Prelude.{◌≡◌};
    ghost use Rattle.tup_tell.specs.declared.sink.SinkFailed.TheVariants.{Memory};

    ghost from_gives = { λ _ failed. failed ≡ Memory };

    fn from(_: AllocFailed<T>) -> SinkFailed {
        SinkFailed::Memory
    }
}

/// A place that takes bytes in order, as standard output does.
///
/// A sink may tell what it holds, as one in memory does, or not: clauses on what it holds stand
/// where it tells. Every sink counts its faults: the count rises with each answer `Fault`, and with
/// no other. Want of memory leaves what it holds as it was; only a fault may take a part.
pub trait Sink: Drop {
    /// Whether the sink tells what it holds.
    ghost tells: { Bool };

    /// All bytes that it was given.
    ghost held: { Self → List ℕ };

    /// How often the outside has failed; it stands still at the last `u64`.
    ghost faults: { Self → ℕ };

    /// Takes all bytes, after a fault a front of them, and for want of memory none.
    fn write(&mut self, alloc: Global, bytes: &Bytes) -> Result<(), SinkFailed>
        ensures written { IsTrue tells → OnOk result (held self.new ≡ held self.old ++ bytes.now) }
        ensures part { IsTrue tells
            → OnErr result (GrownByPart bytes.now (held self.old) (held self.new)) }
        ensures memory { IsTrue tells → result ≡ Err Memory → held self.new ≡ held self.old }
        ensures cause { CountsFaults (faults self.old) (faults self.new) result };

    /// How often the outside has failed.
    fn faults(&self) -> u64
        ensures { result ≡ faults self.now };
}
