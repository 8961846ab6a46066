//! What is kept of a rule's last good run.
ghost use Rattle.std.specs.Prelude.{◌≡◌};

use std::alloc::{AllocError, Global};
use tup_field::{Field, Reader, RecordFault};
use tup_path::{Bytes, Items, Path};
use tup_stamp::Stamp;

/// Paths that a run asked for, in the order of its asking, each with the stamp of what it found, or `None` where
/// nothing stood there.
pub type Asks = Items<(Path, Option<Stamp>)>;

/// Paths that a run wrote, each with the stamp of its last content.
pub type Writes = Items<(Path, Stamp)>;

/// What a run asked for and wrote.
#[derive(Drop)]
pub struct RunRecord {
    pub asks: Asks,
    pub writes: Writes,
}

impl Clone for RunRecord {
    ghost is_clone = { λ run copy. copy ≡ run };

    fn clone(&self) -> Result<RunRecord, AllocError> {
        Ok(RunRecord {
            asks: self.asks.clone()?,
            writes: self.writes.clone()?,
        })
    }
}

impl Field for RunRecord {
    ghost use Rattle.tup_record.specs.Fields.{run};
    ghost use Rattle.tup_record.specs.FieldLaws.{run-exact};

    ghost format = { run };

    ghost exact = { run-exact };

    fn write(&self, bytes: &mut Bytes) -> Result<(), RecordFault> {
        self.asks.write(bytes)?;
        self.writes.write(bytes)
    }

    fn read(alloc: Global, reader: &mut Reader<'_>) -> Result<RunRecord, RecordFault> {
        let asks = Asks::read(alloc, reader)?;
        let writes = Writes::read(alloc, reader)?;
        Ok(RunRecord { asks, writes })
    }
}
