//! Records that a graph takes last.
ghost use Rattle.std.specs.Prelude.{◌≡◌};
ghost use Rattle.tup_graph.specs.Late.{late_record};

use crate::owned::Owned;
use tup_path::Path;
use tup_record::Record;
use tup_stamp::Stamp;

/// A record that a graph takes last: one of those whose paths stand in the two large maps.
#[derive(Drop)]
pub(crate) enum Late {
    /// A file that was seen.
    Seen { path: Path, stamp: Stamp },
    /// An owned path.
    Owned { path: Path, owned: Owned },
}

impl Late {
    /// The record.
    pub(crate) fn into_record(self) -> Record
        ensures { result ≡ late_record self }
    {
        match self {
            Late::Seen { path, stamp } => Record::Seen { path, stamp },
            Late::Owned { path, owned } => Record::Owned {
                path,
                maker: owned.maker,
                state: owned.state,
            },
        }
    }
}
