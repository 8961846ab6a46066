//! What a scan sees.
use tup_path::{Bytes, Items, Path};
use tup_stamp::Stamp;

/// Paths of files, each with the stamp of its content.
pub type Stamps = Items<(Path, Stamp)>;

/// The files of a tree as a scan sees them.
#[derive(Drop)]
pub struct Seen {
    /// All files with their stamps, in the order of paths.
    pub files: Stamps,
    /// The content of the top's tup.config, where it is there.
    pub config: Option<Bytes>,
}
