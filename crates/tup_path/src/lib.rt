//! The words that everything speaks in: bytes, texts, paths of files, lists of these, and values by paths.
//!
//! Contracts see `Bytes` and `Text` as lists of bytes, a `Path` as the list of its names, `Paths` as a
//! list of paths and `Files` as a list of pairs of a path and a content. `Path::resolve` and
//! `Path::show` are exact: they give what `specs/Resolve.antt` and `specs/Show.antt` say.
#![tactic(auto)]

mod by_path;
mod bytes;
mod fault;
mod items;
mod name;
mod path;
mod shared;
mod show;
mod text;

pub use by_path::ByPath;
pub use bytes::Bytes;
pub use fault::PathFault;
pub use items::{Files, Items, Paths, Texts};
pub use path::{MAX_DEPTH, MAX_NAME, Path};
pub use shared::Shared;
pub use show::shown_reads_back;
pub use text::{MAX_EXPANDED, Text};
