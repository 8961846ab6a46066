//! What a scan changes of a graph, as edits.
//!
//! `note_scan` compares what a scan found with the graph: files are seen as they stand now; rules whose runs asked or wrote
//! other contents, or were told of a folder that came or went, are to be run with all that recorded reads lead to from them;
//! and folders whose readings were told what isn't so any more are to be read again.
#![tactic(auto)]

mod answers;
mod edits;
mod homes;
mod index;
mod laws;
mod made;
mod names;
mod parents;
mod present;
mod roots;
mod scan;
mod settings;
mod stale;
mod stamps;
mod touched;
mod turned;

pub use laws::{scan_edits_are_read, scan_edits_leave};
pub use scan::note_scan;
