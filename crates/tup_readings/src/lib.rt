//! The readings of all folders of some sources.
//!
//! A folder's reading may ask about the files of another folder, generated ones included. Rules make
//! files in and below the folder of their Tupfile, where no other Tupfile is on the way; so the files
//! that are generated in a folder are those of its home, the nearest folder at or above it that has a
//! Tupfile. The home is read first, and the reading that asked is begun again. Folders that wait for
//! each other in a circle are told, each by its path. `specs/Answers.antt` says what a reading is
//! told, `specs/Readings.antt` what the readings of a project are. The parts of the walk are public, for
//! one who takes some of the readings from elsewhere.
#![tactic(auto)]

mod asked;
mod config;
mod done;
mod fault;
mod folders;
mod laws;
mod parted;
mod sources;
mod work;

pub use asked::{Asked, Stop};
pub use config::settings;
pub use done::Done;
pub use fault::FoldersFault;
pub use folders::{Came, read, read_folders};
pub use laws::one_outcome;
pub use sources::Sources;
pub use work::Work;
