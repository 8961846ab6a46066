//! A map from keys to values in the bytes of a store, which a crash leaves as it was before a commit or as it is
//! after it.
//!
//! The bytes are a head and then commits, each behind a gate: a byte that is opened only once the whole commit is
//! durable. `read` gives the entries that they stand for, and `appended` the bytes by which a store takes a commit.
//! Both ways are exact: what is written is read, and what is refused is no store.
//!
//! A `Table` stands for the store of a site. `make` begins a store, `open` reads what a crash left, and `commit` carries
//! out changes, with two writes and two syncs.
//!
//! The commits stand in the low area, right behind the head. `compact` makes them one commit of all entries. It writes this
//! behind them, as the high area, and opens the switch in the head, by which the high area is read; it writes it into the low
//! area, closes the switch, and cuts the store behind it. What a crash left of this, `open` finishes.
#![tactic(auto)]

mod appending;
mod change;
mod compacting;
mod due;
mod entries;
mod entry;
mod fault;
mod finishing;
mod found;
mod gathered;
mod laws;
mod opened;
mod opening;
mod reader;
mod reading;
mod seen;
mod size;
mod sized;
mod slots;
mod table;
mod writing;

pub use appending::{appended, have_short_keys};
pub use change::Change;
pub use entries::Entries;
pub use entry::Entry;
pub use fault::TableFault;
pub use laws::{bytes_read_in_one_way, compacting_keeps, last_change_stands, written_is_read};
pub use opened::Opened;
pub use reading::read;
pub use table::Table;
