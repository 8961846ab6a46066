//! One thing that a transaction does to the graph.
use tup_path::Items;
use tup_record::Record;

/// One thing that a transaction does to the graph.
#[derive(Drop)]
pub enum Edit {
    /// This record stands from now on, in the place of the one that stood under its key.
    Put(Record),
    /// This record, which stands, goes.
    Remove(Record),
}

/// What a transaction does, one thing after another.
pub type Edits = Items<Edit>;
