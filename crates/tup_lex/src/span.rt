//! Places in a text.
use tup_path::Items;

/// The bytes of a text from place `from` on, up to and without place `to`.
#[derive(Clone, Copy)]
pub struct Span {
    pub from: u32,
    pub to: u32,
}

/// A list of places.
pub type Spans = Items<Span>;
