//! Orders, as rows spell them.
use std::alloc::Global;
use tup_path::Text;
use tup_rows::Words;

/// An order: the words of a row from a place on.
#[derive(Clone, Copy)]
pub(crate) struct Order<'w> {
    said: &'w Words,
    at: usize,
}

impl<'w> Order<'w> {
    /// The order behind a place of a row.
    pub(crate) fn behind(said: &'w Words, at: usize) -> Order<'w> {
        Order {
            said,
            at: at.saturating_add(1),
        }
    }

    /// The word at a place of the order.
    pub(crate) fn word(&self, at: usize) -> &'w str {
        self.said.str_at(self.at.saturating_add(at))
    }

    /// The number at a place of it.
    pub(crate) fn number(&self, at: usize) -> u32 {
        self.said.small_at(self.at.saturating_add(at))
    }

    /// The text that it names.
    pub(crate) fn text(&self, alloc: Global) -> Text {
        self.said.text_at(alloc, self.at.saturating_add(2))
    }
}
