//! How long the store of a project is.
use std::alloc::Global;
use tup_rows::{RowFault, Words};
use tup_site::{MemSite, Site};

/// How many bytes the store has.
pub(crate) fn store_length(alloc: Global, site: &MemSite) -> Words {
    Words::shown(alloc, &site.store().len())
}

/// Somebody writes so many bytes behind the last of the store.
pub(crate) fn lengthen(alloc: Global, site: &mut MemSite, said: &Words) -> Words {
    let end = site.store().len() as u64;
    let Ok(bytes) = vec![in alloc; 0; said.number_at(0) as usize] else {
        return Words::none(alloc, RowFault::Memory);
    };
    match site.db_write(alloc, end, &bytes) {
        Ok(()) => Words::done(alloc),
        Err(failed) => Words::refusal(alloc, &failed),
    }
}
