//! Sites in memory that hold a store and files.
use std::alloc::{AllocError, Global};
use tup_path::{Bytes, Path};
use tup_rows::{RowFault, Words};
use tup_site::{MemSite, Site};

/// Files, each with its content.
pub type Contents = Vec<(Path, Bytes)>;

/// A site with these files and this store, durably. The calls with these numbers will fail.
pub fn site_with(
    alloc: Global,
    files: Contents,
    store: &[u8],
    fails: Vec<u64>,
) -> Result<MemSite, RowFault> {
    match MemSite::new(alloc, files, fails) {
        Ok(site) => filled(alloc, site, store),
        Err(_) => Err(RowFault::OtherKind),
    }
}

/// A site whose store has these bytes, durably.
fn filled(alloc: Global, mut site: MemSite, store: &[u8]) -> Result<MemSite, RowFault> {
    if is_filled(alloc, &mut site, store) {
        Ok(site)
    } else {
        drop(site);
        Err(RowFault::Memory)
    }
}

/// Writes the store of a site, durably. Whether that was done.
fn is_filled(alloc: Global, site: &mut MemSite, store: &[u8]) -> bool {
    site.db_write(alloc, 0, store).is_ok() && site.db_sync(alloc).is_ok()
}

/// The files that pairs of words say, each a path and its content.
pub fn files_of(alloc: Global, said: &Words) -> Contents {
    let mut files = Vec::new(alloc);
    for pair in 0..said.len() / 2 {
        if files
            .push(file_at(alloc, said, pair.saturating_mul(2)))
            .is_err()
        {
            said.fail(RowFault::Memory);
        }
    }
    files
}

/// The file that two words say.
pub fn file_at(alloc: Global, said: &Words, at: usize) -> (Path, Bytes) {
    let content = Bytes::new(said.bytes_at(alloc, at.saturating_add(1)));
    (said.path_at(alloc, at), content)
}

/// Copies of files.
pub fn copies(alloc: Global, files: &[(Path, Bytes)]) -> Result<Contents, AllocError> {
    let mut copies = Vec::new(alloc);
    for (path, content) in files {
        copies.push((path.clone()?, content.clone()?))?;
    }
    Ok(copies)
}
