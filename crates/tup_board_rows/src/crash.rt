//! What a crash leaves of a site, by three choices.
use std::alloc::{AllocError, Global};
use tup_path::{Bytes, Items, Path};
use tup_rows::RowFault;
use tup_rule::Rule;
use tup_site::{Changed, Choice, MemSite};

/// Crashes into a choice: 0 leaves all as it is; 1 takes away the first output that isn't durable; 2 tears it, and where
/// there is none the store's last byte. Where all is durable, it stays.
pub(crate) fn crash(
    alloc: Global,
    site: &mut MemSite,
    rules: &[Rule],
    choice: u32,
) -> Result<(), RowFault> {
    let is_chosen = match choice {
        0 => false,
        1 => leaves_first(alloc, site, rules, None),
        _ => leaves_torn(alloc, site, rules),
    };
    if is_chosen || leaves(alloc, site, Items::new(alloc)) {
        Ok(())
    } else {
        Err(RowFault::OtherKind)
    }
}

fn leaves_torn(alloc: Global, site: &mut MemSite, rules: &[Rule]) -> bool {
    leaves_first(alloc, site, rules, Some(b"torn")) || leaves_torn_store(alloc, site)
}

/// Whether it crashed into the first output that isn't durable having this content.
fn leaves_first(alloc: Global, site: &mut MemSite, rules: &[Rule], content: Option<&[u8]>) -> bool {
    for rule in rules {
        if leaves_one(alloc, site, rule.outputs.as_slice(), content) {
            return true;
        }
    }
    false
}

/// The same of the first of these paths.
fn leaves_one(alloc: Global, site: &mut MemSite, paths: &[Path], content: Option<&[u8]>) -> bool {
    for path in paths {
        if leaves_at(alloc, site, path, content) {
            return true;
        }
    }
    false
}

fn leaves_at(alloc: Global, site: &mut MemSite, path: &Path, content: Option<&[u8]>) -> bool {
    match changed(alloc, path, content) {
        Ok(tree) => leaves(alloc, site, tree),
        Err(_) => false,
    }
}

fn changed(alloc: Global, path: &Path, content: Option<&[u8]>) -> Result<Changed, AllocError> {
    let mut changed = Items::new(alloc);
    changed.push((path.clone()?, bytes_of(alloc, content)?))?;
    Ok(changed)
}

fn bytes_of(alloc: Global, content: Option<&[u8]>) -> Result<Option<Bytes>, AllocError> {
    match content {
        Some(content) => Ok(Some(Bytes::new(Vec::from_slice(alloc, content)?))),
        None => Ok(None),
    }
}

/// Whether it crashed into the present store and these files.
fn leaves(alloc: Global, site: &mut MemSite, tree: Changed) -> bool {
    match Vec::from_slice(alloc, site.store()) {
        Ok(db) => crash_into(alloc, site, Bytes::new(db), tree),
        Err(_) => false,
    }
}

/// Whether it crashed into a store whose last byte is another one.
fn leaves_torn_store(alloc: Global, site: &mut MemSite) -> bool {
    match torn(alloc, site.store()) {
        Ok(db) => crash_into(alloc, site, db, Items::new(alloc)),
        Err(_) => false,
    }
}

fn torn(alloc: Global, store: &[u8]) -> Result<Bytes, AllocError> {
    let mut db = Vec::from_slice(alloc, store)?;
    if let Some(last) = db.last_mut() {
        *last = 7;
    }
    Ok(Bytes::new(db))
}

fn crash_into(alloc: Global, site: &mut MemSite, db: Bytes, tree: Changed) -> bool {
    site.crash(alloc, Choice { db, tree }).is_ok()
}
