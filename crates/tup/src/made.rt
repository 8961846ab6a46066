//! What a project has made: the list of it, and its removal.
use crate::top::Top;
use crate::{hint, shown, told};
use std::alloc::{AllocError, Global};
use tup_fs::{FsSite, Syncs};
use tup_graph::GraphFault;
use tup_ledger::{open, owned_paths};
use tup_path::Path;
use tup_record::OwnedState;
use tup_site::{Site, SiteFailed};
use tup_stamp::stamp_of;
use tup_top::Status;

/// Prints what a project has made, a path a line; gives the exit number.
pub(crate) fn list(rt: HostRuntime, alloc: Global, top: &Top) -> u8 {
    let Ok(mut site) = FsSite::new(rt, alloc, top.root.as_str(), Syncs::Done) else {
        return told(&rt, Status::Memory);
    };
    match listed(alloc, &mut site) {
        Ok(text) => shown(print!(rt; "{text}")),
        Err(status) => failed(rt, alloc, top, &site, status),
    }
}

/// Removes what a project has made, but for what somebody has changed, and prints what was removed; gives the exit number. The next
/// update makes it anew.
pub(crate) fn clean(rt: HostRuntime, alloc: Global, top: &Top, syncs: Syncs) -> u8 {
    let Ok(mut site) = FsSite::new(rt, alloc, top.root.as_str(), syncs) else {
        return told(&rt, Status::Memory);
    };
    let mut text = String::new(alloc);
    match remove_all(rt, alloc, top, &mut site, &mut text) {
        Ok(removed) => {
            site.take_emptied();
            let status = Status::Done {
                read: 0,
                ran: 0,
                removed,
            };
            shown(print!(rt; "{text}{status}\n"))
        }
        Err(status) => failed(rt, alloc, top, &site, status),
    }
}

/// Prints why it wasn't done; gives the exit number.
fn failed(
    rt: HostRuntime,
    alloc: Global,
    top: &Top,
    site: &FsSite<HostRuntime>,
    status: Status,
) -> u8 {
    if let Some(failure) = site.last() {
        // Words that can't be printed change nothing: the exit number says as much.
        drop(eprintln!(rt; "tup: {failure}"));
    }
    hint::begin(rt, top, &status);
    hint::begin_anew(rt, alloc, top, &status);
    told(&rt, status)
}

/// The paths that the store of a site lists, a line each.
fn listed<S: Site>(alloc: Global, site: &mut S) -> Result<String, Status> {
    let graph = match open(alloc, site) {
        Ok(graph) => graph,
        Err(fault) => return Err(status_of(fault)),
    };
    match owned_paths(alloc, graph.nodes()) {
        Ok(paths) => lines(alloc, paths.as_slice()),
        Err(_) => Err(Status::Memory),
    }
}

/// Paths, a line each.
fn lines(alloc: Global, paths: &[Path]) -> Result<String, Status> {
    let mut text = String::new(alloc);
    for path in paths {
        if add_line(alloc, &mut text, "", path).is_err() {
            return Err(Status::Memory);
        }
    }
    Ok(text)
}

/// Adds a line of a path.
fn add_line(alloc: Global, text: &mut String, word: &str, path: &Path) -> Result<(), AllocError> {
    let Ok(path) = path.show(alloc) else {
        return Err(AllocError);
    };
    text.push_str(word)?;
    text.push_str(path.as_str())?;
    text.push('\n')
}

/// Removes all that was made and is as it was written, and adds a line for each; gives their number.
fn remove_all<S: Site>(
    rt: HostRuntime,
    alloc: Global,
    top: &Top,
    site: &mut S,
    text: &mut String,
) -> Result<u32, Status> {
    let graph = match open(alloc, site) {
        Ok(graph) => graph,
        Err(fault) => return Err(status_of(fault)),
    };
    let mut removed = 0u32;
    for (path, owned) in graph.nodes().owned() {
        if remove(rt, alloc, top, site, path, owned.state)? {
            removed = removed.saturating_add(1);
            if add_line(alloc, text, "remove ", path).is_err() {
                return Err(Status::Memory);
            }
        }
    }
    match site.settle(alloc) {
        Ok(()) => Ok(removed),
        Err(fault) => Err(status_of_site(fault)),
    }
}

/// Removes the file at a path, if there is one and it is as it was written; returns whether it did.
fn remove<S: Site>(
    rt: HostRuntime,
    alloc: Global,
    top: &Top,
    site: &mut S,
    path: &Path,
    state: OwnedState,
) -> Result<bool, Status> {
    let content = match site.get(alloc, path) {
        Ok(Some(content)) => content,
        Ok(None) => return Ok(false),
        Err(fault) => return Err(status_of_site(fault)),
    };
    if state != OwnedState::Written(stamp_of(content.as_slice())) {
        name_left(rt, alloc, top, path);
        return Ok(false);
    }
    match site.remove(alloc, path) {
        Ok(()) => Ok(true),
        Err(fault) => Err(status_of_site(fault)),
    }
}

/// Says that a file is left.
fn name_left(rt: HostRuntime, alloc: Global, top: &Top, path: &Path) {
    if let Ok(path) = path.show(alloc) {
        if let Ok(place) = top.place(alloc, path.as_str()) {
            // Words that can't be printed change nothing.
            drop(eprintln!(rt; "tup: {place}: it isn't as tup wrote it, and is left"));
        }
    }
}

/// The status where the store isn't opened.
fn status_of(fault: GraphFault) -> Status {
    match fault {
        GraphFault::NotThere => Status::NotInit,
        GraphFault::BadStore { offset } => Status::BadStore { offset },
        GraphFault::Site => Status::SiteFault,
        GraphFault::Full | GraphFault::Memory => Status::Memory,
    }
}

/// The status where the site fails.
fn status_of_site(fault: SiteFailed) -> Status {
    match fault {
        SiteFailed::Memory => Status::Memory,
        SiteFailed::Fault | SiteFailed::TooLarge(_) => Status::SiteFault,
    }
}
