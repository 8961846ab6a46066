//! How a place is found: name by name, through the links on the way.
use std::alloc::Global;
use tup_child::Failure;
use tup_path::{Path, PathFault};

/// How many names are walked at most. A place behind more isn't one of the project.
pub(crate) const MAX_NAMES: usize = 4096;

/// A walk from the root of the system.
#[derive(Drop)]
pub(crate) struct Walk {
    /// The names of the folders that it came through.
    pub(crate) names: Vec<String>,
    /// The names that it has to go, the next one last.
    pub(crate) rest: Vec<String>,
    /// Whether the way is lost: it led up out of what is no folder.
    pub(crate) is_lost: bool,
}

impl Walk {
    /// A walk to a place.
    pub(crate) fn to(alloc: Global, place: &str) -> Result<Walk, Failure> {
        let mut walk = Walk {
            names: Vec::new(alloc),
            rest: Vec::new(alloc),
            is_lost: false,
        };
        walk.add(alloc, place)?;
        Ok(walk)
    }

    /// Puts the names of a text before those that are left. A text with a slash in front begins at the root.
    pub(crate) fn add(&mut self, alloc: Global, text: &str) -> Result<(), Failure> {
        if text.starts_with('/') {
            self.names.clear();
        }
        for name in text.rsplit('/') {
            self.rest.push(String::from_str(alloc, name)?)?;
        }
        Ok(())
    }

    /// Whether it came to its end.
    fn is_at_end(&self) -> bool {
        !self.is_lost && self.rest.is_empty()
    }

    /// Whether it came to its end at a root or below it.
    pub(crate) fn ends_below(&self, alloc: Global, root: &str) -> Result<bool, Failure> {
        if !self.is_at_end() {
            return Ok(false);
        }
        let place = self.place(alloc)?;
        Ok(place.as_str().starts_with(root))
    }

    /// The path of the place where it ended, below a root.
    pub(crate) fn found(&self, alloc: Global, root: &str) -> Result<Option<Path>, Failure> {
        if !self.is_at_end() {
            return Ok(None);
        }
        let place = self.place(alloc)?;
        path_below(alloc, root, place.as_str())
    }

    /// The place where it is.
    pub(crate) fn place(&self, alloc: Global) -> Result<String, Failure> {
        let mut place = String::new(alloc);
        for name in &self.names {
            place.push('/')?;
            place.push_str(name.as_str())?;
        }
        Ok(place)
    }
}

/// The path of a place below a root. `None` for the root itself, a place elsewhere, and one that no path names.
pub(crate) fn path_below(alloc: Global, root: &str, place: &str) -> Result<Option<Path>, Failure> {
    let Some(rest) = place.strip_prefix(root) else {
        return Ok(None);
    };
    let Some(text) = rest.strip_prefix('/') else {
        return Ok(None);
    };
    match Path::from_top(alloc, text) {
        Ok(path) => Ok(Some(path)),
        Err(PathFault::Memory) => Err(Failure::Memory),
        Err(_) => Ok(None),
    }
}

/// The name from a root of a place below it that no path names.
pub(crate) fn unseen_name<'a>(
    alloc: Global,
    root: &str,
    place: &'a str,
) -> Result<Option<&'a str>, Failure> {
    let Some(name) = name_below(root, place) else {
        return Ok(None);
    };
    match Path::from_top(alloc, name) {
        Err(PathFault::Memory) => Err(Failure::Memory),
        Err(_) => Ok(Some(name)),
        Ok(_) => Ok(None),
    }
}

/// The name from a root of a place below it. What is in the program's own folder has none: no command sees it.
pub(crate) fn name_below<'a>(root: &str, place: &'a str) -> Option<&'a str> {
    let name = place.strip_prefix(root)?.strip_prefix('/')?;
    if name.starts_with(".tup/") {
        None
    } else {
        Some(name)
    }
}

/// The folders of the system.
const SYSTEM: [&str; 7] = [
    "/proc/", "/dev/", "/sys/", "/usr/", "/etc/", "/lib/", "/lib64/",
];

/// Whether a place is one of the system's, which isn't walked: what is opened through a link from there into the project has
/// the path of its descriptor besides. A place that leads up out of the system's folders is none.
pub(crate) fn is_system(alloc: Global, place: &str, root: &str) -> Result<bool, Failure> {
    if !begins_in_system(place, root) {
        return Ok(false);
    }
    if !place.contains("/..") {
        return Ok(true);
    }
    let folded = folded(alloc, place)?;
    Ok(begins_in_system(folded.as_str(), root))
}

/// Whether a place begins with a folder of the system, in which the root doesn't lie.
fn begins_in_system(place: &str, root: &str) -> bool {
    SYSTEM.iter().any(|front| place.starts_with(*front) && !root.starts_with(*front))
}

/// A place without the names that `..` takes back.
fn folded(alloc: Global, place: &str) -> Result<String, Failure> {
    let mut walk = Walk {
        names: Vec::new(alloc),
        rest: Vec::new(alloc),
        is_lost: false,
    };
    for name in place.split('/') {
        match name {
            "" | "." => {}
            ".." => drop(walk.names.pop()),
            _ => walk.names.push(String::from_str(alloc, name)?)?,
        }
    }
    walk.place(alloc)
}
