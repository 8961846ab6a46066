//! The folders of the project that a command lists: a new file there isn't noticed.
use std::fs::File;
use std::rt::Files;
use std::str;
use tup_child::{Failure, Tree};
use tup_disk::Standing;
use tup_path::{Path, Text};
use tup_trace::{Call, Token};

/// The first folder of the project that was listed, by its name from the top, if there is one.
pub(crate) fn listed<R: Files<File = File> + Clone + Drop>(
    tree: &Tree<R>,
    calls: &[Call],
) -> Result<Option<Text>, Failure> {
    for call in calls {
        if is_listing(call) {
            if let Some(name) = name_of(tree.root.as_str(), call.parts.as_slice()) {
                if is_seen(tree, name)? {
                    return Ok(Some(Text::from_str(tree.alloc, name)?));
                }
            }
        }
    }
    Ok(None)
}

/// Whether a folder with this name from the top stands in the project, and tup sees what is in it.
fn is_seen<R: Files<File = File> + Clone + Drop>(
    tree: &Tree<R>,
    name: &str,
) -> Result<bool, Failure> {
    match Path::from_top(tree.alloc, name) {
        Ok(path) => Ok(tree.at(tree.source(&path)?.as_str())? == Standing::Folder),
        Err(_) => Ok(name == "."),
    }
}

/// Whether a call lists a folder.
fn is_listing(call: &Call) -> bool {
    [b"getdents64".as_slice(), b"getdents".as_slice()].contains(&call.name.as_slice())
}

/// The name from the top of the folder that the first of these parts in angles says, if it is one of the project.
fn name_of<'a>(root: &str, parts: &'a [Token]) -> Option<&'a str> {
    for part in parts {
        if let Token::Place(place) = part {
            return below(root, str::from_utf8(place.as_slice()).ok()?);
        }
    }
    None
}

/// The name of a folder from the top, which is a dot for the top itself.
fn below<'a>(root: &str, place: &'a str) -> Option<&'a str> {
    match place.strip_prefix(root)? {
        "" => Some("."),
        rest => rest.strip_prefix('/'),
    }
}
