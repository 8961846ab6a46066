//! The calls of `path.rows`.
use crate::repeated::repeated;
use std::alloc::Global;
use std::cmp::Ordering;
use std::fs::Files;
use std::io;
use tup_path::{Bytes, Items, Path, PathFault, Paths, Text};
use tup_rows::{Answers, RowFault, Words, try_file};

pub(crate) fn try_rows<R: Files + Print>(rt: &R, alloc: Global) -> io::Result<()> {
    try_file(rt, alloc, "path.rows", &mut PathRows)
}

/// Knows the calls of tup_path.
#[derive(Drop)]
struct PathRows;

impl Answers for PathRows {
    fn answer(&mut self, alloc: Global, call: &str, said: &Words) -> Result<Words, RowFault> {
        Ok(match call {
            "from_top" => Words::given(alloc, &Path::from_top(alloc, said.str_at(0))),
            "resolve" => resolve(alloc, said),
            "join" => join(alloc, said),
            "long" => long(alloc, said),
            "join_long" => join_long(alloc, said),
            "show" => show(alloc, said),
            "display" => Words::shown(alloc, &said.path_at(alloc, 0)),
            "show_from" => show_from(alloc, said),
            _ => more(alloc, call, said),
        })
    }
}

fn more(alloc: Global, call: &str, said: &Words) -> Words {
    match call {
        "parent" => parent(alloc, said),
        "below" => below(alloc, said),
        "names" => names(alloc, said),
        "copy" => copy(alloc, said),
        "compare" => compare(alloc, said),
        "list" => list(alloc, said),
        "text" => text(alloc, said),
        "push_str" => push_str(alloc, said),
        _ => Words::none(alloc, RowFault::NoSuchCall),
    }
}

/// How many names a path has that was found.
fn depth(alloc: Global, found: &Result<Path, PathFault>) -> Words {
    match found {
        Ok(path) => Words::shown(alloc, &path.depth()),
        Err(fault) => Words::refusal(alloc, fault),
    }
}

fn resolve(alloc: Global, said: &Words) -> Words {
    let folder = said.path_at(alloc, 0);
    Words::given(
        alloc,
        &Path::resolve(alloc, &folder, &said.text_at(alloc, 1)),
    )
}

fn join(alloc: Global, said: &Words) -> Words {
    let folder = said.path_at(alloc, 0);
    Words::given(alloc, &folder.join(alloc, &said.text_at(alloc, 1)))
}

fn long(alloc: Global, said: &Words) -> Words {
    match str::from_utf8(&repeated(alloc, said)) {
        Ok(text) => depth(alloc, &Path::from_top(alloc, text)),
        Err(_) => Words::none(alloc, RowFault::OtherKind),
    }
}

fn join_long(alloc: Global, said: &Words) -> Words {
    match Text::new(Bytes::new(repeated(alloc, said))) {
        Some(name) => depth(alloc, &Path::top(alloc).join(alloc, &name)),
        None => Words::none(alloc, RowFault::OtherKind),
    }
}

fn show(alloc: Global, said: &Words) -> Words {
    Words::given(alloc, &said.path_at(alloc, 0).show(alloc))
}

fn show_from(alloc: Global, said: &Words) -> Words {
    let folder = said.path_at(alloc, 0);
    Words::given(alloc, &said.path_at(alloc, 1).show_from(alloc, &folder))
}

fn parent(alloc: Global, said: &Words) -> Words {
    match said.path_at(alloc, 0).parent(alloc) {
        Ok(Some(folder)) => Words::shown(alloc, &folder),
        Ok(None) => Words::word(alloc, b"none"),
        Err(fault) => Words::refusal(alloc, &fault),
    }
}

fn below(alloc: Global, said: &Words) -> Words {
    let folder = said.path_at(alloc, 0);
    Words::yes_or_no(alloc, said.path_at(alloc, 1).is_below(&folder))
}

/// The count of a path's names, and the names.
fn names(alloc: Global, said: &Words) -> Words {
    let path = said.path_at(alloc, 0);
    let mut words = Words::shown(alloc, &path.depth());
    for at in 0..path.depth() {
        words.show(alloc, path.name(at));
    }
    words
}

fn copy(alloc: Global, said: &Words) -> Words {
    Words::given(alloc, &said.path_at(alloc, 0).copy(alloc))
}

fn compare(alloc: Global, said: &Words) -> Words {
    let first = said.path_at(alloc, 0);
    match first.cmp(&said.path_at(alloc, 1)) {
        Ordering::Less => Words::word(alloc, b"before"),
        Ordering::Equal => Words::word(alloc, b"same"),
        Ordering::Greater => Words::word(alloc, b"behind"),
    }
}

/// The paths of a list that was filled, copied and found to be the same.
fn list(alloc: Global, said: &Words) -> Words {
    let paths = filled(alloc, said);
    match paths.clone() {
        Ok(copy) => same_paths(alloc, &paths, &copy),
        Err(_) => Words::none(alloc, RowFault::Memory),
    }
}

fn filled(alloc: Global, said: &Words) -> Paths {
    let mut paths = Items::new(alloc);
    for at in 0..said.len() {
        said.list(&mut paths, said.path_at(alloc, at));
    }
    paths
}

fn same_paths(alloc: Global, paths: &Paths, copy: &Paths) -> Words {
    if copy != paths || copy.len() != paths.len() {
        return Words::word(alloc, b"differs");
    }
    Words::all(alloc, copy.as_slice())
}

fn text(alloc: Global, said: &Words) -> Words {
    match Text::new(Bytes::new(said.bytes_at(alloc, 0))) {
        Some(text) => Words::shown(alloc, &text),
        None => Words::word(alloc, b"none"),
    }
}

fn push_str(alloc: Global, said: &Words) -> Words {
    let mut text = said.text_at(alloc, 0);
    match text.push_str(said.str_at(1)) {
        Ok(()) => Words::shown(alloc, &text),
        Err(_) => Words::none(alloc, RowFault::Memory),
    }
}
