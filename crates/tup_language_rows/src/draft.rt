//! The drafts that rows give.
use std::alloc::Global;
use tup_path::{Items, Path, Paths, Text};
use tup_rows::{RowFault, Words, set};
use tup_rule::{Draft, GroupRef, GroupRefs, Piece, Pieces};

/// The draft of a row: FILE LINE COMMAND DISPLAY INPUTS ORDER OUTPUTS GROUPS GIVES.
pub(crate) fn draft_at(alloc: Global, said: &Words) -> Draft {
    let mut draft = bare(alloc, said.path_at(alloc, 0));
    draft.line = said.small_at(1);
    set(&mut draft.pieces, pieces_of(alloc, said, said.str_at(2)));
    set(&mut draft.display, display_at(alloc, said, 3));
    set(&mut draft.inputs, said.paths_at(alloc, 4));
    set(&mut draft.order, said.paths_at(alloc, 5));
    set(&mut draft.outputs, said.paths_at(alloc, 6));
    set(&mut draft.groups, groups_at(alloc, said, 7));
    set(&mut draft.gives, gives_at(alloc, said, 8));
    draft
}

/// A draft in line 1 of a file that has nothing else.
pub(crate) fn bare(alloc: Global, file: Path) -> Draft {
    Draft {
        file,
        line: 1,
        pieces: Items::new(alloc),
        display: None,
        compare: false,
        inputs: Items::new(alloc),
        order: Items::new(alloc),
        outputs: Items::new(alloc),
        groups: Items::new(alloc),
        gives: None,
    }
}

/// The display text at a place, or none where `-` stands there.
fn display_at(alloc: Global, said: &Words, at: usize) -> Option<Pieces> {
    match said.str_at(at) {
        "-" => None,
        text => Some(pieces_of(alloc, said, text)),
    }
}

/// The group that is given to, or none where `-` stands there.
fn gives_at(alloc: Global, said: &Words, at: usize) -> Option<GroupRef> {
    match said.str_at(at) {
        "-" => None,
        _ => Some(group_of(alloc, said, &said.path_at(alloc, at))),
    }
}

/// A text as pieces: between two `|` stands the place of a group.
pub(crate) fn pieces_of(alloc: Global, said: &Words, text: &str) -> Pieces {
    let mut pieces = Items::new(alloc);
    let mut is_group = false;
    for part in text.split('|') {
        said.list(&mut pieces, piece_of(alloc, said, is_group, part));
        is_group = !is_group;
    }
    pieces
}

fn piece_of(alloc: Global, said: &Words, is_group: bool, part: &str) -> Piece {
    if is_group {
        Piece::Group(place_of(said, part))
    } else {
        Piece::Text(text_of(alloc, said, part))
    }
}

fn place_of(said: &Words, part: &str) -> u32 {
    match part.parse() {
        Ok(place) => place,
        Err(_) => {
            said.fail(RowFault::OtherKind);
            0
        }
    }
}

fn text_of(alloc: Global, said: &Words, part: &str) -> Text {
    match Text::from_str(alloc, part) {
        Ok(text) => text,
        Err(_) => {
            said.fail(RowFault::Memory);
            Text::from_string(String::new(alloc))
        }
    }
}

fn groups_at(alloc: Global, said: &Words, at: usize) -> GroupRefs {
    let mut groups = Items::new(alloc);
    for path in said.paths_at(alloc, at).as_slice() {
        said.list(&mut groups, group_of(alloc, said, path));
    }
    groups
}

/// The group whose folder and name a path has.
fn group_of(alloc: Global, said: &Words, path: &Path) -> GroupRef {
    GroupRef {
        dir: folder_of(alloc, said, path),
        name: name_of(alloc, said, path),
    }
}

fn folder_of(alloc: Global, said: &Words, path: &Path) -> Path {
    match path.parent(alloc) {
        Ok(Some(folder)) => folder,
        _ => {
            said.fail(RowFault::OtherKind);
            Path::top(alloc)
        }
    }
}

fn name_of(alloc: Global, said: &Words, path: &Path) -> Text {
    match path.names().last() {
        Some(name) => text_of(alloc, said, name.as_str()),
        None => text_of(alloc, said, ""),
    }
}

/// So many times the top folder.
pub(crate) fn tops(alloc: Global, said: &Words, count: u64) -> Paths {
    let mut paths = Items::new(alloc);
    for _ in 0..count {
        said.list(&mut paths, Path::top(alloc));
    }
    paths
}

/// The file of this number in a folder.
pub(crate) fn numbered(alloc: Global, said: &Words, dir: &Path, number: u64) -> Path {
    let path = match format!(in alloc; "f{number}") {
        Ok(name) => dir.join(alloc, &Text::from_string(name)),
        Err(_) => Ok(Path::top(alloc)),
    };
    match path {
        Ok(path) => path,
        Err(_) => {
            said.fail(RowFault::Memory);
            Path::top(alloc)
        }
    }
}
