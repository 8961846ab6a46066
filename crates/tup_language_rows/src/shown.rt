//! Rules and questions as words.
use std::alloc::{AllocError, Global};
use tup_path::{Path, Text};
use tup_rows::{RowFault, Words};
use tup_rule::{Answered, Draft, GroupRef, Kind, Noted, Piece, Question};

/// The rules, one after another: where each stands, its command, what is shown in its place, its
/// files and groups.
pub(crate) fn drafts(alloc: Global, drafts: &[Draft]) -> Words {
    let mut words = Words::new(alloc);
    for draft in drafts {
        add_draft(alloc, &mut words, draft);
    }
    words
}

/// Adds a rule.
fn add_draft(alloc: Global, words: &mut Words, draft: &Draft) {
    add_place(alloc, words, draft);
    add_pieces(alloc, words, draft.pieces.as_slice());
    add_display(alloc, words, draft);
    add_paths(alloc, words, b"<-", draft.inputs.as_slice());
    add_paths(alloc, words, b"|", draft.order.as_slice());
    add_paths(alloc, words, b"->", draft.outputs.as_slice());
    add_groups(alloc, words, draft.groups.as_slice());
    add_given(alloc, words, &draft.gives);
}

/// Adds where a rule stands, and whether its outputs are compared.
fn add_place(alloc: Global, words: &mut Words, draft: &Draft) {
    put_text(alloc, words, place(alloc, draft));
    if draft.compare {
        words.put(alloc, b"compares");
    }
}

/// Where a rule stands.
fn place(alloc: Global, draft: &Draft) -> Result<String, AllocError> {
    let (file, line) = (&draft.file, draft.line);
    format!(in alloc; "{file}:{line}")
}

/// Adds a text that there may have been no memory for.
fn put_text(alloc: Global, words: &mut Words, text: Result<String, AllocError>) {
    match text {
        Ok(text) => words.put(alloc, text.as_bytes()),
        Err(_) => words.fail(RowFault::Memory),
    }
}

/// Adds what is shown in a command's place.
fn add_display(alloc: Global, words: &mut Words, draft: &Draft) {
    if let Some(display) = &draft.display {
        words.put(alloc, b"shows");
        add_pieces(alloc, words, display.as_slice());
    }
}

/// Adds the pieces of a command.
fn add_pieces(alloc: Global, words: &mut Words, pieces: &[Piece]) {
    for piece in pieces {
        add_piece(alloc, words, piece);
    }
}

/// Adds a piece: its text, or the number of its group behind a percent sign.
fn add_piece(alloc: Global, words: &mut Words, piece: &Piece) {
    match piece {
        Piece::Text(text) => words.show(alloc, text),
        Piece::Group(at) => put_text(alloc, words, format!(in alloc; "%{at}")),
    }
}

/// A word for what paths are, if there are any, and the paths.
fn add_paths(alloc: Global, words: &mut Words, what: &[u8], paths: &[Path]) {
    if !paths.is_empty() {
        words.put(alloc, what);
    }
    words.show_all(alloc, paths);
}

/// A word for groups, if there are any, and the groups.
fn add_groups(alloc: Global, words: &mut Words, groups: &[GroupRef]) {
    if !groups.is_empty() {
        words.put(alloc, b"groups");
    }
    for group in groups {
        add_group(alloc, words, group);
    }
}

/// Adds a group.
fn add_group(alloc: Global, words: &mut Words, group: &GroupRef) {
    put_text(alloc, words, group_text(alloc, group));
}

/// A group by its folder and its name.
fn group_text(alloc: Global, group: &GroupRef) -> Result<String, AllocError> {
    let (dir, name) = (&group.dir, &group.name);
    format!(in alloc; "{dir}/<{name}>")
}

/// Adds the group to which the outputs are given, if there is one.
fn add_given(alloc: Global, words: &mut Words, group: &Option<GroupRef>) {
    if let Some(group) = group {
        words.put(alloc, b"gives");
        add_group(alloc, words, group);
    }
}

/// The questions, each with what was told.
pub(crate) fn questions(alloc: Global, asked: &[Answered]) -> Words {
    let mut words = Words::new(alloc);
    for one in asked {
        add_question(alloc, &mut words, one.question());
        add_told(alloc, &mut words, one.noted());
    }
    words
}

/// Adds a question.
fn add_question(alloc: Global, words: &mut Words, question: &Question) {
    match question {
        Question::Content(path) => add_asked(alloc, words, b"content", path),
        Question::Config(name) => add_named(alloc, words, name),
        Question::Names(dir) => add_asked(alloc, words, b"names", dir),
        Question::Kind(path) => add_asked(alloc, words, b"kind", path),
    }
}

/// Adds a question about a path.
fn add_asked(alloc: Global, words: &mut Words, what: &[u8], path: &Path) {
    words.put(alloc, what);
    words.show(alloc, path);
}

/// Adds a question about a setting.
fn add_named(alloc: Global, words: &mut Words, name: &Text) {
    words.put(alloc, b"config");
    words.show(alloc, name);
}

/// Adds an answer.
fn add_told(alloc: Global, words: &mut Words, told: &Noted) {
    match told {
        Noted::Content(stamp) => words.put(alloc, presence(stamp.is_some())),
        Noted::Config(Some(value)) => words.show(alloc, value),
        Noted::Config(None) => words.put(alloc, b"unset"),
        Noted::Names(names) => words.show_all(alloc, names.as_slice()),
        Noted::Kind(kind) => words.put(alloc, kind_name(*kind)),
    }
}

/// Whether there is a file.
fn presence(there: bool) -> &'static [u8] {
    if there { b"there" } else { b"absent" }
}

/// A kind by its name.
fn kind_name(kind: Kind) -> &'static [u8] {
    match kind {
        Kind::Nothing => b"nothing",
        Kind::File => b"file",
        Kind::Dir => b"folder",
    }
}
