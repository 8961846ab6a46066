//! The calls of `rule.rows` on readings: what is kept of an answer, and the copy of what a reading left.
use std::alloc::Global;
use tup_path::{Bytes, Items, Path};
use tup_rows::{RowFault, Words, set};
use tup_rule::{
    Answered, Draft, Drafts, GroupRef, Kind, Noted, Piece, Question, Questions, Reading, Told,
};
use tup_stamp::hex;

pub(crate) fn answer(alloc: Global, call: &str, said: &Words) -> Words {
    match call {
        "content" => content(alloc, said),
        "config" => config(alloc, said),
        "kind" => kind(alloc, said),
        "files" => files(alloc, said),
        "copied" => copied(alloc, said),
        _ => Words::none(alloc, RowFault::NoSuchCall),
    }
}

/// The content that the first argument is, or `None` where there is no argument.
fn content(alloc: Global, said: &Words) -> Words {
    if said.is_empty() {
        return kept(alloc, &Told::Content(None));
    }
    kept(
        alloc,
        &Told::Content(Some(Bytes::new(said.bytes_at(alloc, 0)))),
    )
}

/// The value that the first argument is, or `None` where there is no argument.
fn config(alloc: Global, said: &Words) -> Words {
    if said.is_empty() {
        return kept(alloc, &Told::Config(None));
    }
    kept(alloc, &Told::Config(Some(said.text_at(alloc, 0))))
}

fn kind(alloc: Global, said: &Words) -> Words {
    match said.str_at(0) {
        "nothing" => kept(alloc, &Told::Kind(Kind::Nothing)),
        "file" => kept(alloc, &Told::Kind(Kind::File)),
        "dir" => kept(alloc, &Told::Kind(Kind::Dir)),
        _ => Words::none(alloc, RowFault::OtherKind),
    }
}

fn files(alloc: Global, said: &Words) -> Words {
    let mut texts = Items::new(alloc);
    for at in 0..said.len() {
        said.list(&mut texts, said.text_at(alloc, at));
    }
    kept(alloc, &Told::Names(texts))
}

/// A copy of an answer, as it is kept.
fn kept(alloc: Global, told: &Told) -> Words {
    match told.clone() {
        Ok(copy) => copied_note(alloc, &copy.noted()),
        Err(_) => Words::none(alloc, RowFault::Memory),
    }
}

/// A copy of what is kept, in words.
fn copied_note(alloc: Global, noted: &Noted) -> Words {
    match noted.clone() {
        Ok(copy) => note(alloc, &copy),
        Err(_) => Words::none(alloc, RowFault::Memory),
    }
}

fn note(alloc: Global, noted: &Noted) -> Words {
    match noted {
        Noted::Content(Some(stamp)) => Words::word(alloc, &hex(stamp)),
        Noted::Config(Some(value)) => Words::shown(alloc, value),
        Noted::Content(None) | Noted::Config(None) => Words::word(alloc, b"none"),
        Noted::Names(names) => Words::all(alloc, names.as_slice()),
        Noted::Kind(Kind::Nothing) => Words::word(alloc, b"nothing"),
        Noted::Kind(Kind::File) => Words::word(alloc, b"file"),
        Noted::Kind(Kind::Dir) => Words::word(alloc, b"dir"),
    }
}

/// A copy of the reading that left a draft with these pieces, and asked whether its file stands.
fn copied(alloc: Global, said: &Words) -> Words {
    match Reading::new(one_draft(alloc, said), one_asked(alloc, said)) {
        Ok(reading) => copied_reading(alloc, &reading),
        Err(_) => Words::none(alloc, RowFault::Memory),
    }
}

fn one_draft(alloc: Global, said: &Words) -> Drafts {
    let mut drafts = Drafts::new(alloc);
    said.list(&mut drafts, draft(alloc, said));
    drafts
}

fn one_asked(alloc: Global, said: &Words) -> Questions {
    let mut asked = Questions::new(alloc);
    let question = Question::Kind(said.path_at(alloc, 0));
    said.list(&mut asked, Answered::new(question, Noted::Kind(Kind::File)));
    asked
}

fn copied_reading(alloc: Global, reading: &Reading) -> Words {
    match reading.clone() {
        Ok(copy) => same_reading(alloc, reading, &copy),
        Err(_) => Words::none(alloc, RowFault::Memory),
    }
}

fn same_reading(alloc: Global, reading: &Reading, copy: &Reading) -> Words {
    if copy != reading {
        return Words::word(alloc, b"differs");
    }
    match copy.drafts.as_slice().first() {
        Some(draft) => summary(alloc, draft),
        None => Words::word(alloc, b"none"),
    }
}

/// A draft of a file, at a line, whose command is a text and then the members of a group.
fn draft(alloc: Global, said: &Words) -> Draft {
    let mut draft = empty(alloc, said.path_at(alloc, 0));
    draft.line = said.small_at(1);
    said.list(&mut draft.pieces, Piece::Text(said.text_at(alloc, 2)));
    said.list(&mut draft.pieces, Piece::Group(0));
    give(alloc, &mut draft, said);
    draft
}

fn empty(alloc: Global, file: Path) -> Draft {
    Draft {
        file,
        line: 0,
        pieces: Items::new(alloc),
        display: None,
        compare: true,
        inputs: Items::new(alloc),
        order: Items::new(alloc),
        outputs: Items::new(alloc),
        groups: Items::new(alloc),
        gives: None,
    }
}

/// Has a draft show what it runs, take from a group and give to it.
fn give(alloc: Global, draft: &mut Draft, said: &Words) {
    match draft.pieces.clone() {
        Ok(pieces) => set(&mut draft.display, Some(pieces)),
        Err(_) => said.fail(RowFault::Memory),
    }
    said.list(&mut draft.groups, group(alloc, said));
    set(&mut draft.gives, Some(group(alloc, said)));
}

fn group(alloc: Global, said: &Words) -> GroupRef {
    GroupRef {
        dir: said.path_at(alloc, 3),
        name: said.text_at(alloc, 4),
    }
}

/// What a draft says, in the order of the row's arguments.
fn summary(alloc: Global, draft: &Draft) -> Words {
    let mut words = Words::shown(alloc, &draft.file);
    words.show(alloc, &draft.line);
    for piece in draft.pieces.as_slice() {
        if let Piece::Text(text) = piece {
            words.show(alloc, text);
        }
    }
    for group in draft.groups.as_slice() {
        words.show(alloc, &group.dir);
        words.show(alloc, &group.name);
    }
    words
}
