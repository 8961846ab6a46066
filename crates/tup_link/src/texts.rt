//! Commands with the members of groups put in.
ghost use Rattle.std.specs.Prelude.{◌≡◌, ◌++◌, IfOk, OnOk, option_map};
ghost use Rattle.tup_path.specs.Show.{show_from};
ghost use Rattle.tup_link.specs.Groups.{listed};
ghost use Rattle.tup_link.specs.Linked as specs;

use std::alloc::{AllocError, Global};
use std::collections::BTreeSet;
use tup_macro::Groups;
use tup_path::{Path, Text};
use tup_rule::{GroupRef, Piece, Pieces};

/// A display text with its groups put in, where there is one.
pub(crate) fn display_of(
    alloc: Global,
    groups: &Groups,
    dir: &Path,
    taken: &[GroupRef],
    display: &Option<Pieces>,
) -> Result<Option<Text>, AllocError>
    ensures { IfOk result (λ text. text
        ≡ option_map (specs.text_of (listed groups.now) dir.now taken.now) display.now) }
{
    match display {
        Some(pieces) => Ok(Some(text_of(alloc, groups, dir, taken, pieces.as_slice())?)),
        None => Ok(None),
    }
}

/// The pieces of a command put together.
pub(crate) fn text_of(
    alloc: Global,
    groups: &Groups,
    dir: &Path,
    taken: &[GroupRef],
    pieces: &[Piece],
) -> Result<Text, AllocError>
    ensures { IfOk result (λ text. text
        ≡ specs.text_of (listed groups.now) dir.now taken.now pieces.now) }
{
    let mut text = Text::from_str(alloc, "")?;
    for piece in pieces {
        add_piece(alloc, &mut text, groups, dir, taken, piece)?;
    }
    Ok(text)
}

/// Goes on with what a piece stands for.
fn add_piece(
    alloc: Global,
    text: &mut Text,
    groups: &Groups,
    dir: &Path,
    taken: &[GroupRef],
    piece: &Piece,
) -> Result<(), AllocError>
    ensures { OnOk result (text.new ≡ text.old
        ++ specs.piece_text (listed groups.now) dir.now taken.now piece.now) }
{
    match piece {
        Piece::Text(more) => text.push_str(more.as_str()),
        Piece::Group(at) => match taken.get(*at as usize) {
            Some(group) => add_group(alloc, text, groups, dir, group),
            None => Ok(()),
        },
    }
}

/// Goes on with the members of a group.
fn add_group(
    alloc: Global,
    text: &mut Text,
    groups: &Groups,
    dir: &Path,
    group: &GroupRef,
) -> Result<(), AllocError>
    ensures { OnOk result (text.new ≡ text.old
        ++ specs.shown dir.now (listed groups.now group.now)) }
{
    match groups.get(group) {
        Some(members) => add_shown(alloc, text, dir, members),
        None => Ok(()),
    }
}

/// Goes on with the way to each of some files, parted by one space.
fn add_shown(
    alloc: Global,
    text: &mut Text,
    dir: &Path,
    paths: &BTreeSet<Path>,
) -> Result<(), AllocError>
    ensures { OnOk result (text.new ≡ text.old ++ specs.shown dir.now paths.now.keys) }
{
    let mut gap = "";
    for path in paths {
        text.push_str(gap)?;
        add_way(alloc, text, dir, path)?;
        gap = " ";
    }
    Ok(())
}

/// Goes on with the way to a file.
fn add_way(alloc: Global, text: &mut Text, dir: &Path, path: &Path) -> Result<(), AllocError>
    ensures { OnOk result (text.new ≡ text.old ++ show_from dir.now path.now) }
{
    match path.show_from(alloc, dir) {
        Ok(way) => text.push_str(way.as_str()),
        Err(_) => Err(AllocError),
    }
}
