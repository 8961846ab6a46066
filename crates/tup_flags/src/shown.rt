//! What a flag shows of files.
ghost use Rattle.std.specs.Prelude.{◌≡◌, OnOk, IfErr};
ghost use Rattle.tup_flags.specs.Answer.{IsGrown, HasNoRoom};
ghost use Rattle.tup_flags.specs.Shown as specs;

use crate::answer::Answer;
use crate::fault::FlagFault;
use std::alloc::Global;
use tup_path::Path;

/// What a flag shows of a file.
#[derive(Clone, Copy)]
pub(crate) enum Side {
    /// The way to it from the folder of the Tupfile.
    Way,
    /// The same without the extension.
    Trunk,
    /// Its last name.
    Name,
    /// The same without the extension.
    Stem,
    /// The extension without its dot.
    Extension,
}

/// Goes on with what is shown of each of some files, parted by one space, as far as there is room.
pub(crate) fn add_listed(
    alloc: Global,
    answer: &mut Answer,
    dir: &Path,
    side: Side,
    paths: &[Path],
) -> Result<(), FlagFault>
    ensures grown { OnOk result
        (IsGrown answer.old answer.new (specs.listed dir.now side paths.now)) }
    ensures refused { IfErr result (HasNoRoom answer.old (specs.listed dir.now side paths.now)) }
{
    let Some((first, others)) = paths.split_first() else {
        return Ok(());
    };
    add_shown(alloc, answer, dir, side, first)?;
    add_further(alloc, answer, dir, side, others)
}

/// Goes on with what is shown of each of some files, each behind a space.
fn add_further(
    alloc: Global,
    answer: &mut Answer,
    dir: &Path,
    side: Side,
    paths: &[Path],
) -> Result<(), FlagFault>
    ensures grown { OnOk result
        (IsGrown answer.old answer.new (specs.further dir.now side paths.now)) }
    ensures refused { IfErr result (HasNoRoom answer.old (specs.further dir.now side paths.now)) }
{
    for path in paths {
        answer.add_text(" ")?;
        add_shown(alloc, answer, dir, side, path)?;
    }
    Ok(())
}

/// Goes on with what is shown of one file.
fn add_shown(
    alloc: Global,
    answer: &mut Answer,
    dir: &Path,
    side: Side,
    path: &Path,
) -> Result<(), FlagFault>
    ensures grown { OnOk result
        (IsGrown answer.old answer.new (specs.shown dir.now side path.now)) }
    ensures refused { IfErr result (HasNoRoom answer.old (specs.shown dir.now side path.now)) }
{
    match side {
        Side::Way => answer.add_text(path.show_from(alloc, dir)?.as_str()),
        Side::Trunk => {
            let way = path.show_from(alloc, dir)?;
            answer.add_text(without_extension(way.as_str()))
        }
        Side::Name => answer.add_text(last_name(path)),
        Side::Stem => answer.add_text(without_extension(last_name(path))),
        Side::Extension => answer.add_text(extension(last_name(path))),
    }
}

/// The last name of a path; the top directory has none, which is the empty text.
pub(crate) fn last_name(path: &Path) -> &str
    ensures { result.now ≡ specs.last_name path.now }
{
    match path.names().last() {
        Some(name) => name.as_str(),
        None => "",
    }
}

/// A text up to the last dot of its last name.
fn without_extension(text: &str) -> &str
    ensures { result.now ≡ specs.without_extension text.now }
{
    match text.rsplit_once('.') {
        Some((front, behind)) if !behind.contains('/') => front,
        _ => text,
    }
}

/// What stands behind the last dot of a name.
fn extension(name: &str) -> &str
    ensures { result.now ≡ specs.extension name.now }
{
    match name.rsplit_once('.') {
        Some((_, extension)) => extension,
        None => "",
    }
}
