//! The folders on the way to an output.
ghost use Rattle.std.specs.Prelude.{◌≡◌, ◌||◌, false, is_some, codes};
ghost use Rattle.tup_lex.specs.declared.kind.ParseKind.TheVariants.{ForeignOutput};
ghost use Rattle.tup_rule_line.specs.Folder as folders;
ghost use Rattle.tup_rule_line.specs.Input.{is_file};
ghost use Rattle.tup_rule_line.specs.Output as specs;
ghost use Rattle.tup_query.specs.Went.{Went, asker, Gives};

use crate::folder::led;
use crate::input::is_file;
use crate::made::Made;
use crate::path_set::folder_of;
use crate::places::Places;
use std::alloc::Global;
use tup_lex::ParseKind;
use tup_path::{Path, Text};
use tup_query::{Env, Log, ReadEnd, Spot, kind_at};
use tup_rule::Kind;

/// Whether a file or an output so far stands where a folder on the way to a path has to be. The folders
/// are those between the folder that is read and the path, from above.
pub(crate) fn is_way_blocked<E: Env>(
    alloc: Global,
    env: &mut E,
    log: &mut Log,
    at: &Spot,
    drafts: &Made,
    outputs: &Places,
    path: &Path,
) -> Result<bool, ReadEnd>
    requires { is_some (E.stopped env.old) ≡ false }
    ensures { Went E.tells (asker (E.answers env.old) (E.stopped env.old) (E.asked env.old) log.old)
        (specs.is_way_blocked at.now drafts.now outputs.now path.now
        (specs.between at.now.dir path.now))
        (asker (E.answers env.new) (E.stopped env.new) (E.asked env.new) log.new) result }
{
    let Some(folder) = folder_of(alloc, path)? else {
        return Ok(false);
    };
    if folder.depth() <= at.dir().depth() {
        return Ok(false);
    }
    let above = is_way_blocked(alloc, env, log, at, drafts, outputs, &folder)?;
    let here = is_blocked(alloc, env, log, at, drafts, outputs, &folder)?;
    Ok(above || here)
}

/// Whether a file or an output so far stands where a folder has to be. A folder that has a Tupfile is
/// refused.
fn is_blocked<E: Env>(
    alloc: Global,
    env: &mut E,
    log: &mut Log,
    at: &Spot,
    drafts: &Made,
    outputs: &Places,
    folder: &Path,
) -> Result<bool, ReadEnd>
    requires { is_some (E.stopped env.old) ≡ false }
    ensures { Went E.tells (asker (E.answers env.old) (E.stopped env.old) (E.asked env.old) log.old)
        (specs.is_blocked at.now drafts.now outputs.now folder.now)
        (asker (E.answers env.new) (E.stopped env.new) (E.asked env.new) log.new) result }
{
    let tupfile = tupfile_in(alloc, at, folder)?;
    let stands = kind_at(alloc, env, log, &tupfile)?;
    if is_file(stands) {
        return Err(at.refuse(ParseKind::ForeignOutput));
    }
    let kind = kind_at(alloc, env, log, folder)?;
    Ok(is_no_folder(drafts, outputs, folder, kind))
}

/// Whether a path of this kind can't be a folder: a file or an output so far stands there.
fn is_no_folder(drafts: &Made, outputs: &Places, path: &Path, kind: Kind) -> bool
    ensures { result
        ≡ (is_file kind || specs.is_taken drafts.now outputs.now path.now) }
{
    is_file(kind) || is_taken(drafts, outputs, path)
}

/// The path of a folder's Tupfile.
fn tupfile_in(alloc: Global, at: &Spot, folder: &Path) -> Result<Path, ReadEnd>
    ensures { Gives (folders.led at.now ForeignOutput folder.now (codes "Tupfile")) result }
{
    let name = Text::from_str(alloc, "Tupfile")?;
    led(alloc, at, ParseKind::ForeignOutput, folder, &name)
}

/// Whether a path is an output so far.
pub(crate) fn is_taken(drafts: &Made, outputs: &Places, path: &Path) -> bool
    ensures { result ≡ specs.is_taken drafts.now outputs.now path.now }
{
    drafts.has(path) || outputs.has(path)
}
