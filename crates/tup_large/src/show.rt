//! A large project, and what is shown of it.
ghost use Rattle.std.specs.Prelude.{◌≡◌, ◌≤◌, ℕ, [], IfErr, IfOk, Ok};
ghost use Rattle.tup_large.specs.Number as number;
ghost use Rattle.tup_large.specs.Project.{IsNew, RefusesFiles, large_files};
ghost use Rattle.tup_large.specs.Shown as specs;
ghost use Rattle.tup_large.specs.Turns.{turns};
ghost use Rattle.tup_top.specs.Crew.{IsCrew};
ghost use Rattle.tup_top.specs.Lines.{last_line};
ghost use Rattle.tup_top.specs.declared.status.Status.TheVariants.{Memory};

use crate::lines::{answer, line_of, lines, refusal};
use crate::number::folders_in;
use crate::project::large_site;
use crate::turns::large_turns;
use std::alloc::Global;
use std::sync::Wait;
use std::thread::Threads;
use tup_history::{End, Lived, Turn, history};
use tup_mini::Mini;
use tup_path::{Items, Text};
use tup_site::{MemRefused, MemSite};
use tup_tell::MemSink;
use tup_top::{Status, Word};

/// What is shown of a large project, and how its calls ended.
#[derive(Drop)]
pub struct Shown {
    /// The lines, to be printed as they are.
    pub lines: Text,
    /// Done, or the first other status of a call.
    pub status: Status,
}

/// Shows what calls of the program do to a large project in memory. The words are those after `large`:
/// one number of folders, from 1 to 1,000; else the status tells the first word that can't stand.
///
/// The project has so many folders of ten sources, and ten headers, of which each source includes one.
/// A folder makes a library of its objects, and the top joins all libraries. The project begins, and
/// seven calls follow, by one runner of the small commands: two updates, an update after each of four
/// edits, and a comparison with a clean build. The last line of each of the seven is shown.
///
/// If the site in memory refuses an edit, no turn is carried out after it, and what is shown ends with
/// the line of that refusal.
pub fn large<W: Threads + Wait + Sync>(rt: &W, alloc: Global, words: &[Word]) -> Shown
    // The lines are the last lines of a history from that project's site, and its end is their status.
    ensures { specs.Shows (number.folders_in words.now) result.lines result.status }
{
    match folders_in(words) {
        Ok(folders) => show(rt, alloc, folders),
        Err(place) => alone(alloc, Status::Usage { place }),
    }
}

/// Shows a project of so many folders.
fn show<W: Threads + Wait + Sync>(rt: &W, alloc: Global, folders: u32) -> Shown
    requires { folders ≤ 1000 }
    ensures { specs.Shows (Ok folders) result.lines result.status }
{
    match start(alloc, folders) {
        Ok(start) => {
            let (ends, refused) = live(rt, alloc, start);
            ended(alloc, ends, refused)
        }
        Err(why) => alone(alloc, refusal(why)),
    }
}

/// A project before its first turn.
#[derive(Drop)]
struct Project {
    site: MemSite,
    crew: Vec<Mini>,
    turns: Vec<Turn>,
}

/// A project of so many folders, with one runner.
fn start(alloc: Global, folders: u32) -> Result<Project, MemRefused>
    requires { folders ≤ 1000 }
    ensures made { IfOk result (λ start. IsNew (large_files folders) start.site) }
    ensures crew { IfOk result (λ start. IsCrew start.crew.items) }
    ensures idle { IfOk result (λ start. specs.IsIdle start.crew.items) }
    ensures turns { IfOk result (λ start. start.turns.items ≡ turns) }
    ensures refused { IfErr result (RefusesFiles (large_files folders)) }
{
    let site = large_site(alloc, folders)?;
    let turns = large_turns(alloc)?;
    let crew = vec![in alloc; Mini::new(alloc)]?;
    Ok(Project { site, crew, turns })
}

/// Carries out the turns of a project. What the calls print is kept up to their end, and not shown.
fn live<W: Threads + Wait + Sync>(
    rt: &W,
    alloc: Global,
    start: Project,
) -> (Items<End>, Option<(usize, MemRefused)>)
    requires crew { IsCrew start.crew.items }
    requires idle { specs.IsIdle start.crew.items }
    requires turns { start.turns.items ≡ turns }
    ensures { (folders : ℕ) → IsNew (large_files folders) start.site
        → specs.IsLife folders result.0 result.1 }
{
    let Project { site, crew, turns } = start;
    let mut printed = MemSink::new(alloc, Vec::new(alloc));
    let Lived { ends, refused, .. } = history(rt, alloc, site, turns, crew, &mut printed);
    (ends, refused)
}

/// What is shown of turns that ended so.
fn ended(alloc: Global, ends: Items<End>, refused: Option<(usize, MemRefused)>) -> Shown
    ensures { let text = specs.life_lines ends refused in
        specs.Gives text (specs.life_status ends refused) result.lines result.status }
{
    match lines(alloc, ends.as_slice(), refused) {
        Ok(lines) => Shown {
            lines,
            status: answer(ends.into_vec(), refused),
        },
        Err(_) => no_memory(alloc),
    }
}

/// The line of a status alone.
fn alone(alloc: Global, status: Status) -> Shown
    ensures { specs.Gives (last_line status) status result.lines result.status }
{
    match line_of(alloc, &status) {
        Ok(lines) => Shown { lines, status },
        Err(_) => no_memory(alloc),
    }
}

/// There was no memory for the lines.
fn no_memory(alloc: Global) -> Shown
    ensures lines { result.lines ≡ [] }
    ensures status { result.status ≡ Memory }
{
    Shown {
        lines: Text::from_string(String::new(alloc)),
        status: Status::Memory,
    }
}
