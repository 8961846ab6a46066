//! What happens to the project, turn by turn.
ghost use Rattle.std.specs.Prelude.{◌≡◌, ◌++◌, ◌∷◌, [], IfOk, OnOk};
ghost use Rattle.tup_large.specs.Turns as specs;

use crate::folder::{content_of, path_in};
use std::alloc::{AllocError, Global};
use tup_history::Turn;
use tup_path::{Items, Text};
use tup_site::Deed;
use tup_top::Word;

/// The place of the turn in which the project begins.
pub(crate) const BEGINNING: usize = 0;

/// The place of the turn in which it is compared with a clean build, the last.
pub(crate) const COMPARISON: usize = 11;

/// The turns: the project begins, and is then called seven times, with an edit before four of these
/// calls.
pub(crate) fn large_turns(alloc: Global) -> Result<Vec<Turn>, AllocError>
    ensures { IfOk result (λ turns. turns.items ≡ specs.turns) }
{
    let mut turns = Vec::new(alloc);
    add_turns(alloc, &mut turns)?;
    Ok(turns)
}

/// Adds all turns.
fn add_turns(alloc: Global, turns: &mut Vec<Turn>) -> Result<(), AllocError>
    ensures { OnOk result (turns.new.items ≡ turns.old.items ++ specs.turns) }
{
    add_call(alloc, turns, "init")?;
    add_call(alloc, turns, "upd")?;
    add_call(alloc, turns, "upd")?;
    add_edits(alloc, turns)?;
    add_call(alloc, turns, "verify")?;
    Ok(())
}

/// Adds the edits, each with an update after it.
fn add_edits(alloc: Global, turns: &mut Vec<Turn>) -> Result<(), AllocError>
    ensures { OnOk result (turns.new.items ≡ turns.old.items ++ specs.edits) }
{
    add_write(alloc, turns, "inc", "h0.h", "#define H0 1\n")?;
    add_write(alloc, turns, "d0000", "s1.c", "int x;\n")?;
    add_write(alloc, turns, "d0000", "n.c", "int n;\n")?;
    add_removal(alloc, turns, "d0000", "s9.c")?;
    Ok(())
}

/// Adds that a file of a folder is written, and an update.
fn add_write(
    alloc: Global,
    turns: &mut Vec<Turn>,
    folder: &str,
    name: &str,
    content: &str,
) -> Result<(), AllocError>
    ensures { OnOk result (turns.new.items ≡ turns.old.items
        ++ specs.write folder.now name.now content.now ∷ specs.update ∷ []) }
{
    let path = path_in(alloc, folder, name)?;
    let content = Some(content_of(alloc, content)?);
    turns.push(Turn::Deed(Deed::Edit { path, content }))?;
    add_call(alloc, turns, "upd")
}

/// Adds that a file of a folder is deleted, and an update.
fn add_removal(
    alloc: Global,
    turns: &mut Vec<Turn>,
    folder: &str,
    name: &str,
) -> Result<(), AllocError>
    ensures { OnOk result (turns.new.items ≡ turns.old.items
        ++ specs.delete folder.now name.now ∷ specs.update ∷ []) }
{
    let path = path_in(alloc, folder, name)?;
    let content = None;
    turns.push(Turn::Deed(Deed::Edit { path, content }))?;
    add_call(alloc, turns, "upd")
}

/// Adds a call of the program with one word.
fn add_call(alloc: Global, turns: &mut Vec<Turn>, word: &str) -> Result<(), AllocError>
    ensures { OnOk result (turns.new.items ≡ turns.old.items ++ specs.call word.now ∷ []) }
{
    let word = Word(Text::from_str(alloc, word)?);
    turns.push(Turn::Run {
        words: Items::from_vec(vec![in alloc; word]?),
        stop_after: None,
    })?;
    Ok(())
}
