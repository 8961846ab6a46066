//! The folders whose readings asked a question.
ghost use Rattle.std.specs.Prelude.{◌≡◌, ◌↔◌, ◌++◌, Contains, IfOk, OnOk};
ghost use Rattle.std.specs.List.Sorted.{IsStrictlySortedBy};
ghost use Rattle.tup_path.specs.Name.{Names};
ghost use Rattle.tup_path.specs.Order.{by_names};
ghost use Rattle.tup_readers.specs.Askers.{has_asked, key_if, same_question};
ghost use Rattle.tup_readers.specs.Index.{HasQuestioned};

use std::alloc::{AllocError, Global};
use tup_graph::Nodes;
use tup_path::Path;
use tup_rule::{Answered, Question, Reading};

/// The folders whose readings asked a question, in the order of paths, in one pass over what readings left.
pub(crate) fn find_askers(
    alloc: Global,
    nodes: &Nodes,
    question: &Question,
) -> Result<Vec<Path>, AllocError>
    ensures folders { IfOk result (λ dirs. (dir : Names)
        → Contains dirs.items dir ↔ HasQuestioned nodes.now dir question.now) }
    ensures ascending { IfOk result (λ dirs. IsStrictlySortedBy by_names dirs.items) }
{
    let mut dirs = Vec::new(alloc);
    for (dir, reading) in nodes.readings() {
        push_if_asked(&mut dirs, dir, reading, question)?;
    }
    Ok(dirs)
}

/// Adds a folder, if its reading asked a question.
fn push_if_asked(
    dirs: &mut Vec<Path>,
    dir: &Path,
    reading: &Reading,
    question: &Question,
) -> Result<(), AllocError>
    ensures { OnOk result (dirs.new.items
        ≡ dirs.old.items ++ key_if (has_asked question.now reading.now) dir.now) }
{
    if asked(reading, question) {
        dirs.push(dir.clone()?)?;
    }
    Ok(())
}

/// Whether a reading asked a question.
fn asked(reading: &Reading, question: &Question) -> bool
    ensures { result ≡ has_asked question.now reading.now }
{
    reading
        .asked
        .as_slice()
        .iter()
        .any(|one| is_of(one, question))
}

/// Whether what was told answers a question.
fn is_of(one: &Answered, question: &Question) -> bool
    ensures { result ≡ same_question one.now.0 question.now }
{
    same(one.question(), question)
}

/// Whether two questions are the same.
fn same(one: &Question, other: &Question) -> bool
    ensures { result ≡ same_question one.now other.now }
{
    one == other
}
