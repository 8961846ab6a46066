//! Whether it is plain that a refresh brings nothing.
ghost use Rattle.std.specs.Prelude.{◌≡◌, Some, None, IsTrue};
ghost use Rattle.std.specs.FinMap as finite;
ghost use Rattle.std.specs.Option.{MatchOption};
ghost use Rattle.std.specs.Result.{result_ok};
ghost use Rattle.tup_path.specs.Resolve.{above};
ghost use Rattle.tup_rule.specs.declared.question.Question.TheVariants as asks;
ghost use Rattle.tup_refresh.specs.Idle.{AllAskBack, AreBack, AsksBack, IsBack, IsIdle, IsWellSet, are_own, asked_folder, keeps_own, up_to};

use std::alloc::Global;
use std::cmp::Ordering;
use tup_graph::Nodes;
use tup_path::{Bytes, Path, Text};
use tup_rule::{Answered, Question};
use tup_vars::read_config;

/// Whether no folder is flagged, tup.config has no fault, and each kept reading asked only about folders whose home is its own
/// folder, comes before it in the order of paths, or asked about no other folder. Then no folder can wait for itself, and what a
/// scan says of the readings is all that a refresh could find.
pub fn is_idle(alloc: Global, nodes: &Nodes, config: &Option<Bytes>) -> bool
    ensures { IsTrue result → IsIdle nodes.now config.now }
{
    if !none_created(nodes) {
        return false;
    }
    if !sets_well(alloc, config) {
        return false;
    }
    all_ask_back(alloc, nodes)
}

/// Whether no folder is flagged.
fn none_created(nodes: &Nodes) -> bool
    ensures { IsTrue result → nodes.now.created ≡ finite.empty }
{
    nodes.created().next().is_none()
}

/// Whether a tup.config, if there is one, has no fault.
fn sets_well(alloc: Global, config: &Option<Bytes>) -> bool
    ensures { IsTrue result → IsWellSet config.now }
{
    match config {
        Some(content) => is_config(alloc, content),
        None => true,
    }
}

/// The same of its content.
fn is_config(alloc: Global, content: &Bytes) -> bool
    ensures { IsTrue result → IsWellSet (Some content.now) }
{
    match read_config(alloc, content) {
        Ok(_) => true,
        Err(_) => false,
    }
}

/// Whether each kept reading asked only about folders whose home is its own folder, comes before it, or asked about nothing but its
/// own folder.
fn all_ask_back(alloc: Global, nodes: &Nodes) -> bool
    ensures { IsTrue result → AllAskBack nodes.now }
{
    for (dir, reading) in nodes.readings() {
        if !are_back(alloc, nodes, dir, reading.asked.as_slice()) {
            return false;
        }
    }
    true
}

/// The same of the questions of one reading. What is asked one after another is mostly about one folder, which is looked at once.
fn are_back(alloc: Global, nodes: &Nodes, reader: &Path, asked: &[Answered]) -> bool
    ensures { IsTrue result → AreBack nodes.now reader.now asked.now }
{
    let reader = reader.names();
    let mut last = reader;
    for one in asked {
        let dir = folder_of(one.question());
        if let Some(dir) = dir {
            if dir != last && !is_back(alloc, nodes, reader, one.question()) {
                return false;
            }
            last = dir;
        }
    }
    true
}

/// The folder that a question asks about, if it is one about files in a folder.
fn folder_of(question: &Question) -> Option<&[Text]>
    ensures { MatchOption result (asked_folder question.now ≡ None)
        (λ dir. asked_folder question.now ≡ Some dir.now) }
{
    match question {
        Question::Content(_) | Question::Config(_) => None,
        Question::Names(dir) => Some(dir.names()),
        Question::Kind(path) => folder_above(path),
    }
}

/// The names of the folder in which a path stands.
fn folder_above(path: &Path) -> Option<&[Text]>
    ensures { MatchOption result (result_ok (above path.now) ≡ None)
        (λ dir. result_ok (above path.now) ≡ Some dir.now) }
{
    match path.names().split_last() {
        Some((_, dir)) => Some(dir),
        None => None,
    }
}

/// Whether a question isn't about a folder whose home is later, and waits for others.
fn is_back(alloc: Global, nodes: &Nodes, reader: &[Text], question: &Question) -> bool
    ensures { IsTrue result → AsksBack nodes.now reader.now question.now }
{
    match question {
        Question::Content(_) | Question::Config(_) => true,
        Question::Names(dir) => is_home_back(alloc, nodes, reader, dir),
        Question::Kind(path) => is_above_back(alloc, nodes, reader, path),
    }
}

/// The same of the folder in which a path stands.
#[cycle(upward)]
fn is_above_back(alloc: Global, nodes: &Nodes, reader: &[Text], path: &Path) -> bool
    ensures { IsTrue result → AsksBack nodes.now reader.now (asks.Kind path.now) }
{
    match path.parent(alloc) {
        Ok(Some(dir)) => is_home_back(alloc, nodes, reader, &dir),
        Ok(None) => true,
        _ => false,
    }
}

/// The same of a folder. Its home is looked for upward, and above a folder that isn't later none is.
#[cycle(upward)]
fn is_home_back(alloc: Global, nodes: &Nodes, reader: &[Text], dir: &Path) -> bool
    ensures { IsTrue result → IsBack nodes.now reader.now dir.now }
{
    if is_up_to(dir.names(), reader) {
        return true;
    }
    if !waits_for_none(nodes, dir) {
        return false;
    }
    is_above_back(alloc, nodes, reader, dir)
}

/// Whether the reading of a folder, if it is kept, asked about nothing but its own folder.
fn waits_for_none(nodes: &Nodes, dir: &Path) -> bool
    ensures { IsTrue result → IsTrue (keeps_own nodes.now dir.now) }
{
    match nodes.reading(dir) {
        Some(reading) => asks_own_folder(dir.names(), reading.asked.as_slice()),
        None => true,
    }
}

/// Whether these questions of the reading of a folder are about no other folder.
fn asks_own_folder(reader: &[Text], asked: &[Answered]) -> bool
    ensures { IsTrue result → IsTrue (are_own reader.now asked.now) }
{
    for one in asked {
        if let Some(dir) = folder_of(one.question()) {
            if dir != reader {
                return false;
            }
        }
    }
    true
}

/// Whether a folder is this one, or comes before it.
fn is_up_to(dir: &[Text], reader: &[Text]) -> bool
    ensures { result ≡ up_to dir.now reader.now }
{
    match dir.cmp(&reader) {
        Ordering::Less => true,
        Ordering::Equal => true,
        Ordering::Greater => false,
    }
}
