//! Whether what a reading was told still is so.
ghost use Rattle.std.specs.Prelude.{◌≡◌, None, IfOk, IfErr};
ghost use Rattle.std.specs.Bool.{Decides};
ghost use Rattle.tup_path.specs.Tree.{Tree};
ghost use Rattle.tup_rule.specs.Question.{noted as kept_as};
ghost use Rattle.tup_rule.specs.declared.question.Noted.TheVariants as kept;
ghost use Rattle.tup_readings.specs.Answers.{answer, awaited};
ghost use Rattle.tup_readings.specs.Asked.{IsWait};
ghost use Rattle.tup_graph.specs.Graph.{source as source_of};
ghost use Rattle.tup_refresh.specs.Part.{HasPaths};
ghost use Rattle.tup_refresh.specs.Standing.{HasCompared};
ghost use Rattle.tup_refresh.specs.Untouched.{SeesSources};

use std::alloc::Global;
use tup_graph::Nodes;
use tup_path::Path;
use tup_readings::{Asked, Stop};
use tup_rule::{Answered, Noted, Question};
use tup_stamp::Stamp;

/// Whether all that a reading was told is what is answered now. Answers are compared in the order in
/// which they were asked, up to the first that isn't so or that waits for the reading of a folder;
/// contents by their stamps.
pub(crate) fn all_stand(
    alloc: Global,
    asked: &Asked<'_, '_>,
    nodes: &Nodes,
    told: &[Answered],
) -> Result<bool, Stop>
    ensures { (sources : Tree) → HasPaths sources asked.now.sources.now
        → SeesSources sources nodes.now
        → HasCompared sources asked.now.settings.now asked.now.readings.now
        asked.now.reader.now told.now result }
{
    for one in told {
        let stands = stands(alloc, asked, nodes, one.question(), one.noted())?;
        if !stands {
            return Ok(false);
        }
    }
    Ok(true)
}

/// Whether what a reading was told to a question is what is answered now.
fn stands(
    alloc: Global,
    asked: &Asked<'_, '_>,
    nodes: &Nodes,
    question: &Question,
    noted: &Noted,
) -> Result<bool, Stop>
    ensures stands { (sources : Tree) → HasPaths sources asked.now.sources.now
        → SeesSources sources nodes.now
        → IfOk result (λ stands. Decides stands (kept_as (answer sources
        asked.now.settings.now asked.now.readings.now asked.now.reader.now question.now)
        ≡ noted.now)) }
    ensures ready { (sources : Tree) → HasPaths sources asked.now.sources.now
        → IfOk result (λ stands. awaited sources
        asked.now.readings.now asked.now.reader.now question.now ≡ None) }
    ensures waits { (sources : Tree) → HasPaths sources asked.now.sources.now
        → IfErr result (IsWait (awaited sources
        asked.now.readings.now asked.now.reader.now question.now)) }
{
    match question {
        Question::Content(path) => Ok(has_stamp(nodes, path, noted)),
        Question::Config(_) | Question::Names(_) | Question::Kind(_) => {
            is_told(alloc, asked, question, noted)
        }
    }
}

/// Whether what a reading was told to a question is what is told now.
fn is_told(
    alloc: Global,
    asked: &Asked<'_, '_>,
    question: &Question,
    noted: &Noted,
) -> Result<bool, Stop>
    ensures told { IfOk result (λ stands. Decides stands (kept_as (answer asked.now.sources.now
        asked.now.settings.now asked.now.readings.now asked.now.reader.now question.now)
        ≡ noted.now)) }
    ensures ready { IfOk result (λ stands. awaited asked.now.sources.now
        asked.now.readings.now asked.now.reader.now question.now ≡ None) }
    ensures waits { IfErr result (IsWait (awaited asked.now.sources.now
        asked.now.readings.now asked.now.reader.now question.now)) }
{
    let told = asked.told(alloc, question)?;
    Ok(told.noted() == *noted)
}

/// Whether the content of the source at a path, or that there is none, was told so.
fn has_stamp(nodes: &Nodes, path: &Path, noted: &Noted) -> bool
    ensures { Decides result (kept.Content (source_of nodes.now path.now) ≡ noted.now) }
{
    Noted::Content(source(nodes, path)) == *noted
}

/// The stamp of the source at a path.
fn source(nodes: &Nodes, path: &Path) -> Option<Stamp>
    ensures { result ≡ source_of nodes.now path.now }
{
    match nodes.owner(path) {
        Some(_) => None,
        None => nodes.seen(path),
    }
}
