//! Rule lines.
ghost use Rattle.std.specs.Prelude.{◌≡◌, false, IfOk, ◌++◌, map, is_some};
ghost use Rattle.std.specs.List.{list_any};
ghost use Rattle.tup_rule_line.specs.Folder.{is_group as group_test};
ghost use Rattle.tup_rule_line.specs.Found.{paths_of};
ghost use Rattle.tup_rule_line.specs.Job.{gives_nothing, jobs_of, one_job, only_glob, whole_job};
ghost use Rattle.tup_rule_line.specs.RuleLine as specs;
ghost use Rattle.tup_query.specs.Went.{Went, asker, Gives};

use crate::command::with_jobs;
use crate::folder::{group_in, is_group, led_to_folder};
use crate::found::{Found, Input, Inputs, add_groups};
use crate::input::from_words;
use crate::job::{Job, Plan, Sources};
use crate::state::State;
use crate::words::{Words, words_of};
use std::alloc::{AllocError, Global};
use tup_lex::ParseKind;
use tup_path::{Items, Paths, Text};
use tup_query::{Env, Log, ReadEnd, Spot, expanded};
use tup_rule::{GroupRef, GroupRefs};

/// The state with a rule line's commands, by what stands behind its colon: its variables are put in,
/// it is cut, its macro filled in, its input words, order-only words and the group of its outputs are
/// looked up, and then each command's outputs, text and display, in this order.
///
/// `Fault` names the first thing that is wrong there; `Stopped` comes just where who answers has
/// stopped in this call.
pub fn ruled<E: Env>(
    alloc: Global,
    env: &mut E,
    log: &mut Log,
    at: &Spot,
    state: State,
    line: &str,
) -> Result<State, ReadEnd>
    requires { is_some (E.stopped env.old) ≡ false }
    ensures { Went E.tells (asker (E.answers env.old) (E.stopped env.old) (E.asked env.old) log.old)
        (specs.ruled at.now state line.now)
        (asker (E.answers env.new) (E.stopped env.new) (E.asked env.new) log.new) result }
{
    let words = words_in(alloc, env, log, at, &state, line)?;
    with_words(alloc, env, log, at, state, &words)
}

/// The parts of a rule line, with its variables put in and its macro filled in.
fn words_in<E: Env>(
    alloc: Global,
    env: &mut E,
    log: &mut Log,
    at: &Spot,
    state: &State,
    line: &str,
) -> Result<Words, ReadEnd>
    requires { is_some (E.stopped env.old) ≡ false }
    ensures { Went E.tells (asker (E.answers env.old) (E.stopped env.old) (E.asked env.old) log.old)
        (specs.words_in at.now state.now line.now)
        (asker (E.answers env.new) (E.stopped env.new) (E.asked env.new) log.new) result }
{
    let text = expanded(alloc, env, log, at, &state.variables, line)?;
    words_of(alloc, at, &state.macros, &text)
}

/// The state with a rule's commands, by its parts.
fn with_words<E: Env>(
    alloc: Global,
    env: &mut E,
    log: &mut Log,
    at: &Spot,
    state: State,
    words: &Words,
) -> Result<State, ReadEnd>
    requires { is_some (E.stopped env.old) ≡ false }
    ensures { Went E.tells (asker (E.answers env.old) (E.stopped env.old) (E.asked env.old) log.old)
        (specs.with_words at.now state words.now)
        (asker (E.answers env.new) (E.stopped env.new) (E.asked env.new) log.new) result }
{
    let plan = planned(alloc, env, log, at, &state, words)?;
    let jobs = plan.jobs.as_slice();
    with_jobs(alloc, env, log, at, words, &plan.sources, state, jobs)
}

/// What a rule's commands share, and the commands, by its parts.
fn planned<E: Env>(
    alloc: Global,
    env: &mut E,
    log: &mut Log,
    at: &Spot,
    state: &State,
    words: &Words,
) -> Result<Plan, ReadEnd>
    requires { is_some (E.stopped env.old) ≡ false }
    ensures { Went E.tells (asker (E.answers env.old) (E.stopped env.old) (E.asked env.old) log.old)
        (specs.planned at.now state.now words.now)
        (asker (E.answers env.new) (E.stopped env.new) (E.asked env.new) log.new) result }
{
    let inputs = from_words(alloc, env, log, at, state, words.inputs.as_slice())?;
    let order = from_words(alloc, env, log, at, state, words.order.as_slice())?;
    plan_of(alloc, at, words, inputs, order)
}

/// The same by what its words give.
fn plan_of(
    alloc: Global,
    at: &Spot,
    words: &Words,
    inputs: Found,
    order: Found,
) -> Result<Plan, ReadEnd>
    ensures { Gives (specs.plan_of at.now words.now inputs order) result }
{
    let group = given_to(alloc, at, &words.group)?;
    Ok(plan_with(alloc, words, inputs, order, group)?)
}

/// The same by the group to which it gives its outputs.
fn plan_with(
    alloc: Global,
    words: &Words,
    inputs: Found,
    order: Found,
    group: Option<GroupRef>,
) -> Result<Plan, AllocError>
    ensures { IfOk result (λ plan. plan ≡ specs.plan_with words.now inputs order group) }
{
    let jobs = jobs_of(alloc, words, &inputs.inputs)?;
    let sources = sources_of(alloc, inputs.groups, order, group)?;
    Ok(Plan { sources, jobs })
}

/// The group to which a rule gives its outputs.
fn given_to(alloc: Global, at: &Spot, word: &Option<Text>) -> Result<Option<GroupRef>, ReadEnd>
    ensures { Gives (specs.given_to at.now word.now) result }
{
    match word {
        Some(word) => {
            let dir = led_to_folder(alloc, at, ParseKind::ForeignOutput, word.as_str())?;
            Ok(Some(group_in(alloc, dir, word.as_str())?))
        }
        None => Ok(None),
    }
}

/// What all commands of a rule share: the groups are those among its inputs, and then those of its
/// order-only ones.
fn sources_of(
    alloc: Global,
    groups: GroupRefs,
    order: Found,
    gives: Option<GroupRef>,
) -> Result<Sources, AllocError>
    ensures { IfOk result (λ sources. sources ≡ record {
      order = paths_of order.inputs;
      groups = groups ++ order.groups;
      gives = gives;
    }) }
{
    let mut groups = groups;
    add_groups(&mut groups, order.groups)?;
    Ok(Sources {
        order: paths_of(alloc, order.inputs.as_slice())?,
        groups,
        gives,
    })
}

/// The paths of inputs.
fn paths_of(alloc: Global, inputs: &[Input]) -> Result<Paths, AllocError>
    ensures { IfOk result (λ paths. paths ≡ paths_of inputs.now) }
{
    let mut paths = Paths::new(alloc);
    for input in inputs {
        paths.push(input.path.clone()?)?;
    }
    Ok(paths)
}

/// The commands of a rule: one for each input, or one for all.
fn jobs_of(alloc: Global, words: &Words, inputs: &Inputs) -> Result<Items<Job>, AllocError>
    ensures { IfOk result (λ jobs. jobs ≡ jobs_of words.now inputs.now) }
{
    if words.foreach {
        return jobs_of_each(alloc, inputs.as_slice());
    }
    let mut jobs = Items::new(alloc);
    if !gives_nothing(words.inputs.as_slice(), inputs.as_slice()) {
        jobs.push(whole_job(alloc, inputs.as_slice())?)?;
    }
    Ok(jobs)
}

/// A command for each input.
fn jobs_of_each(alloc: Global, inputs: &[Input]) -> Result<Items<Job>, AllocError>
    ensures { IfOk result (λ jobs. jobs ≡ map one_job inputs.now) }
{
    let mut jobs = Items::new(alloc);
    for input in inputs {
        jobs.push(one_job(alloc, input)?)?;
    }
    Ok(jobs)
}

/// The command for one input alone.
fn one_job(alloc: Global, input: &Input) -> Result<Job, AllocError>
    ensures { IfOk result (λ job. job ≡ one_job input.now) }
{
    let mut inputs = Paths::new(alloc);
    inputs.push(input.path.clone()?)?;
    Ok(Job {
        inputs,
        glob: input.glob.clone()?,
    })
}

/// The command for all inputs.
fn whole_job(alloc: Global, inputs: &[Input]) -> Result<Job, AllocError>
    ensures { IfOk result (λ job. job ≡ whole_job inputs.now) }
{
    Ok(Job {
        inputs: paths_of(alloc, inputs)?,
        glob: only_glob(inputs)?,
    })
}

/// What the one input of a command matched.
fn only_glob(inputs: &[Input]) -> Result<Option<Text>, AllocError>
    ensures { IfOk result (λ glob. glob ≡ only_glob inputs.now) }
{
    match inputs {
        [input] => input.glob.clone(),
        _ => Ok(None),
    }
}

/// Whether words are there, none of them a group, and they give no file: then no command is made.
fn gives_nothing(words: &[Text], inputs: &[Input]) -> bool
    ensures { result ≡ gives_nothing words.now inputs.now }
{
    words.len() != 0 && inputs.len() == 0 && !has_group(words)
}

/// Whether one of words is a group.
fn has_group(words: &[Text]) -> bool
    ensures { result ≡ list_any group_test words.now }
{
    words.iter().any(|word| is_group(word.as_str()))
}
