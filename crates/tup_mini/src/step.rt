//! One step of a small command.
ghost use Rattle.std.specs.Prelude.{◌≡◌, IfOk};

use crate::word::{has_stray_arrow, redirected, status};
use std::alloc::{AllocError, Global};
use tup_path::{Items, Text};

/// One step of a small command. Files are named relative to the folder of its rule.
#[derive(Drop)]
pub(crate) enum MiniStep {
    /// `cp FROM TO` and `cat FROM.. > TO`: any number of files, one behind the other.
    Join { from: Items<Text>, to: Text },
    /// `echo WORD.. > TO`: the words parted by one blank, with a line feed behind them.
    Echo { words: Items<Text>, to: Text },
    /// `incl FROM TO`: a file with what it includes in place of its lines `#include "x"`.
    Include { from: Text, to: Text },
    /// `ifexists PROBE FROM TO`: a copy of FROM where PROBE is there, else an empty file.
    IfExists { probe: Text, from: Text, to: Text },
    /// It ends the command with this status: `fail N`, or words that are no step.
    Stop(u8),
}

impl MiniStep {
    ghost use Rattle.tup_mini.specs.Steps as specs;

    /// The step that some words are; each list of words is one.
    pub(crate) fn read(alloc: Global, words: &[Text]) -> Result<MiniStep, AllocError>
        ensures { IfOk result (λ step. step ≡ specs.step_of words.now) }
    {
        let [name, arguments @ ..] = words else {
            return Ok(MiniStep::Stop(2));
        };
        if has_stray_arrow(words) {
            return Ok(MiniStep::Stop(2));
        }
        match name.as_str() {
            "cp" => MiniStep::copy(alloc, arguments),
            "cat" => MiniStep::join(alloc, arguments),
            "echo" => MiniStep::echo(alloc, arguments),
            "incl" => MiniStep::include(arguments),
            "ifexists" => MiniStep::if_exists(arguments),
            "fail" => Ok(MiniStep::fail(arguments)),
            _ => Ok(MiniStep::Stop(127)),
        }
    }

    /// `cp A B`
    fn copy(alloc: Global, arguments: &[Text]) -> Result<MiniStep, AllocError>
        ensures { IfOk result (λ step. step ≡ specs.copy_step arguments.now) }
    {
        let [from, to] = arguments else {
            return Ok(MiniStep::Stop(2));
        };
        let mut one = Items::new(alloc);
        one.push(from.clone()?)?;
        Ok(MiniStep::Join {
            from: one,
            to: to.clone()?,
        })
    }

    /// `cat A.. > B`
    fn join(alloc: Global, arguments: &[Text]) -> Result<MiniStep, AllocError>
        ensures { IfOk result (λ step. step ≡ specs.join_step arguments.now) }
    {
        match redirected(alloc, arguments)? {
            Some((from, to)) => Ok(MiniStep::Join { from, to }),
            None => Ok(MiniStep::Stop(2)),
        }
    }

    /// `echo WORD.. > B`
    fn echo(alloc: Global, arguments: &[Text]) -> Result<MiniStep, AllocError>
        ensures { IfOk result (λ step. step ≡ specs.echo_step arguments.now) }
    {
        match redirected(alloc, arguments)? {
            Some((words, to)) => Ok(MiniStep::Echo { words, to }),
            None => Ok(MiniStep::Stop(2)),
        }
    }

    /// `incl A B`
    fn include(arguments: &[Text]) -> Result<MiniStep, AllocError>
        ensures { IfOk result (λ step. step ≡ specs.include_step arguments.now) }
    {
        match arguments {
            [from, to] => Ok(MiniStep::Include {
                from: from.clone()?,
                to: to.clone()?,
            }),
            _ => Ok(MiniStep::Stop(2)),
        }
    }

    /// `ifexists P A B`
    fn if_exists(arguments: &[Text]) -> Result<MiniStep, AllocError>
        ensures { IfOk result (λ step. step ≡ specs.if_exists_step arguments.now) }
    {
        match arguments {
            [probe, from, to] => Ok(MiniStep::IfExists {
                probe: probe.clone()?,
                from: from.clone()?,
                to: to.clone()?,
            }),
            _ => Ok(MiniStep::Stop(2)),
        }
    }

    /// `fail N`
    fn fail(arguments: &[Text]) -> MiniStep
        ensures { result ≡ specs.fail_step arguments.now }
    {
        match arguments {
            [word] => MiniStep::Stop(status(word)),
            _ => MiniStep::Stop(2),
        }
    }
}
