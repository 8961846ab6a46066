//! A rule that a seat runs.
ghost use Rattle.std.specs.Prelude.{◌≡◌, ◌<◌, [], None, OnOk, OnErr, length, slice_set};
ghost use Rattle.std.specs.Option.{option_map};
ghost use Rattle.tup_core.specs.Step.{asked, refused};
ghost use Rattle.tup_core.specs.Machine.{entry};

use std::alloc::{AllocError, Global};
use tup_access::Verdict;
use tup_path::{Items, Text};
use tup_stamp::Stamp;

/// The texts that a command has asked for, each with the stamp that it was answered.
pub type StampAsks = Items<(Text, Option<Stamp>)>;

/// A rule that a seat runs, and what its command did so far.
#[derive(Drop)]
pub struct Running {
    /// The place of the rule.
    pub rule: u32,
    pub asks: StampAsks,
    /// The text that the command may not ask for, with what becomes of it, once there is one.
    pub denied: Option<(Text, Verdict)>,
}

impl Running {
    /// A rule whose command did nothing yet; it takes no memory.
    pub(crate) fn new(alloc: Global, rule: u32) -> Running
        ensures { result ≡ record { rule = rule; asks = []; denied = None } }
    {
        Running {
            rule,
            asks: Items::new(alloc),
            denied: None,
        }
    }

    /// The command asks once more. After a refusal nothing has changed.
    pub(crate) fn ask(&mut self, text: &Text, answer: Option<Stamp>) -> Result<(), AllocError>
        ensures ok { OnOk result (self.new ≡ asked text.now answer self.old) }
        ensures err { OnErr result (self.new ≡ self.old) }
    {
        let text = text.clone()?;
        self.asks.push((text, answer))?;
        Ok(())
    }

    /// The command asks for what it may not. After a refusal nothing has changed.
    pub(crate) fn deny(&mut self, text: &Text, verdict: &Verdict) -> Result<(), AllocError>
        ensures ok { OnOk result (self.new ≡ refused text.now verdict.now self.old) }
        ensures err { OnErr result (self.new ≡ self.old) }
    {
        self.denied = Some((text.clone()?, verdict.clone()?));
        Ok(())
    }
}

/// The command at a seat asks once more. After a refusal nothing has changed.
pub(crate) fn ask_at(
    seats: &mut [Option<Running>],
    seat: usize,
    text: &Text,
    answer: Option<Stamp>,
) -> Result<(), AllocError>
    requires { seat < length seats.old }
    ensures ok { OnOk result (seats.new ≡ slice_set seats.old seat
        (option_map (asked text.now answer) (entry seats.old seat))) }
    ensures err { OnErr result (seats.new ≡ seats.old) }
{
    match &mut seats[seat] {
        Some(running) => running.ask(text, answer),
        None => Ok(()),
    }
}

/// The command at a seat asks for what it may not. After a refusal nothing has changed.
pub(crate) fn deny_at(
    seats: &mut [Option<Running>],
    seat: usize,
    text: &Text,
    verdict: &Verdict,
) -> Result<(), AllocError>
    requires { seat < length seats.old }
    ensures ok { OnOk result (seats.new ≡ slice_set seats.old seat
        (option_map (refused text.now verdict.now) (entry seats.old seat))) }
    ensures err { OnErr result (seats.new ≡ seats.old) }
{
    match &mut seats[seat] {
        Some(running) => running.deny(text, verdict),
        None => Ok(()),
    }
}
