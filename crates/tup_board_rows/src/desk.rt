//! A board whose seats are driven by hand.
ghost use Rattle.std.specs.Prelude.{◌≡◌, IfOk, IsTrue};
ghost use Rattle.tup_board.specs.Board.{course_of, plan_of};
ghost use Rattle.tup_board.specs.Calls.{AreStamped};
ghost use Rattle.tup_runner.specs.Report.{asks_of};
ghost use Rattle.tup_schedule.specs.Course.{GoesOn, RunsRule, WasDenied};

use crate::order::Order;
use crate::quiet::Quiet;
use crate::report::note;
use crate::seat::{may_run, rule_of, seat_report};
use crate::shown::{
    asked_words, claimed_words, drained_words, ended_words, fault_words, verdict_words,
};
use std::alloc::{AllocError, Global};
use tup_board::{Asked, Board, BoardParts, Claimed, Drained};
use tup_core::{Cause, Plan};
use tup_given::Replies;
use tup_mini::Mini;
use tup_path::{Items, Text};
use tup_rows::{RowFault, Words, set};
use tup_runner::{Report, RunFailed};

/// How often a command may ask.
const STEPS: u32 = 5_000;

/// A board over a site in memory, at which small commands run.
pub(crate) type MemBoard = Board<Quiet, Mini>;

/// A board with its plan, and for each seat what its command was told.
#[derive(Drop)]
pub(crate) struct Desk {
    board: MemBoard,
    plan: Plan,
    told: Vec<Replies>,
    ghost planned: { plan ≡ plan_of board },
}

impl Desk {
    /// Nobody was told anything yet.
    pub(crate) fn of(alloc: Global, board: MemBoard, plan: Plan) -> Result<Desk, RowFault>
        requires { plan ≡ plan_of board }
    {
        match untold(alloc) {
            Ok(told) => Ok(Desk { board, plan, told }),
            Err(_) => {
                drop(board);
                drop(plan);
                Err(RowFault::Memory)
            }
        }
    }

    /// Takes the board apart.
    pub(crate) fn into_parts(self) -> BoardParts<Quiet> {
        let Desk {
            board,
            plan,
            told,
            ..
        } = self;
        drop(plan);
        drop(told);
        board.into_parts()
    }

    /// Does what an order says: what came of it. `OtherKind` where the seat can't.
    pub(crate) fn obey(&mut self, alloc: Global, order: &Order<'_>) -> Result<Words, RowFault> {
        let seat = order.number(1);
        match order.word(0) {
            "claim" => self.show_claim(alloc, seat),
            "step" => self.work(alloc, seat, 1),
            "work" => self.work(alloc, seat, STEPS),
            "all" => self.all(alloc, seat),
            "drain" => self.show_drain(alloc),
            "ask" => self.ask_for(alloc, seat, order),
            "denied" => self.end_denied(alloc, seat),
            "stop" => self.stop(alloc, seat, order.word(2)),
            _ => Err(RowFault::NoSuchCall),
        }
    }

    /// A seat that runs nothing claims; its command was told nothing yet.
    fn claim(&mut self, alloc: Global, seat: u32) -> Result<Claimed, RowFault> {
        if seat >= 16 || self.board.running(seat).is_some() {
            return Err(RowFault::OtherKind);
        }
        if let Some(told) = self.told.get_mut(seat as usize) {
            set(told, Replies::new(Items::new(alloc)));
        }
        Ok(self.board.claim(&self.plan, seat))
    }

    fn show_claim(&mut self, alloc: Global, seat: u32) -> Result<Words, RowFault> {
        Ok(claimed_words(alloc, self.claim(alloc, seat)?))
    }

    /// A seat claims one rule after another, and its commands go on to their ends: what came of the last claim.
    fn all(&mut self, alloc: Global, seat: u32) -> Result<Words, RowFault> {
        for _ in 0..=self.plan.reach.len() {
            let claimed = self.claim(alloc, seat)?;
            if !matches!(claimed, Claimed::Rule(_)) {
                return Ok(claimed_words(alloc, claimed));
            }
            self.run(alloc, seat)?;
        }
        Err(RowFault::TooMany)
    }

    /// The command of a seat goes on to its end.
    fn run(&mut self, alloc: Global, seat: u32) -> Result<(), RowFault> {
        self.work(alloc, seat, STEPS)?;
        if self.was_denied(seat) {
            self.end_denied(alloc, seat)?;
        }
        Ok(())
    }

    /// The command of a seat goes on, so many steps at most, until it ends, or an ask is denied or refused: what came of
    /// its last step.
    fn work(&mut self, alloc: Global, seat: u32, steps: u32) -> Result<Words, RowFault> {
        let mut last = Err(RowFault::OtherKind);
        for _ in 0..steps {
            if !self.goes_on(seat) {
                break;
            }
            set(&mut last, self.step(alloc, seat));
        }
        last
    }

    /// It asks once more, or ends.
    fn step(&mut self, alloc: Global, seat: u32) -> Result<Words, RowFault>
        requires { GoesOn (course_of self.old.board) seat }
    {
        match self.report(alloc, seat) {
            Ok(report) => {
                let done = self.finish(alloc, seat, &report);
                drop(report);
                Ok(done)
            }
            Err(RunFailed::Denied) => self.ask_next(alloc, seat),
            Err(RunFailed::View) => Err(RowFault::OtherKind),
            Err(_) => Err(RowFault::Memory),
        }
    }

    /// The report of the command of a seat over what it was told. `View` where this isn't what the seat was answered.
    fn report(&mut self, alloc: Global, seat: u32) -> Result<Report<Mini>, RunFailed>
        requires runs { GoesOn (course_of self.old.board) seat }
        ensures board { self.new.board ≡ self.old.board }
        ensures dir { IfOk result (λ report. (it : RunsRule (course_of self.old.board) seat)
            → report.dir ≡ it.rule.dir) }
        ensures text { IfOk result (λ report. (it : RunsRule (course_of self.old.board) seat)
            → report.text ≡ it.rule.text) }
        ensures asks { IfOk result (λ report. (it : RunsRule (course_of self.old.board) seat)
            → AreStamped it.running.asks (asks_of report)) }
    {
        let Some(rule) = rule_of(&self.board, &self.plan, seat) else {
            return Err(RunFailed::Memory);
        };
        match self.told.get_mut(seat as usize) {
            Some(told) => seat_report(alloc, &self.board, seat, rule, told),
            None => Err(RunFailed::Memory),
        }
    }

    /// Ends the command of a seat.
    fn finish(&mut self, alloc: Global, seat: u32, report: &Report<Mini>) -> Words
        requires runs { GoesOn (course_of self.old.board) seat }
        requires dir { (it : RunsRule (course_of self.old.board) seat)
            → report.now.dir ≡ it.rule.dir }
        requires text { (it : RunsRule (course_of self.old.board) seat)
            → report.now.text ≡ it.rule.text }
        requires asks { (it : RunsRule (course_of self.old.board) seat)
            → AreStamped it.running.asks (asks_of report.now) }
    {
        let ended = self.board.finish(alloc, &self.plan, seat, report);
        let words = ended_words(alloc, &ended);
        drop(ended);
        words
    }

    /// The command of a seat asks for the text that its view has refused.
    fn ask_next(&mut self, alloc: Global, seat: u32) -> Result<Words, RowFault>
        requires { GoesOn (course_of self.old.board) seat }
    {
        match self.refused(seat) {
            Some(text) => {
                let told = self.ask(alloc, seat, &text);
                drop(text);
                told
            }
            None => Err(RowFault::OtherKind),
        }
    }

    fn refused(&mut self, seat: u32) -> Option<Text>
        ensures { self.new.board ≡ self.old.board }
    {
        self.told.get_mut(seat as usize)?.take_denied()
    }

    /// The command of a seat asks for the text of an order.
    fn ask_for(&mut self, alloc: Global, seat: u32, order: &Order<'_>) -> Result<Words, RowFault> {
        if !self.goes_on(seat) {
            return Err(RowFault::OtherKind);
        }
        let text = order.text(alloc);
        let told = self.ask(alloc, seat, &text);
        drop(text);
        told
    }

    /// The command of a seat asks for a text.
    fn ask(&mut self, alloc: Global, seat: u32, text: &Text) -> Result<Words, RowFault>
        requires { GoesOn (course_of self.old.board) seat }
    {
        match self.board.ask(alloc, &self.plan, seat, text) {
            Ok(asked) => self.tell(alloc, seat, text, asked),
            Err(fault) => Ok(fault_words(alloc, fault)),
        }
    }

    /// A command is told what it asked for.
    fn tell(
        &mut self,
        alloc: Global,
        seat: u32,
        text: &Text,
        asked: Asked,
    ) -> Result<Words, RowFault> {
        let noted = self.note(seat, text, &asked);
        let words = asked_words(alloc, &asked);
        drop(asked);
        match noted {
            Ok(()) => Ok(words),
            Err(_) => Err(RowFault::Memory),
        }
    }

    /// It is to be told that again when it begins anew.
    fn note(&mut self, seat: u32, text: &Text, asked: &Asked) -> Result<(), AllocError> {
        match self.told.get_mut(seat as usize) {
            Some(told) => note(told, text, asked),
            None => Ok(()),
        }
    }

    /// Ends the command of a seat that was denied an ask.
    fn end_denied(&mut self, alloc: Global, seat: u32) -> Result<Words, RowFault> {
        if !self.was_denied(seat) {
            return Err(RowFault::OtherKind);
        }
        self.board.finish_denied(&self.plan, seat);
        Ok(verdict_words(alloc, self.board.last_verdict()))
    }

    /// Stops at a seat.
    fn stop(&mut self, alloc: Global, seat: u32, cause: &str) -> Result<Words, RowFault> {
        if seat >= 16 {
            return Err(RowFault::OtherKind);
        }
        match cause {
            "run" => self.board.stop(&self.plan, seat, Cause::Run),
            "memory" => self.board.stop(&self.plan, seat, Cause::Memory),
            _ => return Err(RowFault::OtherKind),
        }
        Ok(Words::new(alloc))
    }

    /// All that can be run is run, if nothing happened yet.
    pub(crate) fn drain(&mut self, alloc: Global) -> Result<Drained, RowFault> {
        if !self.board.history().is_empty() {
            return Err(RowFault::OtherKind);
        }
        Ok(self.board.drain(alloc, &self.plan, &mut Mini::new(alloc)))
    }

    fn show_drain(&mut self, alloc: Global) -> Result<Words, RowFault> {
        Ok(drained_words(alloc, self.drain(alloc)?))
    }

    /// Whether a seat runs a rule whose command was denied nothing.
    fn goes_on(&self, seat: u32) -> bool
        ensures { IsTrue result → GoesOn (course_of self.now.board) seat }
    {
        match self.board.running(seat) {
            Some(running) => may_run(&self.plan, seat, running) && running.denied.is_none(),
            None => false,
        }
    }

    /// Whether a seat runs a rule whose command was denied its last ask.
    fn was_denied(&self, seat: u32) -> bool
        ensures { IsTrue result → WasDenied (course_of self.now.board) seat }
    {
        match self.board.running(seat) {
            Some(running) => may_run(&self.plan, seat, running) && running.denied.is_some(),
            None => false,
        }
    }
}

/// For each seat nothing.
fn untold(alloc: Global) -> Result<Vec<Replies>, AllocError> {
    let mut told = Vec::new(alloc);
    for _ in 0..16 {
        told.push(Replies::new(Items::new(alloc)))?;
    }
    Ok(told)
}
