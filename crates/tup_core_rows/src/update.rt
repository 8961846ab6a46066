//! An update whose seats take turns: what each runs, and what happens then.
use crate::job::Job;
use crate::opening::stamps_of;
use crate::sources::{Contents, are_those_of, contents, put};
use std::alloc::{AllocError, Global};
use std::collections::BTreeSet;
use std::mem;
use tup_access::{Access, Inputs, Verdict, allowed, judge};
use tup_clean::generated;
use tup_core::CoreEvent;
use tup_given::Project;
use tup_path::{Bytes, Files, Items, Path, Text};
use tup_rows::RowFault;
use tup_rule::{Rule, Rules};
use tup_runner::{Ended, Step};
use tup_stamp::stamp_of;

/// An update under way.
#[derive(Drop)]
pub(crate) struct Update {
    rules: Rules,
    /// What the rules make.
    made: BTreeSet<Path>,
    files: Contents,
    /// What each seat runs.
    seats: Vec<Option<Job>>,
    /// What happened since it was last told.
    events: Vec<CoreEvent>,
    /// Why the update is worth nothing.
    fault: Option<RowFault>,
}

impl Update {
    /// An update of a project that has no seat yet.
    pub(crate) fn new(alloc: Global, project: &Project) -> Result<Update, AllocError> {
        let rules = project.rules.clone()?;
        let made = generated(alloc, rules.as_slice())?;
        let files = contents(alloc, &project.sources)?;
        Ok(Update {
            rules,
            made,
            files,
            seats: Vec::new(alloc),
            events: Vec::new(alloc),
            fault: None,
        })
    }

    /// Adds so many seats that run nothing.
    pub(crate) fn add_seats(&mut self, count: u64) {
        for _ in 0..count {
            let added = add(&mut self.seats, None);
            self.note(added);
        }
    }

    /// The turn that a lot gives to a seat, while this rule is the first that is ready.
    pub(crate) fn turn(&mut self, alloc: Global, lot: u64, ready: Option<u32>) {
        match u32::try_from(lot % (self.seats.len().max(1) as u64)) {
            Ok(seat) => self.turn_of(alloc, seat, ready),
            Err(_) => self.fail(RowFault::OtherKind),
        }
    }

    /// What happened since it was last told.
    pub(crate) fn tell(&mut self, alloc: Global) -> Vec<CoreEvent> {
        mem::replace(&mut self.events, Vec::new(alloc))
    }

    /// Whether its files are those of a tree, unless it is worth nothing.
    pub(crate) fn ends_with(&self, tree: &Files) -> Result<bool, RowFault> {
        match self.fault {
            Some(fault) => Err(fault),
            None => Ok(are_those_of(&self.files, tree)),
        }
    }

    /// A seat goes on with its command, or claims the rule that is ready.
    fn turn_of(&mut self, alloc: Global, seat: u32, ready: Option<u32>) {
        let next = self.next_of(alloc, seat, ready);
        put_at(&mut self.seats, seat, next);
    }

    /// What a seat runs after its turn.
    fn next_of(&mut self, alloc: Global, seat: u32, ready: Option<u32>) -> Option<Job> {
        match taken(&mut self.seats, seat) {
            Some(job) => self.work(alloc, seat, job),
            None => self.claim(alloc, seat, ready),
        }
    }

    /// Claims a rule, if there is one.
    fn claim(&mut self, alloc: Global, seat: u32, ready: Option<u32>) -> Option<Job> {
        let rule = ready?;
        self.happens(Ok(CoreEvent::Claim { seat, rule }));
        match rule_at(self.rules.as_slice(), rule) {
            Ok(rule) => Some(Job::new(alloc, rule)),
            Err(fault) => {
                self.fail(fault);
                None
            }
        }
    }

    /// The next step of a seat's command, which is given back unless it was the last.
    fn work(&mut self, alloc: Global, seat: u32, mut job: Job) -> Option<Job> {
        let goes_on = self.goes_on(alloc, seat, &mut job);
        kept(job, goes_on)
    }

    /// Takes the next step of a command. Whether there may be one more.
    fn goes_on(&mut self, alloc: Global, seat: u32, job: &mut Job) -> bool {
        match job.next(alloc) {
            Ok(Step::Ask(text)) => self.ask(alloc, seat, job, text),
            Ok(Step::End(ended)) => self.end(alloc, seat, &job.rule, &ended),
            Err(fault) => self.fails(fault),
        }
    }

    /// A command asks, and is answered, or ends by that.
    fn ask(&mut self, alloc: Global, seat: u32, job: &mut Job, text: Text) -> bool {
        match allowed(
            alloc,
            &job.rule,
            &Inputs::few(),
            &self.made,
            &text,
            job.asked(),
        ) {
            Ok(Access::Yes(path)) => self.answer(seat, job, text, &path),
            Ok(Access::No(verdict)) => self.deny(alloc, seat, &text, verdict),
            Err(_) => self.fails(RowFault::Memory),
        }
    }

    /// A command asks for a file that it may read, and goes on.
    fn answer(&mut self, seat: u32, job: &mut Job, text: Text, path: &Path) -> bool {
        let content = told(&job.rule, &self.files, path);
        let event = asking(seat, &text, content);
        let added = job.reply(text, content);
        self.happens(event);
        self.note(added);
        true
    }

    /// A command may not ask for a text, and this becomes of it; it doesn't go on.
    fn deny(&mut self, alloc: Global, seat: u32, text: &Text, verdict: Verdict) -> bool {
        self.happens(denial(seat, text, &verdict));
        self.finish(alloc, seat, verdict, Items::new(alloc))
    }

    /// A command ends, and is judged; it doesn't go on.
    fn end(&mut self, alloc: Global, seat: u32, rule: &Rule, ended: &Ended) -> bool {
        match judge(alloc, rule, ended) {
            Ok((verdict, written)) => self.finish(alloc, seat, verdict, written),
            Err(_) => self.fails(RowFault::Memory),
        }
    }

    /// A command's rule is done, and its files stand; it doesn't go on.
    fn finish(&mut self, alloc: Global, seat: u32, verdict: Verdict, written: Files) -> bool {
        self.happens(finishing(alloc, seat, verdict, &written));
        let put = put_all(&mut self.files, written);
        self.note(put);
        false
    }

    /// Notes what happens, if there was memory for it.
    fn happens(&mut self, event: Result<CoreEvent, AllocError>) {
        match event {
            Ok(event) => self.add_event(event),
            Err(_) => self.fail(RowFault::Memory),
        }
    }

    /// Adds what happens.
    fn add_event(&mut self, event: CoreEvent) {
        let added = add(&mut self.events, event);
        self.note(added);
    }

    /// Notes want of memory.
    fn note(&mut self, done: Result<(), AllocError>) {
        if done.is_err() {
            self.fail(RowFault::Memory);
        }
    }

    /// The update is worth nothing, for this reason.
    fn fail(&mut self, fault: RowFault) {
        self.fault = Some(fault);
    }

    /// The same of a command, which doesn't go on.
    fn fails(&mut self, fault: RowFault) -> bool {
        self.fail(fault);
        false
    }
}

/// Adds an item at the end.
fn add<T: Drop>(items: &mut Vec<T>, item: T) -> Result<(), AllocError> {
    Ok(items.push(item)?)
}

/// What stands in a slot, which is empty then.
fn taken<T: Drop>(slots: &mut [Option<T>], at: u32) -> Option<T> {
    slots.get_mut(at as usize)?.take()
}

/// Puts a value into a slot, if there is one.
fn put_at<T: Drop>(slots: &mut [T], at: u32, value: T) {
    if let Some(slot) = slots.get_mut(at as usize) {
        *slot = value;
    }
}

/// A value, if it stays.
fn kept<T: Drop>(value: T, stays: bool) -> Option<T> {
    if stays { Some(value) } else { None }
}

/// The rule of this number.
fn rule_at(rules: &[Rule], number: u32) -> Result<Rule, RowFault> {
    match rules.get(number as usize) {
        Some(rule) => Ok(rule.clone()?),
        None => Err(RowFault::OtherKind),
    }
}

/// What a rule's command is told: what stands there, but nothing of its own outputs.
fn told<'a>(rule: &Rule, files: &'a Contents, path: &Path) -> Option<&'a Bytes> {
    if rule.writes(path) {
        return None;
    }
    files.get(path)
}

/// The ask of a text that is answered so.
fn asking(seat: u32, text: &Text, content: Option<&Bytes>) -> Result<CoreEvent, AllocError> {
    Ok(CoreEvent::Ask {
        seat,
        text: text.clone()?,
        answer: content.map(|content| stamp_of(content.as_slice())),
    })
}

/// The ask of a text that is refused so.
fn denial(seat: u32, text: &Text, verdict: &Verdict) -> Result<CoreEvent, AllocError> {
    Ok(CoreEvent::Deny {
        seat,
        text: text.clone()?,
        verdict: verdict.clone()?,
    })
}

/// The end of a command with these files.
fn finishing(
    alloc: Global,
    seat: u32,
    verdict: Verdict,
    written: &Files,
) -> Result<CoreEvent, AllocError> {
    Ok(CoreEvent::Finish {
        seat,
        verdict,
        writes: stamps_of(alloc, written)?,
    })
}

/// Puts files one after another.
fn put_all(files: &mut Contents, written: Files) -> Result<(), AllocError> {
    for (path, content) in written.into_vec() {
        put(files, path, content)?;
    }
    Ok(())
}
