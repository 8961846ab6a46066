//! What a command under way keeps, and how it reads and writes files.
ghost use Rattle.std.specs.Prelude.{◌≡◌, ◌<◌, nat_lt, None, Err, IfOk, IfErr, OnOk, IsTrue};
ghost use Rattle.tup_mini.specs.Kept.{first_text, nothing, with_ask, Kept as KeptSpec};
ghost use Rattle.tup_mini.specs.Part as specs;
ghost use Rattle.tup_mini.specs.Part.{ask_for};
ghost use Rattle.tup_mini.specs.Files.{reads_own, reads, needs, writes_to};
ghost use Rattle.tup_mini.specs.Through.{Follows, GoesOn};

use crate::stopped::Stopped;
use crate::written::Written;
use std::alloc::{AllocError, Global};
use tup_path::{Bytes, Path, Text};
use tup_runner::{Answer, Ended, RunFailed, View};

/// How many bytes a command may write to a file.
const MAX_WRITTEN: usize = 16_777_216;

/// How often a command may read what it wrote.
const MAX_OWN_READS: u32 = 4095;

/// How often a command may ask for a file.
const MAX_ASKS: u32 = 4095;

/// What a command under way keeps: what it wrote and how often it read that, how often it asked for
/// another file, and the first that it asked for.
#[derive(Drop)]
pub(crate) struct Kept {
    written: Written,
    own_reads: u32,
    asked: u32,
    first: Option<Text>,
}

impl Kept {
    ghost use Rattle.tup_mini.specs.Through.{kept_of, AtOnce};

    /// Nothing written yet by a command in this folder.
    pub(crate) fn new(alloc: Global, dir: &Path) -> Result<Kept, AllocError>
        ensures { IfOk result (λ kept. kept_of kept ≡ nothing dir.now) }
    {
        Ok(Kept {
            written: Written::new(alloc, dir)?,
            own_reads: 0,
            asked: 0,
            first: None,
        })
    }

    /// What a file holds, or `None` where it isn't there. What the command wrote is read without an
    /// ask.
    pub(crate) fn read<V: View>(
        &mut self,
        alloc: Global,
        text: &Text,
        view: &mut V,
    ) -> Result<Option<Bytes>, Stopped>
        requires { V.refusal view.old ≡ None }
        ensures { Follows V.came V.same V.refusal view.old view.new
            (reads text.now (kept_of self.old)) (kept_of self.new) result }
    {
        match self.written.get(alloc, text)? {
            Some(content) => self.read_own(content),
            None => self.ask(alloc, text, view),
        }
    }

    /// Asks for a file. A command that may ask no more asks for its first file again, until that is
    /// refused.
    fn ask<V: View>(
        &mut self,
        alloc: Global,
        text: &Text,
        view: &mut V,
    ) -> Result<Option<Bytes>, Stopped>
        requires { V.refusal view.old ≡ None }
        ensures { Follows V.came V.same V.refusal view.old view.new
            (ask_for text.now (kept_of self.old)) (kept_of self.new) result }
    {
        if !self.may_ask() {
            return ask_on(alloc, self.first_text(text), view);
        }
        self.count(text)?;
        ask_once(alloc, text, view)
    }

    /// Whether it may ask once more.
    fn may_ask(&self) -> bool
        ensures may { result ≡ nat_lt self.now.asked 4095 }
        ensures early { IsTrue result → self.now.asked < 4095 }
    {
        self.asked < MAX_ASKS
    }

    /// The first text that was asked for, or this one where none was.
    fn first_text<'a>(&'a self, text: &'a Text) -> &'a Text
        ensures { result.now ≡ first_text self.now.first text.now }
    {
        match &self.first {
            Some(first) => first,
            None => text,
        }
    }

    /// Counts an ask.
    fn count(&mut self, text: &Text) -> Result<(), AllocError>
        requires { self.old.asked < 4095 }
        ensures { OnOk result (kept_of self.new ≡ with_ask text.now (kept_of self.old)) }
    {
        if self.first.is_none() {
            self.first = Some(text.clone()?);
        }
        self.asked += 1;
        Ok(())
    }

    /// One more read of what the command wrote.
    fn read_own(&mut self, content: Bytes) -> Result<Option<Bytes>, Stopped>
        ensures { AtOnce (reads_own content (kept_of self.old)) (kept_of self.new) result }
    {
        if self.own_reads >= MAX_OWN_READS {
            return Err(Stopped::Status(4));
        }
        self.own_reads += 1;
        Ok(Some(content))
    }

    /// What a file holds that has to be there.
    pub(crate) fn need<V: View>(
        &mut self,
        alloc: Global,
        text: &Text,
        view: &mut V,
    ) -> Result<Bytes, Stopped>
        requires { V.refusal view.old ≡ None }
        ensures { Follows V.came V.same V.refusal view.old view.new
            (needs text.now (kept_of self.old)) (kept_of self.new) result }
    {
        match self.read(alloc, text, view)? {
            Some(content) => Ok(content),
            None => Err(Stopped::Status(1)),
        }
    }

    /// Writes a file.
    pub(crate) fn write(
        &mut self,
        alloc: Global,
        text: &Text,
        content: Bytes,
    ) -> Result<(), Stopped>
        ensures { AtOnce (writes_to text.now content (kept_of self.old)) (kept_of self.new) result }
    {
        if content.as_slice().len() > MAX_WRITTEN {
            return Err(Stopped::Status(5));
        }
        Ok(self.written.put(alloc, text, content)?)
    }

    /// The end with a status, and with what was written.
    pub(crate) fn ended(self, status: u8) -> Ended
        ensures status { result.status ≡ status }
        ensures writes { result.writes ≡ (kept_of self).writes }
    {
        Ended {
            status,
            writes: self.written.into_writes(),
        }
    }
}

/// Asks a view for a file.
fn ask_once<V: View>(alloc: Global, text: &Text, view: &mut V) -> Result<Option<Bytes>, Stopped>
    requires { V.refusal view.old ≡ None }
    ensures { (kept : KeptSpec) → Follows V.came V.same V.refusal view.old view.new
        (specs.ask_once text.now kept) kept result }
{
    match view.ask(alloc, text)? {
        Answer::Content(content) => Ok(Some(content.into_bytes())),
        Answer::Absent => Ok(None),
    }
}

/// Asks a view for a file again and again, until it is refused.
fn ask_on<V: View>(alloc: Global, text: &Text, view: &mut V) -> Result<Option<Bytes>, Stopped>
    requires { V.refusal view.old ≡ None }
    ensures { (kept : KeptSpec) → Follows V.came V.same V.refusal view.old view.new
        (specs.ask_on text.now) kept result }
{
    for _ in 0..u32::MAX {
        ask_more(alloc, text, view)?;
    }
    Err(Stopped::Failed(RunFailed::Memory))
}

/// Asks a view once more for a file, whatever it answers.
fn ask_more<V: View>(alloc: Global, text: &Text, view: &mut V) -> Result<(), Stopped>
    requires { V.refusal view.old ≡ None }
    ensures goes_on { OnOk result (GoesOn V.came V.same V.refusal view.old view.new
        (specs.ask_on text.now) (specs.ask_on text.now)) }
    ensures stops { IfErr result (λ stopped. (kept : KeptSpec) → Follows V.came V.same V.refusal
        view.old view.new (specs.ask_on text.now) kept (Err stopped)) }
{
    view.ask(alloc, text)?;
    Ok(())
}
