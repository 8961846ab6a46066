//! The account of a command.
ghost use Rattle.std.specs.Prelude.{◌≡◌, OnOk, IfOk};
ghost use Rattle.tup_strace.specs.Account as specs;
ghost use Rattle.tup_strace.specs.Account.{with_step, account_of};
ghost use Rattle.tup_strace.specs.Once.{is_among};
ghost use Rattle.tup_strace.specs.declared.act.Answer.TheVariants.{Unclear};

use crate::act::Answer;
use crate::once::Once;
use std::alloc::{AllocError, Global};
use tup_path::Path;

/// What a command does to a path.
#[derive(Drop)]
pub enum Step {
    /// It asks for what is there, and is told so.
    Ask(Path, Answer),
    /// It makes or overwrites what is there.
    Write(Path),
    /// It asks for what is there, and may have changed it.
    Change(Path),
    /// It removes what is there.
    Remove(Path),
    /// It moves what is there.
    Move { from: Path, to: Path },
}

/// What a command asks for and writes.
#[derive(Drop)]
pub struct Account {
    /// What it asks for, in order, each path once.
    pub asks: Once,
    /// What it wrote, made, removed or may have changed, in the order in which it first did.
    pub touched: Once,
    /// What it surely wrote, made or removed; it isn't asked for afterwards.
    pub own: Once,
    /// What it was told of that something is there.
    pub found: Once,
    /// What it was told of that nothing is there.
    pub missed: Once,
}

/// The account of what was done, step by step.
pub fn accounted(alloc: Global, steps: &[Step]) -> Result<Account, AllocError>
    ensures { IfOk result (λ account. account ≡ account_of steps.now) }
{
    let mut account = Account::new(alloc);
    for step in steps {
        account.add(step)?;
    }
    Ok(account)
}

impl Account {
    /// Nothing was done yet.
    pub fn new(alloc: Global) -> Account
        ensures { result ≡ specs.nothing }
    {
        Account {
            asks: Once::new(alloc),
            touched: Once::new(alloc),
            own: Once::new(alloc),
            found: Once::new(alloc),
            missed: Once::new(alloc),
        }
    }

    /// Adds what was done to a path.
    pub fn add(&mut self, step: &Step) -> Result<(), AllocError>
        ensures { OnOk result (self.new ≡ with_step self.old step.now) }
    {
        match step {
            Step::Ask(path, answer) => self.ask(path, *answer),
            Step::Write(path) => self.write(path),
            Step::Change(path) => self.change(path),
            Step::Remove(path) => self.remove(path),
            Step::Move { from, to } => self.rename(from, to),
        }
    }

    /// Whether the command wrote, made or removed a path itself.
    pub fn is_own(&self, path: &Path) -> bool
        ensures { result ≡ is_among path.now self.now.own }
    {
        self.own.contains(path)
    }

    /// Adds an ask, with what it was told.
    fn ask(&mut self, path: &Path, answer: Answer) -> Result<(), AllocError>
        ensures { OnOk result (self.new ≡ specs.asked self.old path.now answer) }
    {
        if self.is_own(path) {
            return Ok(());
        }
        match answer {
            Answer::Found => self.found.add(path)?,
            Answer::Missed => self.missed.add(path)?,
            Answer::Unclear => {}
        }
        self.asks.add(path)
    }

    /// Adds a write.
    fn write(&mut self, path: &Path) -> Result<(), AllocError>
        ensures { OnOk result (self.new ≡ specs.written self.old path.now) }
    {
        self.touched.add(path)?;
        self.own.add(path)
    }

    /// Adds an ask, and what may be a write.
    fn change(&mut self, path: &Path) -> Result<(), AllocError>
        ensures { OnOk result (self.new ≡ specs.touched (specs.asked self.old path.now Unclear) path.now) }
    {
        self.ask(path, Answer::Unclear)?;
        self.touched.add(path)
    }

    /// Adds a removal.
    fn remove(&mut self, path: &Path) -> Result<(), AllocError>
        ensures { OnOk result (self.new ≡ specs.written (specs.asked self.old path.now Unclear) path.now) }
    {
        self.ask(path, Answer::Unclear)?;
        self.write(path)
    }

    /// Adds a move.
    fn rename(&mut self, from: &Path, to: &Path) -> Result<(), AllocError>
        ensures { OnOk result (self.new ≡ specs.moved self.old from.now to.now) }
    {
        if *from == *to {
            return self.ask(from, Answer::Unclear);
        }
        self.ask(from, Answer::Unclear)?;
        self.write(to)?;
        self.write(from)
    }
}
