//! The runner that starts a program for each command.
ghost use Rattle.std.specs.Prelude.{◌≡◌, ◌∷◌, ◌++◌, [], Some, None, Ok, Err, IfOk, IfErr, OnOk};
ghost use Rattle.std.specs.Option.{option_copied};
ghost use Rattle.std.specs.Process.{command_program, command_args};
ghost use Rattle.tup_path.specs.Show.{show};
ghost use Rattle.tup_runner.specs.Run.{CountsFaults};
ghost use Rattle.tup_proc.specs.Log.{IsLog};
ghost use Rattle.tup_proc_runner.specs.declared.fault.ProcFault.{ProcFault as FaultValue};
ghost use Rattle.tup_proc_runner.specs.Asked.{IsOwn};
ghost use Rattle.tup_proc_runner.specs.Refused.{IsMemoryOr, IsOfStart};
ghost use Rattle.tup_proc_runner.specs.Told as specs;
ghost use Rattle.tup_proc_runner.specs.Told.{FollowsLog};

use crate::asking::ask_all;
use crate::fault::{ProcFault, Refused};
use crate::place::place_of;
use crate::printed::Printing;
use crate::stage::Stage;
use crate::stages::Stages;
use std::alloc::{AllocError, Global};
use std::fs::File;
use std::process::{Command, Processes};
use std::rt::Files;
use tup_path::{Items, Path, Text};
use tup_proc::LogLine;
use tup_runner::{Ended, RunFailed, Runner, View};

/// Starts a program for each command, with the words ROOT DIR STAGE TEXT, and reads its log. Each fault is counted.
#[derive(Drop)]
pub struct ProcRunner<R: Files<File = File> + Processes + Clone + Drop> {
    root: Text,
    program: Text,
    stage: Stage<R>,
    printing: Printing,
    last: Option<ProcFault>,
    faults: u64,
}

impl<R: Files<File = File> + Processes + Clone + Drop> ProcRunner<R> {
    /// A runner of this program for the files below a root, with these stages. What a command prints is kept in the file at a
    /// place, if there is one. It starts nothing yet and takes no memory.
    pub fn new(
        rt: R,
        alloc: Global,
        root: Text,
        program: Text,
        stages: Stages,
        kept: Option<Text>,
    ) -> ProcRunner<R>
        ensures unnamed { result.last ≡ None }
        ensures uncounted { result.faults ≡ 0 }
        ensures words { (result.root ≡ root) × (result.program ≡ program) }
        ensures stages { (result.stage.stages ≡ stages) × (result.stage.count ≡ 0) }
    {
        ProcRunner {
            root,
            program,
            stage: Stage {
                rt,
                stages,
                count: 0,
                folder: Text::from_string(String::new(alloc)),
                name: Text::from_string(String::new(alloc)),
                held: None,
            },
            printing: Printing {
                place: kept,
                watch: None,
            },
            last: None,
            faults: 0,
        }
    }

    /// The last fault. `None` where there was none yet.
    pub fn last(&self) -> Option<&ProcFault>
        ensures { option_copied result ≡ self.now.last }
    {
        self.last.as_ref()
    }

    /// Removes what the commands of its update left, as far as that can be. All of them have to be over.
    pub fn leave(&self, alloc: Global) {
        // Without memory it stays until the next update.
        drop(self.stage.leave(alloc));
    }

    /// Runs the program, and gives the lines of its log.
    fn start(
        &mut self,
        alloc: Global,
        dir: &Path,
        text: &Text,
        own: &[Path],
    ) -> Result<Items<LogLine>, Refused>
        ensures log { IfOk result IsLog }
        ensures refused { IfErr result IsOfStart }
        ensures uncounted { self.new.faults ≡ self.old.faults }
    {
        self.stage.prepare(alloc, &self.root, own)?;
        let command = self.command_in(alloc, dir, text)?;
        self.printing.run(&self.stage.rt, alloc, command)?;
        self.stage.log(alloc)
    }

    /// The program with its words, told of this folder.
    fn command_in(&self, alloc: Global, dir: &Path, text: &Text) -> Result<Command, Refused>
        ensures program { IfOk result (λ command. command_program command ≡ self.now.program) }
        ensures words { IfOk result (λ command. command_args command
            ≡ self.now.root ∷ show dir.now ∷ self.now.stage.folder ∷ text.now ∷ []) }
        ensures memory { IfErr result (λ refused. refused ≡ Refused.Memory) }
    {
        match dir.show(alloc) {
            Ok(dir) => Ok(self.command(alloc, &dir, text)?),
            Err(_) => Err(Refused::Memory),
        }
    }

    /// The program with its words.
    fn command(&self, alloc: Global, dir: &Text, text: &Text) -> Result<Command, AllocError>
        ensures program { IfOk result (λ command. command_program command ≡ self.now.program) }
        ensures words { IfOk result (λ command. command_args command
            ≡ self.now.root ∷ dir.now ∷ self.now.stage.folder ∷ text.now ∷ []) }
    {
        let mut command = Command::new(alloc, self.program.as_str())?;
        self.add_words(&mut command, dir, text)?;
        Ok(command)
    }

    /// Adds the words of the program to those that stand.
    fn add_words(&self, command: &mut Command, dir: &Text, text: &Text) -> Result<(), AllocError>
        ensures program { OnOk result (command_program command.new ≡ command_program command.old) }
        ensures words { OnOk result (command_args command.new ≡ command_args command.old
            ++ self.now.root ∷ dir.now ∷ self.now.stage.folder ∷ text.now ∷ []) }
    {
        command.arg(self.root.as_str())?;
        command.arg(dir.as_str())?;
        command.arg(self.stage.folder.as_str())?;
        command.arg(text.as_str())?;
        Ok(())
    }

    /// Puts the asks of a log to the view, and gives how the program ended by it.
    fn follow<V: View>(
        &mut self,
        alloc: Global,
        dir: &Path,
        lines: &[LogLine],
        view: &mut V,
    ) -> Result<Ended, RunFailed>
        requires log { IsLog lines.now }
        requires granted { V.refusal view.old ≡ None }
        ensures log { FollowsLog lines.now (specs.place_of self.old.root dir.now)
            (λ asks. V.came view.old asks view.new) (V.refusal view.new) self.new.last result }
        ensures cause { CountsFaults self.old.faults self.new.faults result }
        ensures same { V.same view.old view.new }
    {
        if let Some(text) = ask_all(alloc, lines, view)? {
            let refused = self.differs(alloc, dir, &text);
            return self.told(Err(refused));
        }
        let ended = self.stage.ended(alloc, lines);
        self.told(ended)
    }

    /// The fault where what a log says of this text isn't what the view answers.
    fn differs(&self, alloc: Global, dir: &Path, text: &Text) -> Refused
        ensures { IsMemoryOr (ProcFault.Differs (specs.place_of self.now.root dir.now text.now)) result }
    {
        match place_of(alloc, &self.root, dir, text) {
            Ok(place) => Refused::Fault(ProcFault::Differs { place }),
            Err(_) => Refused::Memory,
        }
    }

    /// An answer as the runner gives it. Each fault is counted and kept.
    fn told<T>(&mut self, answer: Result<T, Refused>) -> Result<T, RunFailed>
        ensures cause { CountsFaults self.old.faults self.new.faults result }
        ensures own { IfErr result IsOwn }
        ensures value { IfOk result (λ value. answer ≡ Ok value) }
        ensures done { IfOk answer (λ value. result ≡ Ok value) }
        ensures memory { answer ≡ Err Refused.Memory → result ≡ Err RunFailed.Memory }
        ensures named { (fault : FaultValue) → answer ≡ Err (Refused.Fault fault)
            → self.new.last ≡ Some fault }
    {
        match answer {
            Ok(value) => Ok(value),
            Err(Refused::Memory) => Err(RunFailed::Memory),
            Err(Refused::Fault(fault)) => {
                self.last = Some(fault);
                self.faults = self.faults.saturating_add(1);
                Err(RunFailed::Fault)
            }
        }
    }
}

impl<R: Files<File = File> + Processes + Clone + Drop + Send> Runner for ProcRunner<R> {
    ghost use Rattle.std.specs.Prelude.{[], false};
    ghost use Rattle.tup_proc_runner.specs.Asked.{untold};

    ghost tells = { false };

    ghost next = { untold };

    ghost tells_ran = { false };

    ghost ran = { λ _. [] };

    ghost faults = { λ runner. runner.faults };

    fn run<V: View>(
        &mut self,
        alloc: Global,
        dir: &Path,
        text: &Text,
        view: &mut V,
    ) -> Result<Ended, RunFailed> {
        let started = self.start(alloc, dir, text, view.own());
        let lines = self.told(started)?;
        self.follow(alloc, dir, lines.as_slice(), view)
    }

    fn faults(&self) -> u64 {
        self.faults
    }
}
