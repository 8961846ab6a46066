//! The command, run and followed.
use crate::changed::changed;
use crate::entries::Entries;
use crate::ground::Ground;
use crate::links::{are_plain, keep_all, may_be_left_out};
use crate::listed::listed;
use crate::listing::entries;
use crate::log::Asks;
use crate::mark::{Moment, mark, pass};
use crate::pointed::pointed;
use crate::seen::{Seen, Untracked};
use crate::stage::prepare;
use crate::start::{Apart, names_missing, start};
use crate::tell;
use crate::update::Update;
use crate::way::{Way, way_of};
use crate::writes::{Remarks, Writes, is_open};
use std::alloc::Global;
use std::collections::BTreeSet;
use std::fs::File;
use std::io::Stderr;
use std::process::Processes;
use std::rt::Files;
use std::{fs, str};
use tup_child::{Failure, Tree, Words, path_of};
use tup_disk::{Held, Operation, held_at, told};
use tup_path::{Items, Path, Text};
use tup_proc::LogLine;
use tup_strace::{Account, Act, acts_of};
use tup_trace::{Call, Token, TraceFault, calls};

/// How often a command runs at most: once more for each of two causes, of which it can have the one twice.
const MAX_RUNS: u32 = 4;

/// Why a command isn't run where another file system is mounted in the project.
const FOR_ROOT: &str = " is a file system of its own, over which only root can lay an overlay";

const NO_PLACE: &str =
    " is a file system of its own: a command can't write an output into it: mount it elsewhere";

/// The causes where the tracer left no whole trace.
const NOT_RUN: &str = "the tracer failed, and the command wasn't run";

const CUT_OFF: &str =
    "the trace was cut off: the command, or somebody else, has killed the shell that runs it (kill -9 -1?)";

/// What a command is run by.
#[derive(Drop)]
pub(crate) struct Job<R: Files<File = File> + Processes + Eprint + Clone + Drop> {
    pub(crate) rt: R,
    pub(crate) alloc: Global,
    pub(crate) words: Words,
    /// Where the command prints its errors.
    pub(crate) stderr: Stderr,
}

/// A command and what it runs over.
#[derive(Drop)]
struct Task<'a, R: Files<File = File> + Clone + Drop> {
    tree: &'a Tree<R>,
    dir: Path,
    ground: Ground,
    way: Way,
    update: Update,
}

/// What a run of a command came to.
#[derive(Drop)]
enum Outcome {
    /// Its log was left.
    Left,
    /// A file was changed while it was read.
    Changed(Text),
    /// A program ran that may ask for something by a call that wasn't traced.
    Untraced,
}

/// What a command left: its calls, the files in the upper folder, and the status with which it ended.
#[derive(Clone, Copy)]
struct Left<'a> {
    calls: &'a [Call],
    entries: &'a Entries,
    status: u8,
}

/// Runs a command and leaves its log; or else a file that says that the cause was told. The folder of the stage is held open until
/// the end.
pub(crate) fn run<R: Files<File = File> + Processes + Eprint + Clone + Drop>(
    job: &Job<R>,
) -> Result<u8, Failure> {
    let root = job.real(job.words.root.as_str())?;
    let stage = held_at(&job.rt, job.alloc, job.words.stage.as_str())?;
    let tree = job.tree(root, &stage)?;
    let done = job.run_named(&tree);
    if done.is_err() {
        // Without it whoever started this program says that there is no log.
        drop(tree.write_staged("said", b"".as_slice()));
    }
    done?;
    Ok(0)
}

impl<R: Files<File = File> + Processes + Eprint + Clone + Drop> Job<R> {
    /// A folder as a path without links.
    fn real(&self, place: &str) -> Result<Text, Failure> {
        let runtime = (self.rt.clone()?, self.alloc);
        let found = fs::canonicalize(&runtime, place);
        let found = told(self.alloc, Operation::Look, place, found)?;
        Ok(Text::from_string(found.into_string()))
    }

    /// The project below a root, with the stage. Its places lead through the open folder: so they lead into this one still when
    /// another update has put a new one in its place.
    fn tree(&self, root: Text, stage: &Held) -> Result<Tree<R>, Failure> {
        let stage = Text::from_string(stage.through(self.alloc)?);
        Tree::read(self.rt.clone()?, self.alloc, root, stage)
    }

    /// Runs the command over a project. Where it couldn't be run a program that isn't installed is named.
    fn run_named(&self, tree: &Tree<R>) -> Result<(), Failure> {
        let done = self.run_over(tree);
        if has_cause(&done) && names_missing(tree) {
            return Err(Failure::Told);
        }
        done
    }

    /// Runs the command over a project; once more where a file was changed while it was read, or a call that wasn't traced may
    /// have been an ask.
    fn run_over(&self, tree: &Tree<R>) -> Result<(), Failure> {
        let task = self.task(tree)?;
        let text = self.words.text.as_str();
        let mut sees_links = !may_be_left_out(tree, &task.update, text)?;
        let mut is_again = false;
        for _ in 0..MAX_RUNS {
            match self.run_once(&task, sees_links)? {
                Outcome::Left => return Ok(()),
                Outcome::Untraced => sees_links = true,
                Outcome::Changed(name) => {
                    if is_again {
                        return Err(is_changed(name));
                    }
                    tell::again(&self.rt, &name);
                    is_again = true;
                }
            }
        }
        Err(Failure::Because("the command ran too often"))
    }

    /// The command and what it runs over.
    fn task<'a>(&self, tree: &'a Tree<R>) -> Result<Task<'a, R>, Failure> {
        let task = Task {
            tree,
            dir: path_of(self.alloc, self.words.dir.as_str())?,
            ground: Ground::of(tree)?,
            way: way_of(&self.rt, self.alloc)?,
            update: Update::of(tree, self.words.stage.as_str())?,
        };
        check_ground(&task)?;
        if !task.ground.is_timed(tree.root.as_str()) && task.update.is_first(tree, "untimed")? {
            tell::untimed(&self.rt);
        }
        Ok(task)
    }

    /// Runs the command once.
    fn run_once(&self, task: &Task<R>, sees_links: bool) -> Result<Outcome, Failure> {
        let tree = task.tree;
        let moment = mark(tree)?;
        prepare(tree, task.ground.is_fit)?;
        if task.ground.is_clocked {
            pass(tree, moment)?;
        }
        start(
            tree,
            Apart {
                words: &self.words,
                ground: &task.ground,
                way: task.way,
                stderr: self.stderr,
                sees_links,
            },
        )?;
        let entries = entries(tree, task.ground.is_fit)?;
        let calls = self.calls(tree)?;
        if !sees_links && !are_plain(tree, calls.as_slice())? {
            keep_all(tree, &task.update)?;
            return Ok(Outcome::Untraced);
        }
        let left = Left {
            calls: calls.as_slice(),
            entries: &entries,
            status: ending(calls.as_slice())?,
        };
        self.follow(task, moment, &left)
    }

    /// The calls of the trace that the tracer left.
    fn calls(&self, tree: &Tree<R>) -> Result<Items<Call>, Failure> {
        let trace = tree.staged_content("trace")?;
        read_calls(self.alloc, trace.as_slice())
    }

    /// Follows what the command did, and leaves its log; or gives the file that was changed while it was read.
    fn follow(&self, task: &Task<R>, moment: Moment, left: &Left) -> Result<Outcome, Failure> {
        let mut untracked = Untracked::none();
        let account = self.account_of(task, left.calls, &mut untracked)?;
        let mut asks = Asks::of(self.alloc, task.tree, &task.dir, &account);
        asks.add_all(self.alloc)?;
        if asks.changed.is_none() {
            asks.changed = changed(task.tree, &task.ground, moment, account.asks.as_slice())?;
        }
        if let Some(text) = asks.changed.take() {
            return Ok(Outcome::Changed(text));
        }
        self.finish(task, &account, left, asks.log, &untracked)
    }

    /// Leaves the log of a command behind which nothing was changed, and tells what is to be said of it.
    fn finish(
        &self,
        task: &Task<R>,
        account: &Account,
        left: &Left,
        log: Items<LogLine>,
        untracked: &Untracked,
    ) -> Result<Outcome, Failure> {
        tell::unseen(&self.rt, untracked);
        self.tell_listed(task, left.calls)?;
        let status = status_with(left.status, untracked.link.is_some());
        self.leave(task, account, left.entries, log, status)?;
        Ok(Outcome::Left)
    }

    /// Tells which folder was listed, once an update that isn't quiet.
    fn tell_listed(&self, task: &Task<R>, calls: &[Call]) -> Result<(), Failure> {
        if task.update.is_quiet {
            return Ok(());
        }
        if let Some(text) = listed(task.tree, calls)? {
            if task.update.is_first(task.tree, "listed")? {
                tell::listed(&self.rt, &text);
            }
        }
        Ok(())
    }

    /// What the command did, resolved, and what of it isn't tracked.
    fn account_of(
        &self,
        task: &Task<R>,
        calls: &[Call],
        untracked: &mut Untracked,
    ) -> Result<Account, Failure> {
        let folder = task.tree.source(&task.dir)?;
        let acts = acts_of(self.alloc, folder.as_bytes(), calls)?;
        let asks = pointed(self.alloc, calls, acts.as_slice())?;
        resolved(
            self.alloc,
            task.tree,
            &task.ground,
            acts.as_slice(),
            asks.as_slice(),
            untracked,
        )
    }

    /// Leaves what was written, and the log with its end.
    fn leave(
        &self,
        task: &Task<R>,
        account: &Account,
        entries: &Entries,
        mut log: Items<LogLine>,
        status: u8,
    ) -> Result<(), Failure> {
        tell::lost(&self.rt, entries.lost);
        let remarks = written(self.alloc, task, account, entries, &mut log)?;
        tell::written(&self.rt, &remarks);
        let status = status_with(status, remarks.are_faults());
        log.push(LogLine::End { status })?;
        task.tree.write_log(log.as_slice())
    }
}

/// Whether what was done failed for a cause that may be a program that isn't installed.
fn has_cause(done: &Result<(), Failure>) -> bool {
    match done {
        Err(Failure::Because(_)) => true,
        Err(Failure::Named { .. }) => true,
        _ => false,
    }
}

/// The failure where a file was changed while it was read, and again when the command ran once more.
fn is_changed(name: Text) -> Failure {
    Failure::Named {
        name,
        cause: " was changed while it was read",
    }
}

/// Refuses what no overlay can be laid over: a file system of its own in the project where only root may do that, and one over an
/// output.
fn check_ground<R: Files<File = File> + Clone + Drop>(task: &Task<R>) -> Result<(), Failure> {
    for point in &task.ground.points {
        if task.way == Way::User {
            return Err(named(task.tree, point, FOR_ROOT)?);
        }
        for path in &task.tree.own {
            if has_point(task.tree, path, point.as_str())? {
                return Err(named(task.tree, point, NO_PLACE)?);
            }
        }
    }
    Ok(())
}

/// Whether an output would be written into the file system that is mounted at a place.
fn has_point<R: Files<File = File> + Clone + Drop>(
    tree: &Tree<R>,
    path: &Path,
    point: &str,
) -> Result<bool, Failure> {
    let Ok(text) = path.show(tree.alloc) else {
        return Err(Failure::Memory);
    };
    Ok(match text.as_str().strip_prefix(point) {
        Some(rest) => rest.is_empty() || rest.starts_with('/'),
        None => false,
    })
}

/// The failure of what has a name.
fn named<R: Files<File = File> + Clone + Drop>(
    tree: &Tree<R>,
    name: &String,
    cause: &'static str,
) -> Result<Failure, Failure> {
    Ok(Failure::Named {
        name: Text::from_str(tree.alloc, name.as_str())?,
        cause,
    })
}

/// What a command did, resolved.
fn resolved<R: Files<File = File> + Clone + Drop>(
    alloc: Global,
    tree: &Tree<R>,
    ground: &Ground,
    acts: &[Act],
    asks: &[Act],
    untracked: &mut Untracked,
) -> Result<Account, Failure> {
    let mut account = Account::new(alloc);
    let mut seen = Seen {
        tree,
        ground,
        account: &mut account,
        untracked,
        plain: BTreeSet::new(alloc),
        above: BTreeSet::new(alloc),
        is_sure: true,
    };
    seen.follow_all(alloc, acts)?;
    seen.follow_all(alloc, asks)?;
    drop(seen);
    Ok(account)
}

/// Adds what was written to a log, and gives what is to be said of it.
fn written<R: Files<File = File> + Clone + Drop>(
    alloc: Global,
    task: &Task<R>,
    account: &Account,
    entries: &Entries,
    log: &mut Items<LogLine>,
) -> Result<Remarks, Failure> {
    let mut remarks = Remarks::none(alloc);
    let mut writes = Writes {
        tree: task.tree,
        dir: &task.dir,
        log,
        count: 0,
        is_open: makes_open(task.tree)?,
        remarks: &mut remarks,
    };
    writes.add_all(alloc, account, entries.list.as_slice())?;
    Ok(remarks)
}

/// Whether others may read what the user makes, as they may read the list that he made in the stage.
fn makes_open<R: Files<File = File> + Clone + Drop>(tree: &Tree<R>) -> Result<bool, Failure> {
    let place = tree.staged("own")?;
    let found = fs::metadata(&tree.rt, place.as_str());
    let found = told(tree.alloc, Operation::Look, place.as_str(), found)?;
    Ok(is_open(&found))
}

/// The status of a command that did what it can't do, or didn't: if it did it fails.
fn status_with(status: u8, is_refused: bool) -> u8 {
    if is_refused && status == 0 { 1 } else { status }
}

/// The calls of a trace.
fn read_calls(alloc: Global, trace: &[u8]) -> Result<Items<Call>, Failure> {
    match calls(alloc, trace) {
        Ok(calls) => Ok(calls),
        Err(TraceFault::Memory) => Err(Failure::Memory),
        Err(TraceFault::BadLine { .. }) => Err(Failure::Because("the trace doesn't read")),
    }
}

/// The status with which the first process ended.
fn ending(calls: &[Call]) -> Result<u8, Failure> {
    let Some(first) = calls.first() else {
        return Err(Failure::Because(NOT_RUN));
    };
    if first.name.as_slice() != b"execve".as_slice() {
        return Err(Failure::Because(NOT_RUN));
    }
    let end = calls.iter().find(|call| call.process == first.process
        && call.name.as_slice() == b"+++".as_slice());
    match end {
        Some(end) => match status_of(end.parts.as_slice()) {
            Some(status) => Ok(status),
            None => Err(Failure::Because(CUT_OFF)),
        },
        None => Err(Failure::Because(CUT_OFF)),
    }
}

/// The status that the end of a process says.
fn status_of(parts: &[Token]) -> Option<u8> {
    match parts {
        [Token::Word(_), Token::Word(_), Token::Word(status), ..] => number(status.as_slice()),
        _ => None,
    }
}

/// The status that digits say.
fn number(digits: &[u8]) -> Option<u8> {
    str::from_utf8(digits).ok()?.parse::<u8>().ok()
}
