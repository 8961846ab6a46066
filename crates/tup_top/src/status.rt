//! How an order ended.
ghost use Rattle.std.specs.Prelude.{◌≡◌, Some, Ok};
ghost use Rattle.tup_top.specs.Lines.{status_text, what_text};
ghost use Rattle.tup_top.specs.Status as specs;
ghost use Rattle.tup_top.specs.declared.status.Status.TheVariants.{Limit};

use crate::circle::{Commands, Folders, Group};
use std::fmt;
use tup_access::Verdict;
use tup_compare::Compared;
use tup_graph::GraphFault;
use tup_ledger::Begun;
use tup_link::RuleNames;
use tup_path::{Path, Paths, Text};
use tup_promise::{Log, SourcesFault, Stop};
use tup_query::ParseFault;
use tup_rule::{GroupRef, RuleName};
use tup_site::SiteFailed;
use tup_todo::Todo;

/// What has a limit.
#[derive(Clone, Copy, PartialEq, Eq)]
pub enum What {
    /// The files of the tree.
    Files,
    /// The bytes of one file.
    FileSize,
    /// The rules.
    Commands,
    /// The inputs that all rules declare.
    Links,
    /// The bytes of the store, once it is compacted.
    StoreSize,
}

impl What {
    /// How many of these there may be.
    fn most(self) -> u64
        ensures { result ≡ specs.most self }
    {
        match self {
            What::Files | What::Commands => 1 << 16,
            What::FileSize => 1 << 24,
            What::Links => 1 << 22,
            What::StoreSize => 1 << 28,
        }
    }

    /// How many of these there may be on a real disk.
    fn most_on_disk(self) -> u64
        ensures { result ≡ specs.most_on_disk self }
    {
        match self {
            What::Files => 1 << 20,
            What::FileSize => 1 << 30,
            What::Commands | What::Links | What::StoreSize => self.most(),
        }
    }

    /// The limit that is told where there are so many: the greatest that they pass.
    fn limit(self, count: u64) -> u64
        ensures { result ≡ specs.told_limit self count }
    {
        passed_limit(count, self.most(), self.most_on_disk())
    }
}

/// Of two limits the greater one if so many pass it, otherwise the other.
fn passed_limit(count: u64, less: u64, greater: u64) -> u64
    ensures { result ≡ specs.passed_limit count less greater }
{
    if count > greater { greater } else { less }
}

/// How an order ended.
#[derive(Drop)]
pub enum Status {
    /// The order was carried out: so many folders read, commands run and files removed.
    Done { read: u32, ran: u32, removed: u32 },
    /// The command of this rule ended with this status.
    Command { rule: RuleName, status: u8 },
    /// The command of this rule asked for a file that it may not read.
    IllegalRead { rule: RuleName, text: Text },
    /// The command of this rule wrote a file that its rule doesn't name.
    IllegalWrite { rule: RuleName, text: Text },
    /// The command of this rule didn't write this output.
    Unwritten { rule: RuleName, path: Path },
    /// The command of this rule asked too often.
    TooManyReads { rule: RuleName },
    /// The word at this place, counted from 1, can't stand there. Nothing was done.
    Usage { place: u32 },
    /// No project was begun here: there is no store. Nothing was done.
    NotInit,
    /// A project was begun here before. It is as it was.
    AlreadyInit,
    /// The store doesn't read from this byte on. No file was touched.
    BadStore { offset: u64 },
    /// A file that says what to build has this fault. Nothing was done.
    Parse { fault: ParseFault },
    /// These folders wait for each other: each for the next one, and the last one for the first.
    /// Nothing was done.
    CircularDirs { cycle: Paths },
    /// These rules wait for each other: each for the next one, and the last one for the first.
    /// Nothing was done.
    CircularCommands { cycle: RuleNames },
    /// A rule takes this group, and no rule gives to it. Nothing was done.
    NoSuchGroup { group: GroupRef },
    /// No rule makes this file any more, and somebody changed it by hand. It is left, and no other
    /// file was changed.
    UserFile { path: Path },
    /// The file tree or the store failed.
    SiteFault,
    /// A runner failed.
    RunFault,
    /// The order was carried out, and its lines couldn't be written.
    SinkFault,
    /// The order was carried out, and a reporter failed.
    TellFault,
    /// There would be more of these than this number.
    Limit { what: What, number: u64 },
    /// There was no memory.
    Memory,
    /// The files differ from a clean build at this path, and at none before it.
    Differs { path: Path },
}

impl Status {
    /// The exit number of the program.
    pub fn exit(&self) -> u8
        ensures { result ≡ specs.exit_of self.now }
    {
        match self {
            Status::Done { .. } => 0,
            Status::Command { .. }
            | Status::IllegalRead { .. }
            | Status::IllegalWrite { .. }
            | Status::Unwritten { .. }
            | Status::TooManyReads { .. } => 1,
            Status::Usage { .. } => 2,
            Status::NotInit | Status::AlreadyInit => 3,
            Status::BadStore { .. } => 4,
            Status::Parse { .. }
            | Status::CircularDirs { .. }
            | Status::CircularCommands { .. }
            | Status::NoSuchGroup { .. } => 5,
            Status::UserFile { .. } => 6,
            Status::SiteFault => 7,
            Status::RunFault => 8,
            Status::SinkFault => 9,
            Status::TellFault => 10,
            Status::Limit { .. } => 11,
            Status::Memory => 12,
            Status::Differs { .. } => 13,
        }
    }
}

/// The status of an update that did what its log says and stopped so, or came to its end.
pub(crate) fn status_of(log: &Log, stopped: Option<Stop>) -> Status
    ensures { result ≡ specs.status_of log.now stopped }
{
    match stopped {
        None => Status::Done {
            read: capped(log.read.len()),
            ran: capped(log.ended.len()),
            removed: capped(log.removed.len()),
        },
        Some(stop) => status_of_stop(stop),
    }
}

/// The status of what an update would do.
pub(crate) fn status_of_listed(todo: &Todo) -> Status
    ensures { result ≡ specs.status_of_todo (Ok todo.now) }
{
    Status::Done {
        read: capped(todo.read.len()),
        ran: 0,
        removed: 0,
    }
}

/// The status of a comparison of the files with a clean build.
pub(crate) fn status_of_compared(compared: Result<Compared, Stop>) -> Status
    ensures { result ≡ specs.status_of_compared compared }
{
    match compared {
        Ok(Compared::Same) => Status::Done {
            read: 0,
            ran: 0,
            removed: 0,
        },
        Ok(Compared::Differs(path)) => Status::Differs { path },
        Err(stop) => status_of_stop(stop),
    }
}

/// The status of a project that began so.
pub(crate) fn status_of_begun(begun: Result<Begun, GraphFault>) -> Status
    ensures { result ≡ specs.status_of_begun begun }
{
    match begun {
        Ok(Begun::Made) => Status::Done {
            read: 0,
            ran: 0,
            removed: 0,
        },
        Ok(Begun::WasThere) => Status::AlreadyInit,
        Err(GraphFault::BadStore { offset }) => Status::BadStore { offset },
        Err(GraphFault::Site) => Status::SiteFault,
        // No beginning answers the first two.
        Err(GraphFault::NotThere | GraphFault::Full | GraphFault::Memory) => Status::Memory,
    }
}

/// Why an order is stopped.
pub(crate) fn status_of_stop(stop: Stop) -> Status
    ensures { result ≡ specs.status_of_stop stop }
{
    match stop {
        Stop::NoStore => Status::NotInit,
        Stop::BadStore(offset) => Status::BadStore { offset },
        Stop::Sources(fault) => status_of_sources(fault),
        Stop::UserFile { path, .. } => Status::UserFile { path },
        Stop::Bad(rule, verdict) => status_of_bad(rule, verdict),
        Stop::Run => Status::RunFault,
        Stop::Full => Status::Limit {
            what: What::StoreSize,
            number: What::StoreSize.most(),
        },
        Stop::Outside(failed) => status_of_outside(failed),
    }
}

/// Why the sources ask for no rules.
fn status_of_sources(fault: SourcesFault) -> Status
    ensures { result ≡ specs.status_of_sources fault }
{
    match fault {
        SourcesFault::TooManyFiles(count) => over(What::Files, count),
        SourcesFault::Parse(fault) => Status::Parse { fault },
        SourcesFault::CircularDirs(cycle) => Status::CircularDirs { cycle },
        SourcesFault::TooManyCommands(count) => over(What::Commands, count),
        SourcesFault::NoSuchGroup(group) => Status::NoSuchGroup { group },
        SourcesFault::TooManyLinks(count) => over(What::Links, count),
        SourcesFault::CircularCommands(cycle) => Status::CircularCommands { cycle },
    }
}

/// There are so many of these, too many: the limit is told, and not by how much it is passed.
fn over(what: What, count: u64) -> Status
    ensures { result ≡ Limit what (specs.told_limit what count) }
{
    Status::Limit {
        what,
        number: what.limit(count),
    }
}

/// An update stops at no Good verdict.
fn status_of_bad(rule: RuleName, verdict: Verdict) -> Status
    ensures { result ≡ specs.status_of_bad rule verdict }
{
    match verdict {
        Verdict::Good => Status::Memory,
        Verdict::Failed(status) => Status::Command { rule, status },
        Verdict::IllegalRead(text) => Status::IllegalRead { rule, text },
        Verdict::IllegalWrite(text) => Status::IllegalWrite { rule, text },
        Verdict::Unwritten(path) => Status::Unwritten { rule, path },
        Verdict::TooManyReads => Status::TooManyReads { rule },
    }
}

/// Why the outside stops an order.
fn status_of_outside(failed: SiteFailed) -> Status
    ensures { result ≡ specs.status_of_outside failed }
{
    match failed {
        SiteFailed::Fault => Status::SiteFault,
        SiteFailed::TooLarge(bytes) => over(What::FileSize, bytes),
        SiteFailed::Memory => Status::Memory,
    }
}

/// A count as it is told; one that is too large for a number of 32 bits is told as the last of
/// these.
fn capped(count: usize) -> u32
    ensures { result ≡ specs.capped count }
{
    count.min(u32::MAX as usize) as u32
}

impl fmt::Display for What {
    ghost output = { λ what. Some (what_text what) };

    fn fmt<W: fmt::Write>(&self, f: &mut fmt::Formatter<W>) -> fmt::Result {
        f.write_str(match self {
            What::Files => "Files",
            What::FileSize => "FileSize",
            What::Commands => "Commands",
            What::Links => "Links",
            What::StoreSize => "StoreSize",
        })
    }
}

impl fmt::Display for Status {
    ghost output = { λ status. Some (status_text status) };

    fn fmt<W: fmt::Write>(&self, f: &mut fmt::Formatter<W>) -> fmt::Result {
        match self {
            Status::Done { read, ran, removed } => write!(
                f,
                "done: {read} read, {ran} run, {removed} removed"
            ),
            Status::Command { rule, status } => write!(
                f,
                "fault: {}: {}: status {status}",
                rule.dir, rule.text
            ),
            Status::IllegalRead { rule, text } => write!(
                f,
                "fault: {}: {}: reads {text}",
                rule.dir, rule.text
            ),
            Status::IllegalWrite { rule, text } => write!(
                f,
                "fault: {}: {}: writes {text}",
                rule.dir, rule.text
            ),
            Status::Unwritten { rule, path } => write!(
                f,
                "fault: {}: {}: doesn't write {path}",
                rule.dir, rule.text
            ),
            Status::TooManyReads { rule } => write!(
                f,
                "fault: {}: {}: reads too often",
                rule.dir, rule.text
            ),
            Status::Usage { place } => write!(f, "fault: usage, word {place}"),
            Status::NotInit => f.write_str("fault: no tup project here"),
            Status::AlreadyInit => f.write_str("fault: already a tup project"),
            Status::BadStore { offset } => write!(
                f,
                "fault: the store is damaged at byte {offset}"
            ),
            Status::Parse { fault } => {
                write!(
                    f,
                    "fault: {}:{}: {}, read for {}",
                    fault.file, fault.line, fault.kind, fault.dir
                )
            }
            Status::CircularDirs { cycle } => write!(
                f,
                "fault: directories wait for each other: {}",
                Folders(cycle.as_slice())
            ),
            Status::CircularCommands { cycle } => write!(
                f,
                "fault: commands wait for each other: {}",
                Commands(cycle.as_slice())
            ),
            Status::NoSuchGroup { group } => write!(f, "fault: no rule gives to {}", Group(group)),
            Status::UserFile { path } => {
                write!(f, "fault: {path} was changed by hand and no rule makes it")
            }
            Status::SiteFault => f.write_str("fault: the file tree or the store failed"),
            Status::RunFault => f.write_str("fault: the runner failed"),
            Status::SinkFault => f.write_str("fault: the output failed"),
            Status::TellFault => f.write_str("fault: a reporter failed"),
            Status::Limit { what, number } => write!(f, "fault: limit {what}, {number}"),
            Status::Memory => f.write_str("fault: no memory"),
            Status::Differs { path } => write!(f, "differs: {path}"),
        }
    }
}
