//! The calls of `tup.rows`.
ghost use Rattle.std.specs.Prelude.{◌<◌, ◌≤◌, IfOk, length};

use crate::cost::Cost;
use crate::failing::Failing;
use crate::length::{lengthen, store_length};
use crate::many::write_many;
use crate::tellers::{Tellers, add_counts, add_lines, three, two_failing};
use std::alloc::{AllocError, Global};
use std::sync::Wait;
use std::thread::Threads;
use tup_graph::GraphFault;
use tup_ledger::{begin, open, owned_paths};
use tup_path::{Bytes, Items, Path, Paths};
use tup_progress::Started;
use tup_rows::{RowFault, Words, set};
use tup_rule::RuleName;
use tup_site::{MemSite, Site};
use tup_stored_graph::Graph;
use tup_tell::{KeepThenFail, MemSink, Sink};
use tup_top::{Ran, Status, Word, tup};

/// A project, and what runs its commands.
#[derive(Drop)]
struct Project {
    site: MemSite,
    runner: Failing,
    /// The rules that the last call of the program began.
    begun: Items<RuleName>,
    /// What the last call of the program cost.
    cost: Cost,
}

/// The project that the rows above have left; none while `tup` has it.
#[derive(Drop)]
pub(crate) struct Session<'a, W: Threads + Wait + Sync> {
    rt: &'a W,
    project: Option<Project>,
}

impl<'a, W: Threads + Wait + Sync> Session<'a, W> {
    /// From a folder without a project on.
    pub(crate) fn new(rt: &'a W, alloc: Global) -> Result<Session<'a, W>, RowFault> {
        Ok(Session::over(rt, alloc, folder(alloc, 0)?, 0))
    }

    /// Over a site, with a runner that fails at the run of this number, counted from 1.
    fn over(rt: &'a W, alloc: Global, site: MemSite, run_fails: u64) -> Session<'a, W> {
        Session {
            rt,
            project: Some(Project {
                site,
                runner: Failing::new(alloc, run_fails),
                begun: Items::new(alloc),
                cost: Cost::none(),
            }),
        }
    }

    /// Answers the call of a row.
    pub(crate) fn answer(&mut self, alloc: Global, call: &str, said: &Words) -> Words {
        match call {
            "folder" => self.begin(alloc, folder(alloc, 0), 0),
            "failing_folder" => self.begin(alloc, folder(alloc, said.number_at(0)), 0),
            "project" => self.begin(alloc, started(alloc, 0), 0),
            "failing" => self.begin(alloc, started(alloc, said.number_at(0)), 0),
            "failing_run" => self.begin(alloc, started(alloc, 0), said.number_at(0)),
            "tup" => self.call(alloc, said, 0),
            "tup_unheard" => self.call(alloc, said, 1),
            "tup_by" => self.call_by(alloc, said),
            "tup_told" => self.call_told(alloc, said, 1, three(alloc, said.number_at(0))),
            "tup_untold" => self.call_told(
                alloc,
                said,
                2,
                two_failing(alloc, said.number_at(0), said.number_at(1)),
            ),
            _ => match &mut self.project {
                Some(project) => answer_of_project(alloc, project, call, said),
                None => Words::none(alloc, RowFault::Memory),
            },
        }
    }

    /// Goes on with another site and another runner.
    fn begin(&mut self, alloc: Global, site: Result<MemSite, RowFault>, run_fails: u64) -> Words {
        match site {
            Ok(site) => {
                set(self, Session::over(self.rt, alloc, site, run_fails));
                Words::done(alloc)
            }
            Err(fault) => Words::none(alloc, fault),
        }
    }

    /// Calls the program, and gives its exit number and what it printed.
    fn call(&mut self, alloc: Global, said: &Words, sink_fails: u64) -> Words {
        match self.project.take() {
            Some(project) => self.call_on(alloc, said, project, sink_fails),
            None => Words::none(alloc, RowFault::Memory),
        }
    }

    fn call_on(&mut self, alloc: Global, said: &Words, project: Project, sink_fails: u64) -> Words {
        match vec![in alloc; sink_fails] {
            Ok(fails) => {
                let words = words_from(alloc, said, 0);
                let mut tellers = Vec::new(alloc);
                let mut out = MemSink::new(alloc, fails);
                self.run(alloc, &words, project, 1, &mut tellers, &mut out)
            }
            Err(_) => {
                drop(project);
                Words::none(alloc, RowFault::Memory)
            }
        }
    }

    /// Calls the program with a crew of so many, and gives its exit number and the lines that it printed, in the order of
    /// their bytes.
    fn call_by(&mut self, alloc: Global, said: &Words) -> Words {
        match self.project.take() {
            Some(project) => {
                let words = words_from(alloc, said, 1);
                let mut tellers = Vec::new(alloc);
                let mut out = MemSink::new(alloc, Vec::new(alloc));
                let many = said.number_at(0);
                let answer = self.run(alloc, &words, project, many, &mut tellers, &mut out);
                with_lines(alloc, &answer, &out)
            }
            None => Words::none(alloc, RowFault::Memory),
        }
    }

    /// Calls the program with reporters, the words from a place on, and gives its exit number and what it printed, what those
    /// that failed were told, and what those that stayed were.
    fn call_told(
        &mut self,
        alloc: Global,
        said: &Words,
        from: usize,
        tellers: Result<Tellers, AllocError>,
    ) -> Words {
        match (self.project.take(), tellers) {
            (Some(project), Ok(tellers)) => self.tell(alloc, said, from, project, tellers),
            _ => Words::none(alloc, RowFault::Memory),
        }
    }

    fn tell(
        &mut self,
        alloc: Global,
        said: &Words,
        from: usize,
        project: Project,
        mut tellers: Tellers,
    ) -> Words {
        let words = words_from(alloc, said, from);
        let mut out = MemSink::new(alloc, Vec::new(alloc));
        let mut answer = self.run(alloc, &words, project, 1, &mut tellers, &mut out);
        add_counts(alloc, tellers.as_slice(), &mut answer);
        add_lines(alloc, tellers.as_slice(), &mut answer);
        answer
    }

    /// Runs the program with a crew of so many, the first of which is the project's runner.
    fn run(
        &mut self,
        alloc: Global,
        words: &[Word],
        project: Project,
        many: u64,
        tellers: &mut Tellers,
        out: &mut MemSink,
    ) -> Words {
        let Project {
            site,
            runner,
            begun,
            ..
        } = project;
        drop(begun);
        let before = Cost::of(&site);
        match crew_of(alloc, runner, many) {
            Ok(crew) => {
                let ran = tup(
                    self.rt,
                    alloc,
                    words,
                    site,
                    crew,
                    &Started::new(),
                    tellers,
                    out,
                );
                self.keep(alloc, ran, before, out)
            }
            Err(_) => {
                drop(site);
                Words::none(alloc, RowFault::Memory)
            }
        }
    }

    /// Keeps the site and the runner as the program leaves them, and gives its exit number and what it printed.
    fn keep(
        &mut self,
        alloc: Global,
        ran: Ran<MemSite, Failing, KeepThenFail>,
        before: Cost,
        out: &MemSink,
    ) -> Words {
        let mut answer = answer_of(alloc, &ran.status, out);
        add_counts(alloc, ran.failed.as_slice(), &mut answer);
        self.keep_project(ran, before);
        answer
    }

    fn keep_project(&mut self, ran: Ran<MemSite, Failing, KeepThenFail>, before: Cost) {
        let Ran {
            status,
            site,
            mut crew,
            ran: begun,
            ..
        } = ran;
        drop(status);
        let cost = Cost::of(&site).beyond(before);
        match crew.pop() {
            Some(runner) => set(
                &mut self.project,
                Some(Project {
                    site,
                    runner,
                    begun,
                    cost,
                }),
            ),
            None => {
                drop(site);
                drop(begun);
            }
        }
    }
}

/// The exit number of a call of the program, and what it printed.
fn answer_of(alloc: Global, status: &Status, out: &MemSink) -> Words {
    let mut answer = Words::shown(alloc, &status.exit());
    answer.put(alloc, out.bytes().as_slice());
    answer
}

/// A folder without files and without a project, whose call of this number fails, counted from 1.
fn folder(alloc: Global, fails: u64) -> Result<MemSite, RowFault> {
    match MemSite::new(alloc, Vec::new(alloc), vec![in alloc; fails]?) {
        Ok(site) => Ok(site),
        Err(_) => Err(RowFault::Memory),
    }
}

/// A project without files, of which the call of this number fails behind its beginning.
fn started(alloc: Global, fails: u64) -> Result<MemSite, RowFault> {
    if fails == 0 {
        return begun_with(alloc, 0);
    }
    let calls = calls_to_begin(alloc)?;
    begun_with(alloc, calls.saturating_add(fails))
}

/// How many calls of a site the beginning of a project makes.
fn calls_to_begin(alloc: Global) -> Result<u64, RowFault> {
    match begun_with(alloc, 0) {
        Ok(site) => {
            let calls = site.calls();
            drop(site);
            Ok(calls)
        }
        Err(fault) => Err(fault),
    }
}

/// A folder in which a project begins, and whose call of this number fails.
pub(crate) fn begun_with(alloc: Global, fails: u64) -> Result<MemSite, RowFault> {
    match folder(alloc, fails) {
        Ok(site) => begun_over(alloc, site),
        Err(fault) => Err(fault),
    }
}

fn begun_over(alloc: Global, mut site: MemSite) -> Result<MemSite, RowFault> {
    if begin(alloc, &mut site).is_ok() {
        Ok(site)
    } else {
        drop(site);
        Err(RowFault::Memory)
    }
}

/// Answers a call on the project.
fn answer_of_project(alloc: Global, project: &mut Project, call: &str, said: &Words) -> Words {
    match call {
        "begun" => begun(alloc, project.begun.as_slice()),
        "cost" => project.cost.words(alloc),
        _ => answer_of_site(alloc, &mut project.site, call, said),
    }
}

/// The commands of rules.
fn begun(alloc: Global, rules: &[RuleName]) -> Words {
    let mut words = Words::new(alloc);
    for rule in rules {
        words.put(alloc, rule.text.as_str().as_bytes());
    }
    words
}

/// Answers a call on the files or the store of the project.
fn answer_of_site(alloc: Global, site: &mut MemSite, call: &str, said: &Words) -> Words {
    match call {
        "write" => edit(alloc, site, said, Some(Bytes::new(said.bytes_at(alloc, 1)))),
        "delete" => edit(alloc, site, said, None),
        "write_many" => write_many(alloc, site, said),
        "file" => file(alloc, site, said),
        "store" => listed(alloc, site),
        "store_bytes" => Words::word(alloc, site.store()),
        "write_store" => write_store(alloc, site, said.word_at(0)),
        "store_length" => store_length(alloc, site),
        "lengthen" => lengthen(alloc, site, said),
        _ => Words::none(alloc, RowFault::NoSuchCall),
    }
}

/// Sets a file, or takes it away.
fn edit(alloc: Global, site: &mut MemSite, said: &Words, content: Option<Bytes>) -> Words {
    match site.edit(alloc, said.path_at(alloc, 0), content) {
        Ok(()) => Words::done(alloc),
        Err(refused) => Words::refusal(alloc, &refused),
    }
}

/// What a file holds.
pub(crate) fn file(alloc: Global, site: &MemSite, said: &Words) -> Words {
    match site.file(&said.path_at(alloc, 0)) {
        Some(content) => holds(alloc, content),
        None => Words::word(alloc, b"none"),
    }
}

/// The words `holds` and a content.
fn holds(alloc: Global, content: &Bytes) -> Words {
    let mut words = Words::word(alloc, b"holds");
    words.put(alloc, content.as_slice());
    words
}

/// The paths that the store lists.
fn listed(alloc: Global, site: &MemSite) -> Words {
    match owned(alloc, site.store()) {
        Ok(paths) => Words::all(alloc, paths.as_slice()),
        Err(fault) => Words::refusal(alloc, &fault),
    }
}

/// The paths that a store of these bytes lists; none where there are no bytes.
fn owned(alloc: Global, bytes: &[u8]) -> Result<Paths, GraphFault> {
    match MemSite::new(alloc, Vec::new(alloc), Vec::new(alloc)) {
        Ok(mut site) => {
            let paths = owned_in(alloc, &mut site, bytes);
            drop(site);
            paths
        }
        Err(_) => Err(GraphFault::Memory),
    }
}

fn owned_in(alloc: Global, site: &mut MemSite, bytes: &[u8]) -> Result<Paths, GraphFault> {
    if site.db_write(alloc, 0, bytes).is_err() {
        return Err(GraphFault::Memory);
    }
    match open(alloc, site) {
        Ok(graph) => {
            let paths = owned_by(alloc, &graph);
            drop(graph);
            paths
        }
        Err(GraphFault::NotThere) => Ok(Paths::new(alloc)),
        Err(fault) => Err(fault),
    }
}

/// The paths that a graph owns.
fn owned_by(alloc: Global, graph: &Graph) -> Result<Paths, GraphFault> {
    Ok(owned_paths(alloc, graph.nodes())?)
}

/// Writes bytes over the store from its first on.
fn write_store(alloc: Global, site: &mut MemSite, bytes: &[u8]) -> Words {
    match site.db_write(alloc, 0, bytes) {
        Ok(()) => Words::done(alloc),
        Err(failed) => Words::refusal(alloc, &failed),
    }
}

/// The words of a command line, which stand in a row from a place on.
fn words_from(alloc: Global, said: &Words, from: usize) -> Vec<Word> {
    let mut words = Vec::new(alloc);
    for at in from..said.len() {
        if words.push(Word(said.text_at(alloc, at))).is_err() {
            said.fail(RowFault::Memory);
        }
    }
    words
}

/// A crew of so many, up to 16, of which this runner is the first; the others never fail.
pub(crate) fn crew_of(alloc: Global, runner: Failing, many: u64) -> Result<Vec<Failing>, AllocError>
    ensures { IfOk result (λ crew. (0 < length crew.items) × (length crew.items ≤ 16)) }
{
    let many = many.min(16) as usize;
    let mut crew = vec![in alloc; runner]?;
    while crew.len() < many {
        crew.push(Failing::new(alloc, 0))?;
    }
    Ok(crew)
}

/// The exit number of an answer, and the lines that were printed, in the order of their bytes.
fn with_lines(alloc: Global, answer: &Words, out: &MemSink) -> Words {
    let mut words = Words::word(alloc, answer.word_at(0));
    for line in &sorted_lines(alloc, answer, out.bytes().as_slice()) {
        words.put(alloc, line);
    }
    words
}

/// The lines of a text, in the order of their bytes.
fn sorted_lines<'a>(alloc: Global, said: &Words, text: &'a [u8]) -> Vec<&'a [u8]> {
    let mut lines = Vec::new(alloc);
    for line in text.split(|byte| *byte == b'\n') {
        if !line.is_empty() && lines.push(line).is_err() {
            said.fail(RowFault::Memory);
        }
    }
    lines.sort_unstable();
    lines
}
