//! The calls of `kept.rows`: transactions over a site in memory.
ghost use Rattle.std.specs.Prelude.{◌≡◌, ◌↔◌, true, None, All, IsTrue};
ghost use Rattle.std.specs.FinMap as finite;
ghost use Rattle.tup_graph.specs.Graph.{is_rule as is_rule_of};
ghost use Rattle.tup_ledger.specs.Sources.{HaveNoFiles};
ghost use Rattle.tup_site.specs.Memory.{tree_in};
ghost use Rattle.tup_store_rows.specs.Kept.{Stands};

use crate::arguments::{number, numbers, paths, run};
use crate::bytes::joined;
use crate::graph::store;
use crate::say::Say;
use crate::scan::{config, seen};
use crate::shown::shown;
use crate::site::{files_of, site_with};
use crate::swap::{are_by_folder, is_one, news};
use std::alloc::{AllocError, Global};
use std::fmt::Display;
use std::marker::Brand;
use std::sync::ledger::Blank;
use tup_commit::uncounted::{note_scan, swap_rules};
use tup_graph::GraphFault;
use tup_ledger::{Begun, begin as begin_project, give_up, open, own, owned_paths};
use tup_path::{Path, Paths};
use tup_refresh::{is_idle, refresh};
use tup_rows::{Answers, RowFault, Words, set};
use tup_rule::Question;
use tup_scan::Seen;
use tup_site::MemSite;
use tup_stored_graph::Graph;

/// How many calls a site has answered when a graph of it makes a transaction: the store is written
/// and synced, and then synced, measured and read.
const BEFORE_A_TRANSACTION: u64 = 5;

/// How many calls a site has answered before its store is read: it is written and synced.
const BEFORE_A_STORE_IS_READ: u64 = 2;

/// Transactions on graphs over sites in memory, whose store and failures are set by rows.
#[derive(Drop)]
pub struct KeptGraphs {
    store: Vec<u8>,
    fails: Vec<u64>,
}

impl Answers for KeptGraphs {
    fn answer(&mut self, alloc: Global, call: &str, said: &Words) -> Result<Words, RowFault> {
        Ok(match call {
            "graph" => self.set_store(alloc, said),
            "failing" => self.set_fails(alloc, said),
            "init" => self.init(alloc, said),
            "open" => self.open(alloc, said),
            "readers" | "idle" => self.asked(alloc, call, said),
            "content" | "config" | "names" | "kind" => self.asked(alloc, call, said),
            "refresh" => self.refresh(alloc, said),
            _ => self.transaction(alloc, call, said),
        })
    }
}

impl KeptGraphs {
    /// No store, and no call fails.
    pub fn new(alloc: Global) -> KeptGraphs {
        KeptGraphs {
            store: Vec::new(alloc),
            fails: Vec::new(alloc),
        }
    }

    /// The store of the rows below: one commit, which puts keys and values.
    fn set_store(&mut self, alloc: Global, said: &Words) -> Words {
        self.store = store(alloc, said, said.as_slice());
        Words::shown(alloc, &self.store.len())
    }

    /// The calls that fail in the rows below.
    fn set_fails(&mut self, alloc: Global, said: &Words) -> Words {
        let mut fails = Vec::new(alloc);
        for at in 0..said.len() {
            if fails.push(said.number_at(at)).is_err() {
                said.fail(RowFault::Memory);
            }
        }
        set(&mut self.fails, fails);
        Words::done(alloc)
    }

    /// Begins a project over these bytes of a store.
    fn init(&self, alloc: Global, said: &Words) -> Words {
        match self.site(alloc, said) {
            Ok(mut site) => {
                let words = begun_in(alloc, &mut site);
                drop(site);
                words
            }
            Err(fault) => Words::none(alloc, fault),
        }
    }

    /// Opens the store of a project, which has these bytes.
    fn open(&self, alloc: Global, said: &Words) -> Words {
        match self.site(alloc, said) {
            Ok(mut site) => {
                let words = opened_in(alloc, &mut site);
                drop(site);
                words
            }
            Err(fault) => Words::none(alloc, fault),
        }
    }

    /// A site whose store has these bytes.
    fn site(&self, alloc: Global, said: &Words) -> Result<MemSite, RowFault> {
        let fails = behind(alloc, said, &self.fails, BEFORE_A_STORE_IS_READ);
        let store = joined(alloc, said, said.as_slice());
        site_with(alloc, Vec::new(alloc), &store, fails)
    }

    /// Opens the store, and asks its graph who asked what.
    fn asked(&self, alloc: Global, call: &str, said: &Words) -> Words {
        match site_with(alloc, Vec::new(alloc), &self.store, Vec::new(alloc)) {
            Ok(mut site) => {
                let words = asked_in(alloc, call, said, &mut site);
                drop(site);
                words
            }
            Err(fault) => Words::none(alloc, fault),
        }
    }

    /// Opens the store beside files, and refreshes its readings.
    fn refresh(&self, alloc: Global, said: &Words) -> Words {
        let fails = behind(alloc, said, &self.fails, BEFORE_A_TRANSACTION);
        match site_with(alloc, files_of(alloc, said), &self.store, fails) {
            Ok(mut site) => {
                let words = refreshed_in(alloc, said, &mut site);
                drop(site);
                words
            }
            Err(fault) => Words::none(alloc, fault),
        }
    }

    /// Opens the store, and makes a transaction.
    fn transaction(&self, alloc: Global, call: &str, said: &Words) -> Words {
        let fails = behind(alloc, said, &self.fails, BEFORE_A_TRANSACTION);
        match site_with(alloc, Vec::new(alloc), &self.store, fails) {
            Ok(mut site) => {
                let words = transaction_in(alloc, call, said, &mut site);
                drop(site);
                words
            }
            Err(fault) => Words::none(alloc, fault),
        }
    }
}

/// The numbers, each so much later.
fn behind(alloc: Global, said: &Words, numbers: &[u64], calls: u64) -> Vec<u64> {
    let mut later = Vec::new(alloc);
    for number in numbers {
        if later.push(number.saturating_add(calls)).is_err() {
            said.fail(RowFault::Memory);
        }
    }
    later
}

/// How a project begins after how many calls of the site, and the store then.
fn begun_in(alloc: Global, site: &mut MemSite) -> Words {
    let begun = begin_project(alloc, site);
    let calls = site.calls().saturating_sub(BEFORE_A_STORE_IS_READ);
    let mut words = Words::shown(alloc, &calls);
    add_beginning(alloc, &mut words, begun);
    words.put(alloc, site.store());
    words
}

/// Adds how a project began.
fn add_beginning(alloc: Global, words: &mut Words, begun: Result<Begun, GraphFault>) {
    match begun {
        Ok(Begun::Made) => words.put(alloc, b"made"),
        Ok(Begun::WasThere) => words.put(alloc, b"was there"),
        Err(fault) => add_end(alloc, words, Err(fault)),
    }
}

/// How the opening of a store ends after how many calls of the site, what it lists, and its bytes then.
fn opened_in(alloc: Global, site: &mut MemSite) -> Words {
    let opened = open(alloc, site);
    let calls = site.calls().saturating_sub(BEFORE_A_STORE_IS_READ);
    let mut words = Words::shown(alloc, &calls);
    add_opening(alloc, &mut words, opened);
    words.put(alloc, site.store());
    words
}

/// Adds what a store lists that was opened, or why it wasn't.
fn add_opening(alloc: Global, words: &mut Words, opened: Result<Graph, GraphFault>) {
    match opened {
        Ok(graph) => {
            add_paths(alloc, words, &owned_paths(alloc, graph.nodes()));
            drop(graph);
        }
        Err(fault) => add_end(alloc, words, Err(fault)),
    }
}

/// Adds how many paths there are, and each of them.
fn add_paths(alloc: Global, words: &mut Words, paths: &Result<Paths, AllocError>) {
    match paths {
        Ok(paths) => paths.say(alloc, words),
        Err(_) => words.fail(RowFault::Memory),
    }
}

fn refreshed_in(alloc: Global, said: &Words, site: &mut MemSite) -> Words {
    match Graph::open(alloc, site) {
        Ok(graph) => {
            let words = refreshed(alloc, said, &graph, site);
            drop(graph);
            words
        }
        Err(fault) => refused(alloc, fault),
    }
}

/// What a refresh of the readings of a graph gives.
fn refreshed(alloc: Global, said: &Words, graph: &Graph, site: &mut MemSite) -> Words {
    let config = config(alloc, said, said.len() / 2);
    let found = refresh(alloc, graph.nodes(), site, &config);
    let words = shown(alloc, &found);
    drop(found);
    words
}

fn asked_in(alloc: Global, call: &str, said: &Words, site: &mut MemSite) -> Words {
    match Graph::open(alloc, site) {
        Ok(graph) => {
            let words = askers(alloc, call, said, &graph);
            drop(graph);
            words
        }
        Err(fault) => refused(alloc, fault),
    }
}

/// The folders whose readings asked a question, or the rules whose records ask a path; or whether a refresh plainly brings nothing.
fn askers(alloc: Global, call: &str, said: &Words, graph: &Graph) -> Words {
    if call == "idle" {
        return Words::yes_or_no(alloc, is_idle(alloc, graph.nodes(), &None));
    }
    match question(alloc, call, said) {
        Some(question) => listed(alloc, graph.asked_by(alloc, &question)),
        None => listed(alloc, graph.readers_of(alloc, &said.path_at(alloc, 0))),
    }
}

/// The question of this kind about what the first word names.
fn question(alloc: Global, kind: &str, said: &Words) -> Option<Question> {
    match kind {
        "content" => Some(Question::Content(said.path_at(alloc, 0))),
        "config" => Some(Question::Config(said.text_at(alloc, 0))),
        "names" => Some(Question::Names(said.path_at(alloc, 0))),
        "kind" => Some(Question::Kind(said.path_at(alloc, 0))),
        _ => None,
    }
}

/// How many are in a list, and each of them in its order.
fn listed<T: Display + Drop>(alloc: Global, list: Result<Vec<T>, GraphFault>) -> Words {
    let Ok(list) = list else {
        return Words::none(alloc, RowFault::Memory);
    };
    let mut words = Words::shown(alloc, &list.len());
    words.show_all(alloc, &list);
    words
}

/// How a transaction ends after how many calls of the site, and the graph then.
fn transaction_in(alloc: Global, call: &str, said: &Words, site: &mut MemSite) -> Words {
    match Graph::open(alloc, site) {
        Ok(mut graph) => {
            let words = made(alloc, call, said, &mut graph, site);
            drop(graph);
            words
        }
        Err(fault) => unopened(alloc, said, fault),
    }
}

/// The same of the graph that was opened.
fn made(alloc: Global, call: &str, said: &Words, graph: &mut Graph, site: &mut MemSite) -> Words
    requires { Stands graph.old site.old }
{
    let ended = make_on(alloc, call, said, graph, site);
    let calls = site.calls().saturating_sub(BEFORE_A_TRANSACTION);
    let mut words = Words::shown(alloc, &calls);
    add_end(alloc, &mut words, ended);
    with_graph(alloc, words, graph, site)
}

/// The words of a store that doesn't open, whatever the arguments of a transaction are.
fn unopened(alloc: Global, said: &Words, fault: GraphFault) -> Words {
    said.as_slice();
    refused(alloc, fault)
}

/// Makes a transaction.
fn make_on(
    alloc: Global,
    call: &str,
    said: &Words,
    graph: &mut Graph,
    site: &mut MemSite,
) -> Result<(), GraphFault>
    requires { Stands graph.old site.old }
{
    match call {
        "begin" => begin(alloc, said, graph, site),
        "finish" => finish(alloc, said, graph, site),
        "doom" => graph.doom(alloc, site, &paths(alloc, said, said.len())),
        "forget" => graph.forget(alloc, site, &paths(alloc, said, said.len())),
        "flag" => flag(alloc, said, graph, site),
        "scan" => note(alloc, graph, site, &seen(alloc, said, said.len() / 2)),
        "swap" => swap(alloc, said, graph, site),
        "own" => own(alloc, graph, site, &paths(alloc, said, said.len())),
        "give_up" => give_up_paths(alloc, said, graph, site),
        _ => unmade(said, RowFault::NoSuchCall),
    }
}

/// Takes note of a scan.
fn note(alloc: Global, graph: &mut Graph, site: &mut MemSite, seen: &Seen) -> Result<(), GraphFault>
    requires { Stands graph.old site.old }
{
    note_scan::<MemSite, Brand>(alloc, graph, site, seen, Blank::new(1))
}

/// Begins the run of a rule.
fn begin(
    alloc: Global,
    said: &Words,
    graph: &mut Graph,
    site: &mut MemSite,
) -> Result<(), GraphFault>
    requires { Stands graph.old site.old }
{
    let rule = number(said);
    if !is_rule(said, graph, rule) {
        return Ok(());
    }
    graph.begin(alloc, site, rule)
}

/// Ends the run of a rule well.
fn finish(
    alloc: Global,
    said: &Words,
    graph: &mut Graph,
    site: &mut MemSite,
) -> Result<(), GraphFault>
    requires { Stands graph.old site.old }
{
    let rule = number(said);
    if !is_rule(said, graph, rule) {
        return Ok(());
    }
    match run(alloc, said, said.as_slice()) {
        Ok(run) => graph.finish(alloc, site, rule, run),
        Err(fault) => unmade(said, fault),
    }
}

/// Flags rules.
fn flag(
    alloc: Global,
    said: &Words,
    graph: &mut Graph,
    site: &mut MemSite,
) -> Result<(), GraphFault>
    requires { Stands graph.old site.old }
{
    let rules = numbers(alloc, said, said.len());
    if !are_rules(said, graph, &rules) {
        return Ok(());
    }
    graph.flag(alloc, site, &rules)
}

/// Swaps its rules: to one new reading at most, and to rules in the order of their folders.
fn swap(
    alloc: Global,
    said: &Words,
    graph: &mut Graph,
    site: &mut MemSite,
) -> Result<(), GraphFault>
    requires { Stands graph.old site.old }
{
    let (fresh, rules) = news(alloc, said, said.as_slice());
    if !is_one(&fresh) || !are_by_folder(rules.as_slice()) {
        return unmade(said, RowFault::OtherKind);
    }
    let swapped = swap_rules::<MemSite, Brand>(
        alloc,
        graph,
        site,
        &fresh,
        rules.as_slice(),
        Blank::new(1),
    );
    drop(fresh);
    drop(rules);
    swapped
}

/// Gives up paths at which no file stands.
fn give_up_paths(
    alloc: Global,
    said: &Words,
    graph: &mut Graph,
    site: &mut MemSite,
) -> Result<(), GraphFault>
    requires { Stands graph.old site.old }
{
    let paths = paths(alloc, said, said.len());
    if have_no_files(site, &paths) {
        give_up(alloc, graph, site, &paths)
    } else {
        unmade(said, RowFault::OtherKind)
    }
}

/// Whether no file stands at some paths.
fn have_no_files(site: &MemSite, paths: &[Path]) -> bool
    ensures { IsTrue result ↔ HaveNoFiles (tree_in site.now) paths.now }
{
    paths.iter().all(|path| has_no_file(site, path))
}

/// Whether no file stands at a path.
fn has_no_file(site: &MemSite, path: &Path) -> bool
    ensures { IsTrue result ↔ (finite.get (tree_in site.now) path.now ≡ None) }
{
    site.file(path).is_none()
}

/// Notes why a transaction isn't made.
fn unmade(said: &Words, fault: RowFault) -> Result<(), GraphFault> {
    said.fail(fault);
    Ok(())
}

/// Whether a number is that of a rule; where it isn't the row differs.
fn is_rule(said: &Words, graph: &Graph, rule: u32) -> bool
    ensures { result ≡ is_rule_of graph.now.nodes rule }
{
    let is = (rule as usize) < graph.nodes().rules().len();
    if !is {
        said.fail(RowFault::OtherKind);
    }
    is
}

/// Whether all numbers are those of rules; where one isn't the row differs.
fn are_rules(said: &Words, graph: &Graph, rules: &[u32]) -> bool
    ensures { IsTrue result ↔ All (λ rule. is_rule_of graph.now.nodes rule ≡ true) rules.now }
{
    rules.iter().all(|rule| is_rule(said, graph, *rule))
}

/// Adds how a transaction ended.
fn add_end(alloc: Global, words: &mut Words, ended: Result<(), GraphFault>) {
    match ended {
        Ok(()) => words.put(alloc, b"done"),
        Err(GraphFault::Memory) => words.fail(RowFault::Memory),
        Err(fault) => words.show(alloc, &fault),
    }
}

/// The words, whether a graph stands for the store of its site, and the graph that another opening
/// reads there.
fn with_graph(alloc: Global, words: Words, graph: &Graph, site: &mut MemSite) -> Words {
    match Graph::open(alloc, site) {
        Ok(again) => {
            let words = with_again(alloc, words, graph, &again);
            drop(again);
            words
        }
        Err(fault) => refused(alloc, fault),
    }
}

/// The words, whether a graph stands for its store, and the graph that was read there again.
fn with_again(alloc: Global, mut words: Words, graph: &Graph, again: &Graph) -> Words {
    words.put(alloc, standing(alloc, graph, again).as_bytes());
    again.nodes().say(alloc, &mut words);
    words
}

/// Whether a graph is fresh, and has then what was read again.
fn standing(alloc: Global, graph: &Graph, again: &Graph) -> &'static str {
    if !graph.fresh() {
        "stale"
    } else if said_of(alloc, graph).as_slice() == said_of(alloc, again).as_slice() {
        "fresh"
    } else {
        "other"
    }
}

/// The words of a graph.
fn said_of(alloc: Global, graph: &Graph) -> Words {
    let mut words = Words::new(alloc);
    graph.nodes().say(alloc, &mut words);
    words
}

/// The words of a refusal; want of memory is no answer.
fn refused(alloc: Global, fault: GraphFault) -> Words {
    match fault {
        GraphFault::Memory => Words::none(alloc, RowFault::Memory),
        fault => Words::refusal(alloc, &fault),
    }
}
