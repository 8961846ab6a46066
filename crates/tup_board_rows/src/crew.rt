//! Boards that crews drain, beside the same ones that one runner drains.
//!
//! Only `main` has what makes threads, so these are no rows.
ghost use Rattle.std.specs.Prelude.{◌≡◌, ◌<◌, ◌≤◌, [], length, IfOk};
ghost use Rattle.tup_board.specs.Board.{plan_of};

use crate::clean::files_in;
use crate::opening::board_over;
use crate::script::add_state;
use crate::shown::drained_words;
use crate::store::site_of;
use std::alloc::Global;
use std::sync::Wait;
use std::thread::Threads;
use tup_board::{Board, BoardParts, Drained};
use tup_core::Plan;
use tup_given::Project;
use tup_mini::Mini;
use tup_parallel::{Drainings, drain_by};
use tup_path::Files;
use tup_rows::{RowFault, Words};
use tup_site::MemSite;

/// How many boards crews drained, and how many of them came to something else than where one runner drained them.
#[derive(Clone, Copy)]
pub(crate) struct Tried {
    pub(crate) boards: u32,
    pub(crate) differ: u32,
}

/// What an update came to with its state, and its files.
#[derive(Drop)]
struct Left {
    words: Words,
    files: Files,
}

/// A project whose board crews drain, and what one runner leaves of it.
#[derive(Drop)]
struct Case {
    project: Project,
    keep_going: bool,
    alone: Left,
}

/// Has crews of several sizes drain the boards of a project whose rules are all Good, and of one with bad rules among them.
pub(crate) fn try_crews<W: Threads + Wait + Sync>(
    rt: &W,
    alloc: Global,
) -> Result<Tried, RowFault> {
    let mut tried = Tried {
        boards: 0,
        differ: 0,
    };
    match try_both(rt, alloc, &mut tried) {
        Ok(()) => Ok(tried),
        Err(fault) => Err(fault),
    }
}

fn try_both<W: Threads + Wait + Sync>(
    rt: &W,
    alloc: Global,
    tried: &mut Tried,
) -> Result<(), RowFault> {
    try_project(rt, alloc, compiled(alloc), false, tried)?;
    try_project(rt, alloc, mixed(alloc), true, tried)
}

/// One runner drains the board of a project, and then crews do.
fn try_project<W: Threads + Wait + Sync>(
    rt: &W,
    alloc: Global,
    project: Project,
    keep_going: bool,
    tried: &mut Tried,
) -> Result<(), RowFault> {
    match left_by_one(alloc, &project, keep_going) {
        Ok(alone) => {
            let case = Case {
                project,
                keep_going,
                alone,
            };
            try_case(rt, alloc, case, tried)
        }
        Err(fault) => {
            drop(project);
            Err(fault)
        }
    }
}

fn try_case<W: Threads + Wait + Sync>(
    rt: &W,
    alloc: Global,
    case: Case,
    tried: &mut Tried,
) -> Result<(), RowFault> {
    let done = try_sizes(rt, alloc, &case, tried);
    drop(case);
    done
}

/// Crews of these sizes drain the board of a project.
fn try_sizes<W: Threads + Wait + Sync>(
    rt: &W,
    alloc: Global,
    case: &Case,
    tried: &mut Tried,
) -> Result<(), RowFault> {
    try_size(rt, alloc, case, 1, tried)?;
    try_size(rt, alloc, case, 2, tried)?;
    try_size(rt, alloc, case, 4, tried)?;
    try_size(rt, alloc, case, 16, tried)
}

/// A crew of this size drains the board of a project.
fn try_size<W: Threads + Wait + Sync>(
    rt: &W,
    alloc: Global,
    case: &Case,
    count: u32,
    tried: &mut Tried,
) -> Result<(), RowFault>
    requires { (0 < count) × (count ≤ 16) }
{
    match left_by(rt, alloc, &case.project, case.keep_going, count) {
        Ok(other) => {
            note_board(tried, are_alike(&case.alone, &other));
            drop(other);
            Ok(())
        }
        Err(fault) => Err(fault),
    }
}

/// Counts a board that a crew drained.
fn note_board(tried: &mut Tried, is_alike: bool) {
    tried.boards = tried.boards.saturating_add(1);
    if !is_alike {
        tried.differ = tried.differ.saturating_add(1);
    }
}

fn are_alike(one: &Left, other: &Left) -> bool {
    one.words.as_slice() == other.words.as_slice() && one.files == other.files
}

/// What an update by one runner leaves.
fn left_by_one(alloc: Global, project: &Project, keep_going: bool) -> Result<Left, RowFault> {
    match opened(alloc, project) {
        Ok(site) => left_over(alloc, site, keep_going),
        Err(fault) => Err(fault),
    }
}

/// The same over a site.
fn left_over(alloc: Global, site: MemSite, keep_going: bool) -> Result<Left, RowFault> {
    match board_over(alloc, site, keep_going) {
        Ok((board, plan)) => drained(alloc, board, plan),
        Err(fault) => Err(fault),
    }
}

fn drained(alloc: Global, mut board: Board<MemSite, Mini>, plan: Plan) -> Result<Left, RowFault>
    requires plan { plan ≡ plan_of board }
    requires none { board.history ≡ [] }
{
    let drained = board.drain(alloc, &plan, &mut Mini::new(alloc));
    drop(plan);
    outcome(alloc, drained, board.into_parts())
}

/// What an update by so many runners leaves.
fn left_by<W: Threads + Wait + Sync>(
    rt: &W,
    alloc: Global,
    project: &Project,
    keep_going: bool,
    count: u32,
) -> Result<Left, RowFault>
    requires { (0 < count) × (count ≤ 16) }
{
    match opened(alloc, project) {
        Ok(site) => left_over_by(rt, alloc, site, keep_going, count),
        Err(fault) => Err(fault),
    }
}

/// The same over a site.
fn left_over_by<W: Threads + Wait + Sync>(
    rt: &W,
    alloc: Global,
    site: MemSite,
    keep_going: bool,
    count: u32,
) -> Result<Left, RowFault>
    requires { (0 < count) × (count ≤ 16) }
{
    match board_over(alloc, site, keep_going) {
        Ok((board, plan)) => crewed(rt, alloc, board, plan, count),
        Err(fault) => Err(fault),
    }
}

/// The same at a board at which nothing happened yet.
fn crewed<W: Threads + Wait + Sync>(
    rt: &W,
    alloc: Global,
    board: Board<MemSite, Mini>,
    plan: Plan,
    count: u32,
) -> Result<Left, RowFault>
    requires plan { plan ≡ plan_of board }
    requires none { board.history ≡ [] }
    requires count { (0 < count) × (count ≤ 16) }
{
    let found = drained_by(rt, alloc, board, &plan, count);
    drop(plan);
    found
}

fn drained_by<W: Threads + Wait + Sync>(
    rt: &W,
    alloc: Global,
    board: Board<MemSite, Mini>,
    plan: &Plan,
    count: u32,
) -> Result<Left, RowFault>
    requires plan { plan.now ≡ plan_of board }
    requires none { board.history ≡ [] }
    requires count { (0 < count) × (count ≤ 16) }
{
    match runners(alloc, count) {
        Ok(crew) => left_of(alloc, drain_by(rt, alloc, board, plan, crew)),
        Err(fault) => {
            drop(board);
            Err(fault)
        }
    }
}

fn left_of(alloc: Global, drainings: Drainings<MemSite, Mini>) -> Result<Left, RowFault> {
    let Drainings {
        board,
        crew,
        drained,
    } = drainings;
    drop(crew);
    outcome(alloc, drained, board.into_parts())
}

/// So many runners.
fn runners(alloc: Global, count: u32) -> Result<Vec<Mini>, RowFault>
    ensures { IfOk result (λ crew. length crew.items ≡ count) }
{
    let mut crew = Vec::new(alloc);
    for _ in 0..count {
        let Ok(()) = crew.push(Mini::new(alloc)) else {
            return Err(RowFault::Memory);
        };
    }
    Ok(crew)
}

/// What an update came to, and what it left.
fn outcome(
    alloc: Global,
    drained: Drained,
    mut parts: BoardParts<MemSite>,
) -> Result<Left, RowFault> {
    let found = left_in(alloc, drained, &mut parts);
    drop(parts);
    found
}

fn left_in(
    alloc: Global,
    drained: Drained,
    parts: &mut BoardParts<MemSite>,
) -> Result<Left, RowFault> {
    match files_in(alloc, &mut parts.site) {
        Ok(files) => Ok(Left {
            words: state_words(alloc, drained, parts),
            files,
        }),
        Err(fault) => Err(fault),
    }
}

/// What an update came to, and the state that it left.
fn state_words(alloc: Global, drained: Drained, parts: &BoardParts<MemSite>) -> Words {
    let mut words = drained_words(alloc, drained);
    add_state(alloc, &mut words, parts);
    words
}

/// The site of a project of four rules at the opening of an update that runs them all.
fn opened(alloc: Global, project: &Project) -> Result<MemSite, RowFault> {
    match site_of(alloc, project, &[0, 1, 2, 3]) {
        Ok(site) => Ok(site.into_site()),
        Err(fault) => Err(fault),
    }
}

/// Three files are compiled, two of them with a header, and joined.
fn compiled(alloc: Global) -> Project {
    let mut project = Project::new(alloc);
    source(alloc, &mut project, "inc/a.h", "#define A\n");
    source(
        alloc,
        &mut project,
        "lib/a.c",
        "#include \"../inc/a.h\"\nint a;\n",
    );
    source(
        alloc,
        &mut project,
        "src/m.c",
        "#include \"../inc/a.h\"\nint m;\n",
    );
    source(alloc, &mut project, "src/n.c", "int n;\n");
    let objects = "lib/a.o src/m.o src/n.o";
    rule(
        alloc,
        &mut project,
        ".",
        "cat lib/a.o src/m.o src/n.o > app",
        objects,
        "app",
    );
    rule(
        alloc,
        &mut project,
        "lib",
        "incl a.c a.o",
        "lib/a.c",
        "lib/a.o",
    );
    rule(
        alloc,
        &mut project,
        "src",
        "incl m.c m.o",
        "src/m.c",
        "src/m.o",
    );
    rule(
        alloc,
        &mut project,
        "src",
        "incl n.c n.o",
        "src/n.c",
        "src/n.o",
    );
    project
}

/// A good rule, one that reads its output unasked, one that fails, and one that writes what it may not.
fn mixed(alloc: Global) -> Project {
    let mut project = Project::new(alloc);
    source(alloc, &mut project, "a", "x");
    rule(alloc, &mut project, ".", "cp a g", "a", "g");
    rule(alloc, &mut project, ".", "cat a g > h", "a", "h");
    rule(alloc, &mut project, ".", "fail 3", "", "c");
    rule(alloc, &mut project, ".", "cp a b && cp a d", "a", "b");
    project
}

fn source(alloc: Global, project: &mut Project, path: &str, content: &str) {
    let _ = project.add_source(alloc, &said(alloc, &[path, content]));
}

fn rule(
    alloc: Global,
    project: &mut Project,
    folder: &str,
    text: &str,
    inputs: &str,
    outputs: &str,
) {
    let _ = project.add_rule(alloc, &said(alloc, &[folder, text, inputs, "", outputs]));
}

/// These words, as a row has them.
fn said(alloc: Global, words: &[&str]) -> Words {
    let mut said = Words::new(alloc);
    for word in words {
        said.put(alloc, word.as_bytes());
    }
    said
}
