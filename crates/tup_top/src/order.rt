//! The words of the command line.
ghost use Rattle.std.specs.Prelude.{◌≡◌, ◌+◌, ◌≤◌};
ghost use Rattle.tup_top.specs.Order as specs;
ghost use Rattle.tup_top.specs.Order.{Answers, order};

use crate::options::{Jobs, Options, Program};
use std::alloc::AllocError;
use thiserror::Error;
use tup_path::Text;

/// A word of the command line.
#[derive(Drop)]
pub struct Word(pub Text);

/// What the words ask for.
#[derive(Drop)]
pub enum Order {
    /// Begin a project: make its store.
    Init,
    /// Update the files; commands are run by the runner that comes with the program, or through
    /// this program.
    Upd {
        program: Option<Text>,
        /// Whether it goes on after a bad command.
        keep_going: bool,
        /// Whether nothing is shown while it runs.
        quiet: bool,
        /// Whether each command is shown while it runs.
        verbose: bool,
        /// Whether it says why each rule was run.
        explain: bool,
        /// How many commands it runs at a time, if that is said.
        jobs: Option<u32>,
        /// Whether it logs what it did.
        log: bool,
    },
    /// List what an update would remove and run, and do neither.
    Todo,
    /// Compare the files with a clean build of the sources, and change nothing.
    Verify,
    /// Show an update of a small project in memory.
    Demo,
}

/// Why the words ask for nothing.
#[derive(Clone, Copy, Debug, PartialEq, Eq, Error)]
pub enum OrderFault {
    /// The first word that can't stand where it stands, counted from 1; a word that is missing has
    /// the place behind the last.
    #[error("word {place} can't stand there")]
    Usage { place: u32 },
    /// There was no memory.
    #[error("no memory")]
    Memory,
}

impl From<AllocError> for OrderFault {
    ghost use Rattle.std.specs.Prelude.{◌≡◌};
    ghost use Rattle.tup_top.specs.declared.order.OrderFault.TheVariants.{Memory};

    ghost from_gives = { λ _ fault. fault ≡ Memory };

    fn from(_: AllocError) -> OrderFault {
        OrderFault::Memory
    }
}

/// What the words ask for. No words mean an update, and so do options without an order.
pub fn order_of(words: &[Word]) -> Result<Order, OrderFault>
    ensures { Answers (order words.now) result }
{
    let Some((first, rest)) = words.split_first() else {
        return ended(1, Options::none());
    };
    if is_option(first) {
        return options(words, 1, Options::none());
    }
    match first.0.as_str() {
        "upd" => options(rest, 2, Options::none()),
        "init" => alone(Order::Init, rest, 2),
        "todo" => alone(Order::Todo, rest, 2),
        "verify" => alone(Order::Verify, rest, 2),
        "demo" => alone(Order::Demo, rest, 2),
        _ => Err(OrderFault::Usage { place: 1 }),
    }
}

/// Whether a word is an option.
fn is_option(word: &Word) -> bool
    ensures { result ≡ specs.is_option word.now }
{
    matches!(word.0.as_str().as_bytes(), [b'-', ..])
}

/// An order that takes no further words; the first of them would stand at this place.
fn alone(order: Order, rest: &[Word], place: u32) -> Result<Order, OrderFault>
    ensures { Answers (specs.alone place order rest.now) result }
{
    if rest.is_empty() {
        Ok(order)
    } else {
        Err(OrderFault::Usage { place })
    }
}

/// An update by these options and those of further words, the first of which stands at this place.
fn options(words: &[Word], place: u32, given: Options) -> Result<Order, OrderFault>
    requires { place ≤ 2 + specs.count given }
    ensures { Answers (specs.options place given words.now) result }
{
    let Some((word, rest)) = words.split_first() else {
        return ended(place, given);
    };
    match given.with(word)? {
        Some(more) => options(rest, place + 1, more),
        None => Err(OrderFault::Usage { place }),
    }
}

/// An update by these options, where the words end at this place.
fn ended(place: u32, given: Options) -> Result<Order, OrderFault>
    ensures { Answers (specs.ended place given) result }
{
    let Options {
        program,
        keep_going,
        quiet,
        verbose,
        explain,
        jobs,
        log,
    } = given;
    let program = match program {
        Program::NotNamed => None,
        Program::Awaited => return Err(OrderFault::Usage { place }),
        Program::Named(program) => Some(program),
    };
    let jobs = match jobs {
        Jobs::NotSaid => None,
        Jobs::Awaited => return Err(OrderFault::Usage { place }),
        Jobs::Said(number) => Some(number),
    };
    Ok(Order::Upd {
        program,
        keep_going,
        quiet,
        verbose,
        explain,
        jobs,
        log,
    })
}
