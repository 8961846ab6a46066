//! `tup`, the program: words in, lines out, an exit number.
//!
//! All that it does is `tup_top::tup` over the real files below the working folder, and `tup_large::large` over
//! files in memory. This crate reads the words and writes to standard output, and to standard error what the
//! system said of a call that failed; it is tested, and proved to be safe, but it makes no promise of its own.
#![tactic(auto)]

mod blame;
mod call;
mod crew;
mod digest;
mod error_log;
mod hint;
mod made;
mod makers;
mod option_files;
mod options;
mod output;
mod own;
mod screen;
mod stages;
mod streams;
mod top;
mod usage;
mod words;

use call::{Call, run_by_minis, run_through};
use options::{Options, Voice};
use screen::manner;
use std::alloc::{AllocError, Global};
use std::io;
use std::process::ExitCode;
use std::sync::Wait;
use std::thread::Threads;
use top::Top;
use tup_fs::Syncs;
use tup_path::Text;
use tup_progress::Manner;
use tup_top::{Order, OrderFault, Status, Word, order_of};
use words::words;

const HELP: &str = "\
tup makes the files that the Tupfiles of a project ask for. It may be called in any folder of the project.

  tup init        begin a project in this folder, once
  tup init --proc P
                  begin one in which each command is run through the program P: --proc tup_sh runs shell commands
  tup init --no-sync
                  begin one that is faster: its files are safe if tup is killed, but not if the power is cut
  tup init --sync-once
                  begin one that is faster and safe if the power is cut: all is made durable at the end of an update
  tup, tup upd    update: remove the files of vanished rules, run the rules that aren't up to date, and no others
  tup todo        list what an update would remove and run, and change no file
  tup verify      compare the files with a clean build, and touch none
  tup outputs     list what the project has made, as for a .gitignore
  tup clean       remove what it has made, but for what was changed by hand
  tup demo        show an update of a small project in memory
  tup large N     show what updates of a project of N folders in memory do, 1 to 1000
  tup --proc P    update, each command run through the program P; also tup upd --proc P
  tup -k          update, and go on after a bad command with what doesn't need it; also tup upd -k
  tup -j N        update, at most N commands at a time, 1 to 16; without it 4; also tup upd -j N, -jN
  tup --explain   update, and say after each rule why it was run; also tup upd --explain
  tup --log       update, and print to standard error what was read, removed, started and ended; also tup upd --log
  tup --verbose   update, and print each command before it is run; also tup upd --verbose
  tup --quiet     update, and show nothing while it runs; also tup upd --quiet
  tup --digest    update, and read each file, also one that looks as it did; also tup upd --digest
  tup --help      print this
  tup --version   print the version

Exit numbers: 0 done, 1 a command's fault, 2 usage, 3 no project here, or one already, 4 damaged store,
5 fault of the Tupfiles, 6 a file was changed by hand and no rule makes it, 7 the file tree or the store failed,
8 the runner failed, 9 the output failed, 10 the log failed, 11 over a limit, 12 no memory, 13 the files differ from a clean build.
";

/// How many commands an update runs at a time where nothing is said.
const JOBS: u32 = 4;

/// The version. The tests, the manual and the Makefile read it here.
const VERSION: &str = "0.15";

/// How many bytes the block has that is freed first.
const FIRST_BLOCK: usize = 33_000_000;

fn main(rt: HostRuntime) -> ExitCode {
    streams::fill(rt);
    keep_blocks(rt.alloc());
    let status = match words(&rt, rt.alloc()) {
        Ok(words) => answer(rt, &rt, rt.alloc(), &words),
        Err(status) => {
            usage::explain_unread(rt, &status);
            told(&rt, status)
        }
    };
    ExitCode::from(status)
}

/// Has blocks of memory used again once they are freed. The C library gives a block that is larger than all that were freed before
/// back to the system, which clears each page of the next one anew. So a large one is freed first, to which nothing was written.
fn keep_blocks(alloc: Global) {
    drop(Vec::<u8>::with_capacity(alloc, FIRST_BLOCK));
}

/// Answers the words, and gives the exit number. Crews are started by a handle of their own.
fn answer<W: Threads + Wait + Sync>(
    rt: HostRuntime,
    crews: &W,
    alloc: Global,
    words: &[Word],
) -> u8 {
    match words {
        [word] if matches!(word.0.as_str(), "--help" | "-h") => shown(print!(rt; "{HELP}")),
        [word] if word.0.as_str() == "--version" => shown(println!(rt; "tup {VERSION}")),
        [word, options @ ..] if word.0.as_str() == "init" => {
            init(rt, crews, alloc, &words[..1], options)
        }
        [word] if word.0.as_str() == "outputs" => outputs(rt, alloc),
        [word] if word.0.as_str() == "clean" => clean(rt, alloc),
        [word, _, ..] if matches!(word.0.as_str(), "outputs" | "clean") => refuse_second(rt, words),
        [word, more @ ..] if word.0.as_str() == "large" => {
            show(rt, tup_large::large(crews, alloc, more))
        }
        _ => obey(rt, crews, alloc, words),
    }
}

/// Says that no word may follow the first.
fn refuse_second(rt: HostRuntime, words: &[Word]) -> u8 {
    let status = Status::Usage { place: 2 };
    usage::explain(rt, words, &status);
    told(&rt, status)
}

/// Prints what is shown of a large project, and gives the exit number. A failure of the output is
/// reported if all else went well.
fn show(rt: HostRuntime, large: tup_large::Shown) -> u8 {
    let tup_large::Shown { lines, status } = large;
    usage::explain_large(rt, &status);
    let printed = shown(print!(rt; "{lines}"));
    match status.exit() {
        0 => printed,
        fault => fault,
    }
}

/// Begins a project in the working folder, with these options; where one has begun there, it has these options now. They are
/// written before the store: so no project begins without them, whatever stops this.
fn init<W: Threads + Wait + Sync>(
    rt: HostRuntime,
    crews: &W,
    alloc: Global,
    word: &[Word],
    options: &[Word],
) -> u8 {
    let Options { syncs, .. } = match option_files::check(rt, alloc, options) {
        Ok(options) => options,
        Err(status) => return status,
    };
    let Ok(here) = Top::here(alloc) else {
        return told(&rt, Status::Memory);
    };
    match option_files::begin(rt, alloc, &here, options, syncs) {
        Ok(None) => run_small(rt, crews, alloc, word, &here, syncs).exit(),
        Ok(Some(status)) => status,
        Err(status) => status,
    }
}

/// Carries out an order; only what works on a project looks for it. The word that has each file read is for this program alone.
fn obey<W: Threads + Wait + Sync>(rt: HostRuntime, crews: &W, alloc: Global, words: &[Word]) -> u8 {
    let Some(at) = digest::place(words) else {
        return obey_plain(rt, crews, alloc, words, false);
    };
    let Ok(plain) = digest::without(alloc, words, at) else {
        return told(&rt, Status::Memory);
    };
    match order_of(plain.as_slice()) {
        Err(OrderFault::Usage { place }) => {
            let status = Status::Usage {
                place: digest::place_with(at, place),
            };
            usage::explain(rt, words, &status);
            told(&rt, status)
        }
        _ => obey_plain(rt, crews, alloc, plain.as_slice(), true),
    }
}

/// Carries out an order of these words.
fn obey_plain<W: Threads + Wait + Sync>(
    rt: HostRuntime,
    crews: &W,
    alloc: Global,
    words: &[Word],
    digests: bool,
) -> u8 {
    match order_of(words) {
        Ok(
            Order::Upd {
                program,
                keep_going,
                quiet,
                verbose,
                jobs,
                ..
            },
        ) => {
            let asked = Options {
                program,
                syncs: Syncs::Done,
                digests,
                keep_going,
                voice: voice(quiet, verbose),
                jobs,
                awaits_program: false,
                awaits_jobs: false,
            };
            update(rt, crews, alloc, words, asked)
        }
        Ok(Order::Todo) => todo(rt, crews, alloc, words),
        Ok(Order::Verify) => verify(rt, crews, alloc, words),
        // An update whose words weren't understood for want of memory is none.
        Err(OrderFault::Memory) => told(&rt, Status::Memory),
        _ => without_project(rt, crews, alloc, words),
    }
}

/// How much an update shows, if its words say that.
fn voice(quiet: bool, verbose: bool) -> Option<Voice> {
    match (quiet, verbose) {
        (true, _) => Some(Voice::Quiet),
        (false, true) => Some(Voice::Verbose),
        (false, false) => None,
    }
}

/// Carries out an order that works on no project.
fn without_project<W: Threads + Wait + Sync>(
    rt: HostRuntime,
    crews: &W,
    alloc: Global,
    words: &[Word],
) -> u8 {
    let Ok(here) = Top::here(alloc) else {
        return told(&rt, Status::Memory);
    };
    run_small(rt, crews, alloc, words, &here, Syncs::Done).exit()
}

/// Lists what an update of the project would do. It digests the files in as many threads as an update would.
fn todo<W: Threads + Wait + Sync>(rt: HostRuntime, crews: &W, alloc: Global, words: &[Word]) -> u8 {
    match project(rt, alloc) {
        Ok((top, options)) => {
            let call = Call {
                words,
                top: &top,
                syncs: options.syncs,
                digests: options.digests,
                manner: Manner::Silent,
                voice: None,
            };
            run_by_minis(rt, crews, alloc, &call, options.jobs.unwrap_or(JOBS)).exit()
        }
        Err(status) => status,
    }
}

/// Compares the files of the project.
fn verify<W: Threads + Wait + Sync>(
    rt: HostRuntime,
    crews: &W,
    alloc: Global,
    words: &[Word],
) -> u8 {
    match project(rt, alloc) {
        Ok((top, options)) => {
            let status = run_small(rt, crews, alloc, words, &top, options.syncs);
            hint::name_program(rt, alloc, &status, "`tup verify` runs no others");
            hint::name_runner(rt, &status, &options.program);
            status.exit()
        }
        Err(status) => status,
    }
}

/// Lists what the project has made.
fn outputs(rt: HostRuntime, alloc: Global) -> u8 {
    match top::find(rt, alloc) {
        Ok(top) => made::list(rt, alloc, &top),
        Err(status) => status,
    }
}

/// Removes what the project has made.
fn clean(rt: HostRuntime, alloc: Global) -> u8 {
    match project(rt, alloc) {
        Ok((top, options)) => made::clean(rt, alloc, &top, options.syncs),
        Err(status) => status,
    }
}

/// Updates the files of the project. What the call asks for comes before what the options say.
fn update<W: Threads + Wait + Sync>(
    rt: HostRuntime,
    crews: &W,
    alloc: Global,
    words: &[Word],
    asked: Options,
) -> u8 {
    match project(rt, alloc) {
        Ok((top, options)) => {
            let is_in_words = asked.keep_going;
            let options = asked.before(options);
            match begin(rt, crews, alloc, &top, options.syncs) {
                0 if options.keep_going && !is_in_words => {
                    keep_going(rt, crews, alloc, words, &top, options)
                }
                0 => update_by(rt, crews, alloc, words, &top, options),
                status => status,
            }
        }
        Err(status) => status,
    }
}

/// The project that the working folder belongs to, and its options.
fn project(rt: HostRuntime, alloc: Global) -> Result<(Top, Options), u8> {
    let top = top::find(rt, alloc)?;
    let options = option_files::read(rt, alloc, &top)?;
    Ok((top, options))
}

/// Begins the project where a file asks for it; gives the exit number.
fn begin<W: Threads + Wait + Sync>(
    rt: HostRuntime,
    crews: &W,
    alloc: Global,
    top: &Top,
    syncs: Syncs,
) -> u8 {
    if !top.is_to_begin() {
        return 0;
    }
    let Ok(words) = init_word(alloc) else {
        return told(&rt, Status::Memory);
    };
    match option_files::begin(rt, alloc, top, &[], syncs) {
        Ok(_) => run_small(rt, crews, alloc, &words, top, syncs).exit(),
        Err(status) => status,
    }
}

/// The word that begins a project.
fn init_word(alloc: Global) -> Result<Vec<Word>, AllocError> {
    let word = Word(Text::from_str(alloc, "init")?);
    Ok(vec![in alloc; word]?)
}

/// Updates the files of a project, and goes on after a bad command, as its options say.
fn keep_going<W: Threads + Wait + Sync>(
    rt: HostRuntime,
    crews: &W,
    alloc: Global,
    words: &[Word],
    top: &Top,
    options: Options,
) -> u8 {
    match words_with(alloc, words, "-k") {
        Ok(words) => update_by(rt, crews, alloc, &words, top, options),
        Err(_) => told(&rt, Status::Memory),
    }
}

/// Words, and one more after them.
fn words_with(alloc: Global, words: &[Word], more: &str) -> Result<Vec<Word>, AllocError> {
    let mut all = Vec::new(alloc);
    for word in words {
        all.push(Word(word.0.clone()?))?;
    }
    all.push(Word(Text::from_str(alloc, more)?))?;
    Ok(all)
}

/// Updates the files of a project, by the small commands or through a program.
fn update_by<W: Threads + Wait + Sync>(
    rt: HostRuntime,
    crews: &W,
    alloc: Global,
    words: &[Word],
    top: &Top,
    options: Options,
) -> u8 {
    let call = Call {
        words,
        top,
        syncs: options.syncs,
        digests: options.digests,
        manner: manner(rt, options.voice),
        voice: options.voice,
    };
    let jobs = options.jobs.unwrap_or(JOBS);
    match options.program {
        Some(program) => run_through(rt, crews, alloc, &call, &program, jobs),
        None => {
            let status = run_by_minis(rt, crews, alloc, &call, jobs);
            hint::name_program(rt, alloc, &status, "`--proc tup_sh` runs shell commands");
            status.exit()
        }
    }
}

/// Carries out words by the small commands, and shows none of them. Each file is read.
fn run_small<W: Threads + Wait + Sync>(
    rt: HostRuntime,
    crews: &W,
    alloc: Global,
    words: &[Word],
    top: &Top,
    syncs: Syncs,
) -> Status {
    let call = Call {
        words,
        top,
        syncs,
        digests: true,
        manner: Manner::Silent,
        voice: None,
    };
    run_by_minis(rt, crews, alloc, &call, 1)
}

/// The exit number of a text that was to be printed.
pub(crate) fn shown(printed: io::Result<()>) -> u8 {
    match printed {
        Ok(()) => 0,
        Err(_) => Status::SinkFault.exit(),
    }
}

/// Prints the line of a status that came before any update, and gives its exit number.
pub(crate) fn told(rt: &impl Print, status: Status) -> u8 {
    // A line that can't be printed changes nothing: the exit number says as much.
    drop(println!(rt; "{status}"));
    status.exit()
}
