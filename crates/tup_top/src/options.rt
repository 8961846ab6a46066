//! The options of an update.
ghost use Rattle.std.specs.Prelude.{◌≡◌, ◌+◌, ◌≤◌, false, IfOk, IfSome};
ghost use Rattle.tup_top.specs.Order as specs;

use crate::order::Word;
use std::alloc::AllocError;
use tup_path::Text;

/// The program of an update, as far as the words were read.
#[derive(Drop)]
pub(crate) enum Program {
    NotNamed,
    /// The next word names it.
    Awaited,
    Named(Text),
}

/// How many commands an update runs at a time, as far as the words were read.
#[derive(Clone, Copy)]
pub(crate) enum Jobs {
    NotSaid,
    /// The next word says it.
    Awaited,
    Said(u32),
}

/// The options of an update, as far as the words were read.
#[derive(Drop)]
pub(crate) struct Options {
    pub(crate) program: Program,
    pub(crate) keep_going: bool,
    pub(crate) quiet: bool,
    pub(crate) verbose: bool,
    pub(crate) explain: bool,
    pub(crate) jobs: Jobs,
    pub(crate) log: bool,
}

impl Options {
    /// The options of no words.
    pub(crate) fn none() -> Options
        ensures { result ≡ specs.no_options }
    {
        Options {
            program: Program::NotNamed,
            keep_going: false,
            quiet: false,
            verbose: false,
            explain: false,
            jobs: Jobs::NotSaid,
            log: false,
        }
    }

    /// These options and one word more; none where the word can't stand there.
    pub(crate) fn with(self, word: &Word) -> Result<Option<Options>, AllocError>
        ensures taken { IfOk result (λ more. more ≡ specs.taken word.now self) }
        ensures counted { IfOk result (λ more. IfSome more
            (λ options. specs.count self + 1 ≤ specs.count options)) }
    {
        if matches!(self.program, Program::Awaited) {
            let program = Program::Named(word.0.clone()?);
            return Ok(Some(Options { program, ..self }));
        }
        if matches!(self.jobs, Jobs::Awaited) {
            return Ok(self.saying_jobs(jobs_in(word.0.as_str().as_bytes())));
        }
        Ok(self.with_option(word.0.as_str()))
    }

    /// These options and one more of this name; none where it can't stand there.
    fn with_option(self, name: &str) -> Option<Options>
        requires program { specs.is_awaited self.program ≡ false }
        ensures taken { result ≡ specs.with_option name.now self }
        ensures counted { IfSome result
            (λ options. specs.count self + 1 ≤ specs.count options) }
    {
        match name {
            "--proc" => self.awaiting_program(),
            "-k" => self.going_on(),
            "--explain" => self.explaining(),
            "--log" => self.logging(),
            "--quiet" => self.showing(true, false),
            "--verbose" => self.showing(false, true),
            "-j" => self.awaiting_jobs(),
            _ => self.joining_jobs(joined_jobs(name.as_bytes())),
        }
    }

    /// These options where the next word names the program; none where one is named.
    fn awaiting_program(self) -> Option<Options>
        requires { specs.is_awaited self.program ≡ false }
        ensures taken { result ≡ specs.awaiting_program self }
        ensures counted { IfSome result
            (λ options. specs.count self + 1 ≤ specs.count options) }
    {
        match self.program {
            Program::NotNamed => Some(Options {
                program: Program::Awaited,
                ..self
            }),
            _ => None,
        }
    }

    /// These options and that it goes on; none where they say so.
    fn going_on(self) -> Option<Options>
        ensures taken { result ≡ specs.going_on self }
        ensures counted { IfSome result
            (λ options. specs.count self + 1 ≤ specs.count options) }
    {
        if self.keep_going {
            return None;
        }
        Some(Options {
            keep_going: true,
            ..self
        })
    }

    /// These options and that it says why each rule was run; none where they say so.
    fn explaining(self) -> Option<Options>
        ensures taken { result ≡ specs.explaining self }
        ensures counted { IfSome result
            (λ options. specs.count self + 1 ≤ specs.count options) }
    {
        if self.explain {
            return None;
        }
        Some(Options {
            explain: true,
            ..self
        })
    }

    /// These options and that it logs what it did; none where they say so.
    fn logging(self) -> Option<Options>
        ensures taken { result ≡ specs.logging self }
        ensures counted { IfSome result
            (λ options. specs.count self + 1 ≤ specs.count options) }
    {
        if self.log {
            return None;
        }
        Some(Options { log: true, ..self })
    }

    /// These options and one of what is shown; none where they say anything of that.
    fn showing(self, quiet: bool, verbose: bool) -> Option<Options>
        ensures taken { result ≡ specs.showing quiet verbose self }
        ensures counted { IfSome result (λ options.
            specs.count options ≡ specs.count self + specs.one_if quiet + specs.one_if verbose) }
    {
        if self.quiet || self.verbose {
            return None;
        }
        Some(Options {
            quiet,
            verbose,
            ..self
        })
    }

    /// These options where the next word says how many commands are run at a time; none where it is said.
    fn awaiting_jobs(self) -> Option<Options>
        ensures taken { result ≡ specs.awaiting_jobs self }
        ensures counted { IfSome result
            (λ options. specs.count self + 1 ≤ specs.count options) }
    {
        match self.jobs {
            Jobs::NotSaid => Some(Options {
                jobs: Jobs::Awaited,
                ..self
            }),
            _ => None,
        }
    }

    /// These options that say this number; none where there is none.
    fn saying_jobs(self, jobs: Option<u32>) -> Option<Options>
        requires { specs.words_of_jobs self.jobs ≤ 1 }
        ensures taken { result ≡ specs.saying_jobs jobs self }
        ensures counted { IfSome result
            (λ options. specs.count self + 1 ≤ specs.count options) }
    {
        match jobs {
            Some(number) => Some(Options {
                jobs: Jobs::Said(number),
                ..self
            }),
            None => None,
        }
    }

    /// These options and a number in one word with `-j`; none where it is said.
    fn joining_jobs(self, jobs: Option<u32>) -> Option<Options>
        ensures taken { result ≡ specs.joining_jobs jobs self }
        ensures counted { IfSome result
            (λ options. specs.count self + 1 ≤ specs.count options) }
    {
        match self.jobs {
            Jobs::NotSaid => self.saying_jobs(jobs),
            _ => None,
        }
    }
}

/// The number that stands in one word with `-j`.
pub fn joined_jobs(word: &[u8]) -> Option<u32>
    ensures { result ≡ specs.joined_jobs word.now }
{
    match word {
        [b'-', b'j', digits @ ..] => jobs_in(digits),
        _ => None,
    }
}

/// The number from 1 to 16 that digits say, of which the first is no zero.
pub fn jobs_in(digits: &[u8]) -> Option<u32>
    ensures { result ≡ specs.jobs_in digits.now }
{
    match digits {
        [digit @ b'1'..=b'9'] => Some(u32::from(*digit) - 48),
        [b'1', digit @ b'0'..=b'6'] => Some(u32::from(*digit) - 38),
        _ => None,
    }
}
