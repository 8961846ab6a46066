//! The options of a project: words that hold for each update in it.
ghost use Rattle.std.specs.Prelude.{◌≡◌, ◌⊎◌, Ok, Err, IfOk, IfErr, false};
ghost use Rattle.tup.specs.Options.{added, behind, with_jobs, with_joined, with_option, with_syncs, with_voice};
ghost use Rattle.tup.specs.Options as specs;
ghost use Rattle.tup.specs.declared.options.Fault.TheVariants.{Memory};

use std::alloc::{AllocError, AllocFailed, Global};
use std::fmt;
use tup_fs::Syncs;
use tup_path::Text;
use tup_top::{jobs_in, joined_jobs};

/// How much an update shows while it runs.
#[derive(Clone, Copy, Debug, PartialEq, Eq)]
pub(crate) enum Voice {
    /// Nothing.
    Quiet,
    /// Each command in a line of its own.
    Verbose,
}

/// What the words of options ask for.
#[derive(Drop)]
pub(crate) struct Options {
    /// The program that runs commands.
    pub(crate) program: Option<Text>,
    /// When what is written is made durable.
    pub(crate) syncs: Syncs,
    /// Whether each file is read, also one that looks as it did.
    pub(crate) digests: bool,
    /// Whether an update goes on after a bad command.
    pub(crate) keep_going: bool,
    /// How much it shows while it runs, if that is said.
    pub(crate) voice: Option<Voice>,
    /// How many commands it runs at a time, if that is said.
    pub(crate) jobs: Option<u32>,
    /// Whether a program has to follow.
    pub(crate) awaits_program: bool,
    /// Whether the number of commands has to follow.
    pub(crate) awaits_jobs: bool,
}

/// Why a word can't be among options at its place.
#[derive(Drop)]
pub(crate) enum Fault {
    Unknown(Text),
    /// The option was there before.
    Twice(Text),
    /// The words end where a program has to follow.
    NoProgram,
    /// No number of commands follows where one has to.
    NoJobs,
    /// An update can't be quiet and verbose.
    Both,
    /// What is written can't be made durable once and never.
    BothSyncs,
    Memory,
}

impl fmt::Display for Fault {
    fn fmt<W: fmt::Write>(&self, f: &mut fmt::Formatter<W>) -> fmt::Result {
        match self {
            Fault::Unknown(word) => write!(f, "unknown word {word}"),
            Fault::Twice(word) => write!(f, "a second {word}"),
            Fault::NoProgram => f.write_str("no program after --proc"),
            Fault::NoJobs => f.write_str("no number from 1 to 16 after -j"),
            Fault::Both => f.write_str("--quiet and --verbose"),
            Fault::BothSyncs => f.write_str("--no-sync and --sync-once"),
            Fault::Memory => f.write_str("no memory"),
        }
    }
}

impl From<AllocError> for Fault {
    ghost use Rattle.std.specs.Prelude.{◌≡◌};
    ghost use Rattle.tup.specs.declared.options.Fault.TheVariants.{Memory};

    ghost from_gives = { λ _ fault. fault ≡ Memory };

    fn from(_: AllocError) -> Fault {
        Fault::Memory
    }
}

impl<T: Drop> From<AllocFailed<T>> for Fault {
    ghost use Rattle.std.specs.Prelude.{◌≡◌};
    ghost use Rattle.tup.specs.declared.options.Fault.TheVariants.{Memory};

    ghost from_gives = { λ _ fault. fault ≡ Memory };

    fn from(_: AllocFailed<T>) -> Fault {
        Fault::Memory
    }
}

impl Options {
    /// What no words ask for.
    pub(crate) fn none() -> Options {
        Options {
            program: None,
            syncs: Syncs::Done,
            digests: false,
            keep_going: false,
            voice: None,
            jobs: None,
            awaits_program: false,
            awaits_jobs: false,
        }
    }

    /// What the lines of a file ask for.
    pub(crate) fn in_lines(alloc: Global, text: &str) -> Result<Options, Fault> {
        let mut options = Options::none();
        for line in text.lines() {
            options.add_line(alloc, line.trim())?;
        }
        options.ended()
    }

    /// Reads a line: blanks part the words of one that begins with an option, and any other is one
    /// word. Empty lines and those that begin with `#` say nothing.
    fn add_line(&mut self, alloc: Global, line: &str) -> Result<(), Fault> {
        if line.is_empty() || line.starts_with('#') {
            return Ok(());
        }
        if !line.starts_with('-') {
            return self.add(alloc, line);
        }
        for word in line.split_ascii_whitespace() {
            self.add(alloc, word)?;
        }
        Ok(())
    }

    /// Reads one more word.
    pub(crate) fn add(&mut self, alloc: Global, word: &str) -> Result<(), Fault>
        ensures added { IfOk result (λ _. added word.now self.old ≡ Ok self.new) }
        ensures refused { IfErr result
            (λ fault. (fault ≡ Memory) ⊎ (added word.now self.old ≡ Err fault)) }
    {
        if self.awaits_program {
            self.program = Some(Text::from_str(alloc, word)?);
            self.awaits_program = false;
            return Ok(());
        }
        if self.awaits_jobs {
            return self.take_jobs(jobs_in(word.as_bytes()));
        }
        match syncs_in(word) {
            Some(syncs) => self.sync(alloc, word, syncs),
            None => self.add_option(alloc, word),
        }
    }

    /// Reads a word that has to be another option.
    fn add_option(&mut self, alloc: Global, word: &str) -> Result<(), Fault>
        requires { self.old.awaits_program ≡ false }
        ensures added { IfOk result (λ _. with_option word.now self.old ≡ Ok self.new) }
        ensures refused { IfErr result
            (λ fault. (fault ≡ Memory) ⊎ (with_option word.now self.old ≡ Err fault)) }
    {
        match word {
            "--proc" if self.program.is_none() => self.awaits_program = true,
            "--digest" if !self.digests => self.digests = true,
            "-k" if !self.keep_going => self.keep_going = true,
            "--quiet" => return self.speak(alloc, word, Voice::Quiet),
            "--verbose" => return self.speak(alloc, word, Voice::Verbose),
            "-j" if self.jobs.is_none() => self.awaits_jobs = true,
            "--proc" | "--digest" | "-k" | "-j" => {
                return Err(Fault::Twice(Text::from_str(alloc, word)?));
            }
            _ => return self.add_joined(alloc, word, joined_jobs(word.as_bytes())),
        }
        Ok(())
    }

    /// Reads the word that says when what is written is made durable.
    fn sync(&mut self, alloc: Global, word: &str, syncs: Syncs) -> Result<(), Fault>
        requires { self.old.awaits_program ≡ false }
        ensures said { IfOk result
            (λ _. with_syncs syncs word.now self.old self.old.syncs ≡ Ok self.new) }
        ensures refused { IfErr result (λ fault. (fault ≡ Memory)
            ⊎ (with_syncs syncs word.now self.old self.old.syncs ≡ Err fault)) }
    {
        let before = self.syncs;
        match before {
            Syncs::Done => {
                self.syncs = syncs;
                Ok(())
            }
            said if said == syncs => Err(Fault::Twice(Text::from_str(alloc, word)?)),
            _ => Err(Fault::BothSyncs),
        }
    }

    /// Takes the number of commands that had to follow.
    fn take_jobs(&mut self, jobs: Option<u32>) -> Result<(), Fault>
        ensures taken { IfOk result (λ _. with_jobs jobs self.old ≡ Ok self.new) }
        ensures refused { IfErr result (λ fault. with_jobs jobs self.old ≡ Err fault) }
    {
        if jobs.is_none() {
            return Err(Fault::NoJobs);
        }
        self.jobs = jobs;
        self.awaits_jobs = false;
        Ok(())
    }

    /// Reads a word that has the number of commands in itself, if it has one.
    fn add_joined(&mut self, alloc: Global, word: &str, jobs: Option<u32>) -> Result<(), Fault>
        ensures added { IfOk result (λ _. with_joined word.now jobs self.old ≡ Ok self.new) }
        ensures refused { IfErr result (λ fault. (fault ≡ Memory)
            ⊎ (with_joined word.now jobs self.old ≡ Err fault)) }
    {
        if jobs.is_none() {
            return Err(Fault::Unknown(Text::from_str(alloc, word)?));
        }
        if self.jobs.is_some() {
            return Err(Fault::Twice(Text::from_str(alloc, word)?));
        }
        self.jobs = jobs;
        Ok(())
    }

    /// Reads the word that says how much an update shows.
    fn speak(&mut self, alloc: Global, word: &str, voice: Voice) -> Result<(), Fault>
        requires { self.old.awaits_program ≡ false }
        ensures spoken { IfOk result
            (λ _. with_voice voice word.now self.old self.old.voice ≡ Ok self.new) }
        ensures refused { IfErr result (λ fault. (fault ≡ Memory)
            ⊎ (with_voice voice word.now self.old self.old.voice ≡ Err fault)) }
    {
        let before = self.voice;
        match before {
            None => {
                self.voice = Some(voice);
                Ok(())
            }
            Some(said) if said == voice => Err(Fault::Twice(Text::from_str(alloc, word)?)),
            Some(_) => Err(Fault::Both),
        }
    }

    /// The options, if nothing is missing after the last word.
    pub(crate) fn ended(self) -> Result<Options, Fault>
        ensures { IfOk result (λ options. options ≡ self) }
    {
        if self.awaits_program {
            Err(Fault::NoProgram)
        } else if self.awaits_jobs {
            Err(Fault::NoJobs)
        } else {
            Ok(self)
        }
    }

    /// These options, and others for what they don't say.
    pub(crate) fn before(self, others: Options) -> Options
        ensures { result ≡ behind self others }
    {
        Options {
            program: self.program.or(others.program),
            syncs: match self.syncs {
                Syncs::Skipped => Syncs::Skipped,
                Syncs::Done => others.syncs,
                Syncs::Once => Syncs::Once,
            },
            digests: self.digests || others.digests,
            keep_going: self.keep_going || others.keep_going,
            voice: self.voice.or(others.voice),
            jobs: self.jobs.or(others.jobs),
            awaits_program: false,
            awaits_jobs: false,
        }
    }
}

/// When what is written is made durable, if a word says that.
fn syncs_in(word: &str) -> Option<Syncs>
    ensures { result ≡ specs.syncs_in word.now }
{
    match word {
        "--no-sync" => Some(Syncs::Skipped),
        "--sync-once" => Some(Syncs::Once),
        _ => None,
    }
}
