//! Standard error as a screen.
use crate::options::Voice;
use std::alloc::Global;
use std::env::Env;
use std::fs::File;
use std::io::{IsTerminal, Read, Write};
use std::{fs, io};
use tup_path::Text;
use tup_progress::{Around, Manner, Screen};

/// How many bytes are shown in one write at most, but for the last piece of a file.
const PIECE: usize = 65536;

/// Standard error.
#[derive(Drop)]
pub(crate) struct ErrorScreen {
    rt: HostRuntime,
    alloc: Global,
    kept: Option<Kept>,
}

/// Where what the commands of a runner print is kept.
#[derive(Drop)]
pub(crate) struct Kept {
    pub(crate) place: Text,
    /// A folder that all runners of the update have. While one of them shows something it is locked.
    pub(crate) turn: Text,
}

impl ErrorScreen {
    pub(crate) fn new(rt: HostRuntime, alloc: Global, kept: Option<Kept>) -> ErrorScreen {
        ErrorScreen { rt, alloc, kept }
    }

    /// What keeps other runners from showing anything, until it is dropped; nothing where that can't be done.
    fn turn(&self) -> Option<File> {
        let Kept { turn, .. } = self.kept.as_ref()?;
        let folder = File::open(&self.rt, turn.as_str()).ok()?;
        folder.lock().ok()?;
        Some(folder)
    }

    /// Prints a text.
    fn print(&self, text: &[u8]) -> io::Result<()> {
        io::writer(&self.rt.stderr()).write_all(text)
    }

    /// Prints what is kept, and removes it.
    fn print_kept(&self, place: &str, around: &Around) -> io::Result<()> {
        match File::open(&self.rt, place) {
            Ok(mut file) => {
                let printed = self.print_file(&mut file, around);
                fs::remove_file(&self.rt, place)?;
                printed
            }
            Err(_) if around.below.is_empty() => Ok(()),
            Err(_) => self.print_failed(around),
        }
    }

    /// Prints the line of a command that failed and printed nothing.
    fn print_failed(&self, around: &Around) -> io::Result<()> {
        let Around { clear, below, .. } = around;
        eprint!(self.rt; "{clear}{below}")
    }

    /// Prints a file between the texts around it.
    fn print_file(&self, file: &mut File, around: &Around) -> io::Result<()> {
        let mut text = Vec::new(self.alloc);
        text.extend_from_slice(around.clear.as_bytes())?;
        text.extend_from_slice(around.above.as_bytes())?;
        self.print_pieces(file, &mut text)?;
        if !text.as_slice().ends_with(b"\n".as_slice()) {
            text.extend_from_slice(b"\n".as_slice())?;
        }
        text.extend_from_slice(around.below.as_bytes())?;
        self.print(text.as_slice())
    }

    /// Adds a file to a text, and prints that piece by piece; its last piece is left.
    fn print_pieces(&self, file: &mut File, text: &mut Vec<u8>) -> io::Result<()> {
        let mut bytes = [0; 8192];
        for _ in 0..u64::MAX {
            let len = file.read(bytes.as_mut_slice())?;
            if len == 0 {
                return Ok(());
            }
            if text.len() > PIECE {
                self.print(text.as_slice())?;
                text.clear();
            }
            text.extend_from_slice(&bytes[..len])?;
        }
        Ok(())
    }
}

impl Screen for ErrorScreen {
    fn show(&mut self, text: &str) {
        let turn = self.turn();
        // Words that can't be printed change nothing.
        drop(self.print(text.as_bytes()));
        drop(turn);
    }

    fn keeps(&self) -> bool {
        self.kept.is_some()
    }

    fn show_kept(&mut self, around: &Around) {
        let turn = self.turn();
        if let Some(Kept { place, .. }) = &self.kept {
            // Words that can't be printed change nothing.
            drop(self.print_kept(place.as_str(), around));
        }
        drop(turn);
    }
}

/// How the commands of an update are shown: as was said, and else in one line of a terminal.
pub(crate) fn manner(rt: HostRuntime, voice: Option<Voice>) -> Manner {
    match voice {
        Some(Voice::Quiet) => Manner::Silent,
        Some(Voice::Verbose) => Manner::Listed,
        None if rt.stderr().is_terminal() && is_capable(&rt) => Manner::Over,
        None => Manner::Silent,
    }
}

/// Whether the terminal has a name, and one that knows more than to print.
fn is_capable(env: &impl Env) -> bool {
    let mut buffer = [0; 64];
    match env.var("TERM", &mut buffer) {
        Ok(len) => len > 0 && &buffer[..len] != b"dumb".as_slice(),
        Err(_) => false,
    }
}
