//! How a trace is read.
ghost use Rattle.std.specs.Prelude.{◌≡◌, ◌⊎◌, ◌++◌, ◌∷◌, [], ℕ, Ok, Err, OnOk, IfOk, IfErr, IfNone, OnSome, MatchOption, None, find, position, Some};
ghost use Rattle.std.specs.Option.{option_copied};
ghost use Rattle.tup_trace.specs.Trace.{trace_begun, line_of as line_said, is_note as note_test, is_begun as begun_test, thread_of as thread_said, ended, renumbered, begun_after, is_of, without, StandsAt, call as call_of, with_call, with_rest, joined, next_number, line_ended, followed, all_read, calls_of};

use crate::call::Call;
use crate::fault::TraceFault;
use crate::reading::Reading;
use crate::token::Token;
use std::alloc::{AllocError, Global};
use std::mem;
use tup_path::{Bytes, Items};

/// A line of a trace.
#[derive(Drop)]
pub(crate) enum Line {
    /// A call, whole or begun.
    Call(Call),
    /// The rest of a call that began on an earlier line.
    Rest(Call),
}

/// A trace, as far as it was read.
#[derive(Drop)]
pub(crate) struct Trace {
    pub(crate) reading: Reading,
    /// The number of the line that is being read.
    pub(crate) line: u32,
    pub(crate) calls: Items<Call>,
    /// The calls that began and weren't resumed yet.
    pub(crate) begun: Items<Call>,
}

/// The calls of a trace, one for each line. A call that began on one line and was resumed on another stands at both, at the
/// second with all of its parts.
///
/// `BadLine` names the first line that doesn't read: it has no process or no name in front, has quotes or angles that are
/// left open or an escape that is none, or has no line feed.
pub fn calls(alloc: Global, bytes: &[u8]) -> Result<Items<Call>, TraceFault>
    ensures { (result ≡ Err TraceFault.Memory) ⊎ (result ≡ calls_of bytes.now) }
{
    let mut trace = Trace::new(alloc);
    for byte in bytes {
        trace.read(alloc, *byte)?;
    }
    trace.finish()
}

impl Trace {
    /// A trace begins.
    fn new(alloc: Global) -> Trace
        ensures { result ≡ trace_begun }
    {
        Trace {
            reading: Reading::new(alloc),
            line: 1,
            calls: Items::new(alloc),
            begun: Items::new(alloc),
        }
    }

    /// Reads a byte.
    fn read(&mut self, alloc: Global, byte: u8) -> Result<(), TraceFault>
        ensures ok { OnOk result (followed self.old byte ≡ Ok self.new) }
        ensures bad { IfErr result
            (λ fault. (fault ≡ TraceFault.Memory) ⊎ (followed self.old byte ≡ Err fault)) }
    {
        if byte == b'\n' {
            self.end_line(alloc)
        } else {
            self.reading.read(alloc, byte)?;
            Ok(())
        }
    }

    /// The line is over.
    fn end_line(&mut self, alloc: Global) -> Result<(), TraceFault>
        ensures ok { OnOk result (line_ended self.old ≡ Ok self.new) }
        ensures bad { IfErr result
            (λ fault. (fault ≡ TraceFault.Memory) ⊎ (line_ended self.old ≡ Err fault)) }
    {
        let line = self.line;
        let reading = mem::replace(&mut self.reading, Reading::new(alloc));
        let Some(tokens) = reading.finish(alloc)? else {
            return Err(TraceFault::BadLine { line });
        };
        let Some(said) = line_of(tokens) else {
            return Err(TraceFault::BadLine { line });
        };
        self.line = line.saturating_add(1);
        self.join(alloc, said)?;
        Ok(())
    }

    /// Adds a line.
    fn join(&mut self, alloc: Global, line: Line) -> Result<(), AllocError>
        ensures { OnOk result (self.new ≡ joined self.old line) }
    {
        match line {
            Line::Call(call) => self.call(alloc, call),
            Line::Rest(rest) => self.rest(alloc, rest),
        }
    }

    /// Adds a call, whole or begun, or the note that a thread has another number now.
    fn call(&mut self, alloc: Global, call: Call) -> Result<(), AllocError>
        ensures { OnOk result (self.new ≡ with_call self.old call) }
    {
        self.begin(alloc, &call)?;
        self.calls.push(call)?;
        Ok(())
    }

    /// Notes which calls are still to be resumed after a call.
    fn begin(&mut self, alloc: Global, call: &Call) -> Result<(), AllocError>
        ensures { OnOk result (self.new
            ≡ record self.old { begun = begun_after self.old.begun call.now }) }
    {
        match thread_of(call) {
            Some(thread) => self.renumber(alloc, &call.process, thread),
            None if is_begun(call.parts.as_slice()) => {
                let begun = call.clone()?;
                self.begun.push(begun)?;
                Ok(())
            }
            None => Ok(()),
        }
    }

    /// Notes that a thread runs a program as its process from now on: what that process began is over, and what the thread
    /// began is the process's.
    fn renumber(&mut self, alloc: Global, process: &Bytes, thread: &Bytes) -> Result<(), AllocError>
        ensures { OnOk result (self.new
            ≡ record self.old { begun = renumbered process.now thread.now self.old.begun }) }
    {
        self.end(alloc, process);
        let Some(call) = self.take(alloc, thread) else {
            return Ok(());
        };
        let process = process.clone()?;
        self.begun.push(Call {
            process,
            name: call.name,
            parts: call.parts,
        })?;
        Ok(())
    }

    /// Forgets what a process began: it isn't resumed.
    fn end(&mut self, alloc: Global, process: &Bytes)
        ensures { self.new ≡ record self.old { begun = ended process.now self.old.begun } }
    {
        match self.take(alloc, process) {
            Some(_) | None => {}
        }
    }

    /// Adds the rest of a call to what began.
    fn rest(&mut self, alloc: Global, rest: Call) -> Result<(), AllocError>
        ensures { OnOk result (self.new ≡ with_rest self.old rest) }
    {
        let call = match self.take(alloc, &rest.process) {
            Some(begun) => whole(begun, rest)?,
            None => rest,
        };
        self.calls.push(call)?;
        Ok(())
    }

    /// Takes out the call that a process began.
    fn take(&mut self, alloc: Global, process: &Bytes) -> Option<Call>
        ensures found { result ≡ find (is_of process.now) self.old.begun }
        ensures none { IfNone result (self.new ≡ self.old) }
        ensures others { OnSome result
            (self.new ≡ record self.old { begun = without process.now self.old.begun }) }
    {
        let Some(place) = place_of(self.begun.as_slice(), process) else {
            return None;
        };
        let mut begun = mem::replace(&mut self.begun, Items::new(alloc)).into_vec();
        let call = begun.remove(place);
        self.begun = Items::from_vec(begun);
        Some(call)
    }

    /// The calls, if the last line is over.
    fn finish(self) -> Result<Items<Call>, TraceFault>
        ensures { result ≡ all_read self }
    {
        if self.reading.is_new() {
            Ok(self.calls)
        } else {
            Err(TraceFault::BadLine { line: self.line })
        }
    }
}

/// Where the first call of a process stands.
fn place_of(calls: &[Call], process: &Bytes) -> Option<usize>
    ensures { MatchOption result (find (is_of process.now) calls.now ≡ None)
        (StandsAt process.now calls.now) }
{
    position_of(calls, process)
}

/// Where the first call of a process stands, by its place.
fn position_of(calls: &[Call], process: &Bytes) -> Option<usize>
    ensures { result ≡ position (is_of process.now) calls.now }
{
    let process = process.as_slice();
    calls
        .iter()
        .position(|call| call.process.as_slice() == process)
}

/// What the parts of a line say.
fn line_of(tokens: Items<Token>) -> Option<Line>
    ensures { result ≡ line_said tokens }
{
    if tokens.len() < 2 {
        return None;
    }
    let mut parts = tokens.into_vec();
    let first = parts.remove(0);
    let second = parts.remove(0);
    line_from(first, second, Items::from_vec(parts))
}

/// What a line says with such parts in front.
fn line_from(first: Token, second: Token, parts: Items<Token>) -> Option<Line>
    ensures { result ≡ line_said (first ∷ second ∷ parts) }
{
    match (first, second) {
        (Token::Word(process), Token::Word(name)) => Some(Line::Call(Call {
            process,
            name,
            parts,
        })),
        (Token::Word(process), Token::Place(name)) => Some(Line::Rest(Call {
            process,
            name,
            parts,
        })),
        _ => None,
    }
}

/// Whether a call with these parts only began.
fn is_begun(parts: &[Token]) -> bool
    ensures { result ≡ begun_test parts.now }
{
    parts.iter().any(is_note)
}

/// Whether a part is the note that a call only began: its end comes on a later line, perhaps under another number.
fn is_note(token: &Token) -> bool
    ensures { result ≡ note_test token.now }
{
    match token {
        Token::Place(note) => {
            let note = note.as_slice();
            note == b"unfinished ...".as_slice() || note.starts_with(b"pid changed to ")
        }
        _ => false,
    }
}

/// The thread that is this process from now on, since it runs a program.
fn thread_of(call: &Call) -> Option<&Bytes>
    ensures { option_copied result ≡ thread_said call.now }
{
    if call.name.as_slice() != b"+++".as_slice() {
        return None;
    }
    match call.parts.as_slice() {
        [
            Token::Word(what),
            Token::Word(_),
            Token::Word(_),
            Token::Word(_),
            Token::Word(_),
            Token::Word(thread),
            ..
        ] if what.as_slice() == b"superseded".as_slice() => Some(thread),
        _ => None,
    }
}

/// A call that began, with its rest.
fn whole(begun: Call, rest: Call) -> Result<Call, AllocError>
    ensures { IfOk result (λ whole. whole
        ≡ call_of begun.process begun.name (begun.parts ++ rest.parts)) }
{
    let mut parts = begun.parts.into_vec();
    parts.append(&mut rest.parts.into_vec())?;
    Ok(Call {
        process: begun.process,
        name: begun.name,
        parts: Items::from_vec(parts),
    })
}
