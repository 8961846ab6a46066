//! A reporter that writes a line for each event.
ghost use Rattle.std.specs.Prelude.{◌≡◌, ◌↔◌, ◌++◌, ◌∷◌, [], IfOk, IsErrOf, IsTrue, OnErr, OnOk};
ghost use Rattle.tup_tell.specs.Lines as specs;
ghost use Rattle.tup_tell.specs.Told.{FailsByCount};
ghost use Rattle.tup_tell.specs.declared.reporter.TellFailed.TheVariants.{Fault};

use crate::event::Event;
use crate::reporter::{Reporter, TellFailed};
use crate::sink::Sink;
use std::alloc::{AllocError, Global};
use tup_access::Verdict;
use tup_path::Bytes;

/// A reporter that writes a line for each event to a sink. It fails just where its sink does.
#[derive(Drop)]
pub struct LineReporter<K: Sink> {
    sink: K,
    events: Vec<Event>,
}

impl<K: Sink> LineReporter<K> {
    ghost use Rattle.tup_tell.specs.Written.{sink_of, written_by};

    /// A reporter over this sink that was told nothing yet.
    pub fn new(alloc: Global, sink: K) -> LineReporter<K>
        ensures empty { written_by result ≡ [] }
        ensures sink { sink_of result ≡ sink }
    {
        LineReporter {
            sink,
            events: Vec::new(alloc),
        }
    }

    /// What it writes to.
    pub fn sink(&self) -> &K
        ensures { result.now ≡ sink_of self.now }
    {
        &self.sink
    }
}

impl<K: Sink> Reporter for LineReporter<K> {
    ghost use Rattle.tup_tell.specs.Written.{sink_of, written_by};

    ghost told = { written_by };

    ghost faults = { λ reporter. K.faults (sink_of reporter) };

    /// The room for the event is taken before its line is written.
    fn note(&mut self, alloc: Global, event: &Event) -> Result<(), TellFailed>
        ensures told { OnOk result (written_by self.new ≡ written_by self.old ++ event.now ∷ []) }
        ensures untold { OnErr result (written_by self.new ≡ written_by self.old) }
        ensures cause { FailsByCount (K.faults (sink_of self.old)) (K.faults (sink_of self.new)) result }

        // Its line is written behind what the sink holds.
        ensures line { IsTrue K.tells → OnOk result (K.held (sink_of self.new)
            ≡ K.held (sink_of self.old) ++ specs.event_line event.now) }
    {
        let line = line_of(alloc, event)?;
        let event = event.clone()?;
        self.events.reserve(1)?;
        self.sink.write(alloc, &line)?;
        self.events.push_reserved(event);
        Ok(())
    }

    fn told(&self) -> &[Event] {
        self.events.as_slice()
    }

    fn faults(&self) -> u64 {
        self.sink.faults()
    }
}

/// The line of an event.
fn line_of(alloc: Global, event: &Event) -> Result<Bytes, AllocError>
    ensures { IfOk result (λ line. line ≡ specs.event_line event.now) }
{
    let line = match event {
        Event::Read { dir } => format!(in alloc; "read {dir}\n"),
        Event::Removed { path } => format!(in alloc; "removed {path}\n"),
        Event::Started { rule } => format!(in alloc; "started {}: {}\n", rule.dir, rule.text),
        Event::Ended { rule, verdict } => {
            let worth = worth(verdict);
            format!(in alloc; "ended {}: {}: {worth}\n", rule.dir, rule.text)
        }
    };
    Ok(Bytes::new(line?.into_bytes()))
}

/// Whether a verdict is good, in a word.
fn worth(verdict: &Verdict) -> &'static str
    ensures { result.now ≡ specs.worth verdict.now }
{
    match verdict {
        Verdict::Good => "good",
        _ => "bad",
    }
}
