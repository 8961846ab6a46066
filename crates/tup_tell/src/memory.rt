//! A sink in memory, for tests and for looking at lines.
ghost use Rattle.std.specs.Prelude.{◌≡◌, ◌++◌, ◌+◌, ◌-◌, ◌^◌, ◌↔◌, [], true, min, IsTrue, IfOk, IsErrOf, OnErr, OnOk, Contains};
ghost use Rattle.tup_tell.specs.Sink.{CountsFaults};
ghost use Rattle.tup_tell.specs.declared.sink.SinkFailed.TheVariants.{Fault};

use crate::sink::{Sink, SinkFailed};
use std::alloc::Global;
use tup_path::Bytes;

/// A sink that keeps what it was given. Its writes are numbered from 1; those whose number was
/// given to `new` are faults, and no others.
#[derive(Drop)]
pub struct MemSink {
    bytes: Bytes,
    fails: Vec<u64>,
    writes: u64,
    faults: u64,
}

impl MemSink {
    ghost use Rattle.tup_tell.specs.Memory.{held_of, fails_of, writes_of, faults_of};

    /// An empty sink whose writes of these numbers fail.
    pub fn new(alloc: Global, fails: Vec<u64>) -> MemSink
        ensures empty { held_of result ≡ [] }
        ensures fails { fails_of result ≡ fails.items }
        ensures unused { writes_of result ≡ 0 }
        ensures faultless { faults_of result ≡ 0 }
    {
        MemSink {
            bytes: Bytes::new(Vec::new(alloc)),
            fails,
            writes: 0,
            faults: 0,
        }
    }

    /// What the sink was given so far.
    pub fn bytes(&self) -> &Bytes
        ensures { result.now ≡ held_of self.now }
    {
        &self.bytes
    }
}

impl Sink for MemSink {
    ghost use Rattle.tup_tell.specs.Memory.{held_of, fails_of, writes_of, faults_of};

    ghost tells = { true };

    ghost held = { held_of };

    ghost faults = { faults_of };

    fn write(&mut self, _alloc: Global, bytes: &Bytes) -> Result<(), SinkFailed>
        ensures written { OnOk result (held_of self.new ≡ held_of self.old ++ bytes.now) }
        ensures unchanged { OnErr result (held_of self.new ≡ held_of self.old) }
        ensures cause { CountsFaults (faults_of self.old) (faults_of self.new) result }

        // Just the writes whose number was given are faults.
        ensures counted { writes_of self.new ≡ min (writes_of self.old + 1) (2 ^ 64 - 1) }
        ensures fault { IsErrOf result Fault ↔ Contains (fails_of self.old) (writes_of self.new) }
        ensures fails { fails_of self.new ≡ fails_of self.old }
    {
        self.writes = self.writes.saturating_add(1);
        if self.fails.contains(&self.writes) {
            self.faults = self.faults.saturating_add(1);
            return Err(SinkFailed::Fault);
        }
        self.bytes.extend_from_slice(bytes.as_slice())?;
        Ok(())
    }

    fn faults(&self) -> u64 {
        self.faults
    }
}

#[cfg(test)]
mod tests {
    use super::*;
    use std::test::Fail;

    #[test]
    fn keeps_all_but_the_writes_that_fail(rt: HostRuntime) -> Result<(), Fail> {
        let alloc = rt.alloc();
        let mut sink = MemSink::new(alloc, vec![in alloc; 2]?);
        let line = Bytes::new(Vec::from_slice(alloc, b"read .\n")?);
        assert_eq!(rt; sink.write(alloc, &line), Ok(()));
        assert_eq!(rt; sink.write(alloc, &line), Err(SinkFailed::Fault));
        assert_eq!(rt; sink.write(alloc, &line), Ok(()));
        assert_eq!(rt; sink.bytes().as_slice(), b"read .\nread .\n".as_slice());
        assert_eq!(rt; sink.faults(), 1);
        Ok(())
    }
}
