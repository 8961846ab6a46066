//! An update that is stopped after each of its calls, or of which each call fails, and the updates behind it.
use crate::table::Table;
use crate::trial::{Left, Step, all_files, made, updated};
use std::alloc::Global;
use std::sync::Wait;
use std::thread::Threads;
use tup_rows::{RowFault, Words};
use tup_site::{Choice, MemSite, Site, Tear};

/// An update has fewer calls of the site than this.
const MAX_CALLS: u64 = 1000;

/// The exit number of an update of which a call failed.
const SITE_FAULT: u8 = 7;

/// A project up to the update that is disturbed, which so many runners carry out.
#[derive(Drop)]
struct Disturbed<'a, W: Threads + Wait + Sync> {
    rt: &'a W,
    steps: &'a [Step],
    said: &'a Words,
    runners: u64,
    /// How many calls the steps before it make.
    calls: u64,
    /// How it ends where it isn't disturbed, and the files that it leaves then.
    exit: u8,
    files: Vec<u8>,
}

/// Stops the next update after each number of its calls, and crashes it there in each way. The word of the row is the number of
/// runners.
pub(crate) fn stopped<W: Threads + Wait + Sync>(
    rt: &W,
    alloc: Global,
    steps: &[Step],
    said: &Words,
) -> Result<Words, RowFault> {
    let disturbed = Disturbed::new(rt, alloc, steps, said)?;
    let mut table = Table::of_runners(alloc, disturbed.runners);
    for stop in 0..MAX_CALLS {
        if disturbed.stop(alloc, &mut table, stop)? {
            return Ok(table.words(alloc, stop));
        }
    }
    Err(RowFault::OtherKind)
}

/// Has each call of the next update fail, without a crash.
pub(crate) fn failed<W: Threads + Wait + Sync>(
    rt: &W,
    alloc: Global,
    steps: &[Step],
    said: &Words,
) -> Result<Words, RowFault> {
    let disturbed = Disturbed::new(rt, alloc, steps, said)?;
    let mut table = Table::new(alloc);
    for call in 0..MAX_CALLS {
        if disturbed.fail(alloc, &mut table, call)? {
            return Ok(table.words(alloc, call));
        }
    }
    Err(RowFault::OtherKind)
}

impl<'a, W: Threads + Wait + Sync> Disturbed<'a, W> {
    fn new(
        rt: &'a W,
        alloc: Global,
        steps: &'a [Step],
        said: &'a Words,
    ) -> Result<Disturbed<'a, W>, RowFault> {
        let site = made(rt, alloc, steps, 0)?;
        let calls = site.calls();
        let mut wanted = updated(rt, alloc, site, 1)?;
        let files = all_files(alloc, &mut wanted.site)?;
        Ok(Disturbed {
            rt,
            steps,
            said,
            runners: said.number_at(0),
            calls,
            exit: wanted.exit,
            files,
        })
    }

    /// Stops the update after so many calls, and crashes it in each way. Whether it met no stop.
    fn stop(&self, alloc: Global, table: &mut Table, stop: u64) -> Result<bool, RowFault> {
        let mut is_over = false;
        for tear in [Tear::Kept, Tear::Lost, Tear::Torn] {
            is_over = self.stop_and_tear(alloc, table, stop, tear)?;
        }
        Ok(is_over)
    }

    fn stop_and_tear(
        &self,
        alloc: Global,
        table: &mut Table,
        stop: u64,
        tear: Tear,
    ) -> Result<bool, RowFault> {
        let mut site = made(self.rt, alloc, self.steps, 0)?;
        site.stop_after(stop);
        match updated(self.rt, alloc, site, self.runners) {
            Ok(left) => self.tear(alloc, table, left, tear, stop),
            Err(fault) => Err(fault),
        }
    }

    fn tear(
        &self,
        alloc: Global,
        table: &mut Table,
        mut left: Left,
        tear: Tear,
        stop: u64,
    ) -> Result<bool, RowFault> {
        self.expect_fault(alloc, table, &left, "stopped", stop);
        let is_over = left.site.faults() == 0;
        match torn(alloc, &mut left.site, tear) {
            Ok(is_torn) => {
                table.tear(is_torn);
                self.go_on(alloc, table, left.site, name_of(tear), stop)?;
                Ok(is_over)
            }
            Err(fault) => {
                drop(left);
                Err(fault)
            }
        }
    }

    /// Has this call of the update fail, counted from 0. Whether the update had no such call.
    fn fail(&self, alloc: Global, table: &mut Table, call: u64) -> Result<bool, RowFault> {
        let number = self.calls.saturating_add(call).saturating_add(1);
        let site = made(self.rt, alloc, self.steps, number)?;
        match updated(self.rt, alloc, site, self.runners) {
            Ok(left) => self.behind_failure(alloc, table, left, call),
            Err(fault) => Err(fault),
        }
    }

    fn behind_failure(
        &self,
        alloc: Global,
        table: &mut Table,
        left: Left,
        call: u64,
    ) -> Result<bool, RowFault> {
        self.expect_fault(alloc, table, &left, "failed", call);
        if left.site.faults() == 0 {
            drop(left);
            return Ok(true);
        }
        self.go_on(alloc, table, left.site, "failed", call)?;
        Ok(false)
    }

    /// An update of which a call fails says so.
    fn expect_fault(&self, alloc: Global, table: &mut Table, left: &Left, way: &str, at: u64) {
        if left.site.faults() > 0 && left.exit != SITE_FAULT {
            table.blame(alloc, self.said, way, at, left.exit);
        }
    }

    /// The next update ends as the one that isn't disturbed, and leaves the same files.
    fn go_on(
        &self,
        alloc: Global,
        table: &mut Table,
        site: MemSite,
        way: &str,
        at: u64,
    ) -> Result<(), RowFault> {
        let mut next = updated(self.rt, alloc, site, self.runners)?;
        table.take(next.exit);
        let files = all_files(alloc, &mut next.site)?;
        if next.exit != self.exit || files != self.files {
            table.blame(alloc, self.said, way, at, next.exit);
        }
        self.end(alloc, table, next.site, at)
    }

    /// The one behind that ends so too, and begins no command.
    fn end(
        &self,
        alloc: Global,
        table: &mut Table,
        site: MemSite,
        at: u64,
    ) -> Result<(), RowFault> {
        let last = updated(self.rt, alloc, site, self.runners)?;
        if last.exit != self.exit || last.begun > 0 {
            table.blame(alloc, self.said, "at the end", at, last.exit);
        }
        drop(last);
        Ok(())
    }
}

/// What a row calls it.
fn name_of(tear: Tear) -> &'static str {
    match tear {
        Tear::Kept => "kept",
        Tear::Lost => "lost",
        Tear::Torn => "torn",
    }
}

/// Crashes a site, and tells whether anything was lost or torn by that.
fn torn(alloc: Global, site: &mut MemSite, tear: Tear) -> Result<bool, RowFault> {
    match site.choice(alloc, tear) {
        Ok(choice) => crashed(alloc, site, choice),
        Err(_) => Err(RowFault::Memory),
    }
}

fn crashed(alloc: Global, site: &mut MemSite, choice: Choice) -> Result<bool, RowFault> {
    let is_torn = choice.tree.len() > 0 || choice.db.as_slice() != site.store();
    match site.crash(alloc, choice) {
        Ok(()) => Ok(is_torn),
        Err(_) => Err(RowFault::OtherKind),
    }
}
