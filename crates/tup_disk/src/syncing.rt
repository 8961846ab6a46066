//! Many places, made durable in several threads.
ghost use Rattle.std.specs.Prelude.{◌≡◌, ◌⊎◌, ◌<◌, ℕ, All, Err, length, slice_index_or, false, IfErr, IfOk, OnOk, OnErr, IsErr, IsTrue, string_bytes};
ghost use Rattle.std.specs.BTreeSet.{IsEmpty};
ghost use Rattle.std.specs.List.{Any};
ghost use Rattle.tup_disk.specs.Jobs.{IsOneOf, IsTried};
ghost use Rattle.tup_disk.specs.Told.{IsOwn, IsUnsynced, IsUnsyncedAmong};
ghost use Rattle.tup_disk.specs.declared.failure.Operation.TheVariants as operation;
ghost use Rattle.tup_disk.specs.declared.failure.Refused.TheVariants.{Memory};

use crate::disk::Disk;
use crate::failure::Refused;
use crate::touched::Touched;
use std::alloc::{AllocError, Global};
use std::collections::BTreeSet;
use std::rt::HostRuntime;
use std::thread;
use std::thread::Threads;

/// A place, and how its sync ended.
#[derive(Drop)]
struct Job {
    place: String,
    done: Result<(), Refused>,
}

impl Touched {
    /// Makes durable what was touched, as `settle` does, in so many threads at most.
    pub fn settle_by<W: Threads + Sync>(
        &mut self,
        rt: &W,
        disk: &Disk<HostRuntime>,
        threads: usize,
    ) -> Result<(), Refused>
        ensures settled { OnOk result (IsEmpty self.new.places) }
        ensures kept { OnErr result (self.new.places ≡ self.old.places) }
        ensures lost { OnErr result (IsTrue self.new.is_lost) }
        ensures none_lost { OnOk result (self.new.is_lost ≡ false) }
        ensures for_good { IsTrue self.old.is_lost → IsErr result }
        ensures cause { IfErr result (λ refused.
            (IsTrue self.old.is_lost
            × IsOwn operation.Sync (string_bytes disk.now.root) refused)
            ⊎ (refused ≡ Memory) ⊎ IsUnsyncedAmong self.old.places refused) }
    {
        if self.is_lost {
            return Err(disk.lost(disk.root()));
        }
        self.is_lost = true;
        sync_by(rt, disk, &self.places, threads)?;
        self.places.clear();
        self.is_lost = false;
        Ok(())
    }
}

/// Makes these places durable, in so many threads at most. What the system refused first in their order is the answer.
fn sync_by<W: Threads + Sync>(
    rt: &W,
    disk: &Disk<HostRuntime>,
    places: &BTreeSet<String>,
    threads: usize,
) -> Result<(), Refused>
    ensures cause { IfErr result (λ refused. (refused ≡ Memory) ⊎ IsUnsyncedAmong places.now refused) }
{
    let mut jobs = jobs_of(disk.alloc, places)?;
    sync_all(rt, disk, jobs.as_mut_slice(), threads.max(1));
    first_refused(jobs)
}

/// What the first of these jobs was refused for, if one was.
fn first_refused(jobs: Vec<Job>) -> Result<(), Refused>
    ensures { IfErr result (λ refused. Any (λ job. job.done ≡ Err refused) jobs.items) }
{
    for job in jobs {
        job.done?;
    }
    Ok(())
}

fn jobs_of(alloc: Global, places: &BTreeSet<String>) -> Result<Vec<Job>, AllocError>
    ensures { IfOk result (λ jobs. All (IsOneOf places.now) jobs.items) }
{
    let mut jobs = Vec::new(alloc);
    for place in places.iter() {
        jobs.push(Job {
            place: place.clone()?,
            done: Ok(()),
        })?;
    }
    Ok(jobs)
}

fn sync_all<W: Threads + Sync>(rt: &W, disk: &Disk<HostRuntime>, jobs: &mut [Job], threads: usize)
    requires { 0 < threads }
    ensures { (i : ℕ) (d : Job) → i < length jobs.old
        → IsTried (slice_index_or jobs.old i d) (slice_index_or jobs.new i d) }
{
    thread::for_each_mut(
        rt,
        jobs,
        threads,
        &|_, job: &mut Job|
            ensures { IsTried job.entry.now job.exit.now }
        { job.done = disk.sync(job.place.as_str()) },
    );
}
