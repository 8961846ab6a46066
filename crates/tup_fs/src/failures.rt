//! The failures of a site, counted.
ghost use Rattle.std.specs.Prelude.{◌≡◌, Ok, IfOk, IfErr, is_some, nat_lt};
ghost use Rattle.tup_fs.specs.Last.{last_after, last_after_sync, CountsPlainly, IsRefusalOf};

use tup_disk::{Failure, Refused};
use tup_site::SiteFailed;

/// How often the system has failed, and its last failure; but of syncs behind a failure, that one.
#[derive(Drop)]
pub(crate) struct Failures {
    last: Option<Failure>,
    count: u64,
    ghost keeps_last: { is_some last ≡ nat_lt 0 count },
}

impl Failures {
    pub fn none() -> Failures
        ensures { result.count ≡ 0 }
    {
        Failures {
            last: None,
            count: 0,
        }
    }

    pub fn last(&self) -> Option<&Failure>
        ensures { is_some result ≡ nat_lt 0 self.now.count }
    {
        self.last.as_ref()
    }

    pub fn count(&self) -> u64
        ensures { result ≡ self.now.count }
    {
        self.count
    }

    /// An answer as the site gives it. Each failure is counted and kept.
    pub fn told<T>(&mut self, answer: Result<T, Refused>) -> Result<T, SiteFailed>
        ensures cause { CountsPlainly self.old.count self.new.count result }
        ensures value { IfOk result (λ value. answer ≡ Ok value) }
        ensures error { IfErr result (IsRefusalOf answer) }
        ensures last { self.new.last ≡ last_after answer self.old.last }
    {
        match answer {
            Ok(value) => Ok(value),
            Err(Refused::Memory) => Err(SiteFailed::Memory),
            Err(Refused::Failed(failure)) => {
                self.last = Some(failure);
                self.count = self.count.saturating_add(1);
                Err(SiteFailed::Fault)
            }
        }
    }

    /// The answer of a sync. It may be refused for what an earlier failure lost, so its failure is
    /// kept only where there is none.
    pub fn told_of_sync(&mut self, answer: Result<(), Refused>) -> Result<(), SiteFailed>
        ensures cause { CountsPlainly self.old.count self.new.count result }
        ensures value { IfOk result (λ value. answer ≡ Ok value) }
        ensures error { IfErr result (IsRefusalOf answer) }
        ensures last { self.new.last ≡ last_after_sync answer self.old.last }
    {
        match answer {
            Err(Refused::Failed(_)) if self.last.is_some() => {
                self.count = self.count.saturating_add(1);
                Err(SiteFailed::Fault)
            }
            answer => self.told(answer),
        }
    }
}
