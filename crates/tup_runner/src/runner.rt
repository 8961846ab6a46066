//! What runs commands.
ghost use Rattle.std.specs.Prelude.{◌≡◌, ℕ, Bool, List, None, IsTrue};
ghost use Rattle.tup_path.specs.Name.{Names};
ghost use Rattle.tup_runner.specs.Next.{Next};
ghost use Rattle.tup_runner.specs.Run.{RunsAs, Appends, CountsFaults};

use crate::fault::RunFailed;
use crate::step::Ended;
use crate::view::View;
use std::alloc::Global;
use tup_path::{Path, Text};

/// What runs commands. Its meaning belongs to its type: all runners of one type mean the same.
pub trait Runner: Drop {
    /// Whether runners of this type tell their meaning.
    ghost tells: { Bool };

    /// What a command does next.
    ghost next: { Next };

    /// Whether runners of this type tell what they ran.
    ghost tells_ran: { Bool };

    /// What the runner was asked to run: folders and commands.
    ghost ran: { Self → List (Names × List ℕ) };

    /// How often it has failed; it stands still at the last `u64`.
    ghost faults: { Self → ℕ };

    /// Runs a command in a folder through a view, which has refused nothing yet.
    ///
    /// `Denied` and `View` come exactly where the view answered `Denied` or `Fault` in this call; nothing is asked
    /// after that. `Fault` comes only where the count rose, or stands at the last `u64`. `Memory` is the view's or the
    /// runner's own; the runner may then not have noted what it was asked to run.
    fn run<V: View>(
        &mut self,
        alloc: Global,
        dir: &Path,
        text: &Text,
        view: &mut V,
    ) -> Result<Ended, RunFailed>
        requires { V.refusal view.old ≡ None }
        ensures means { RunsAs tells (next dir.now text.now) (λ asks. V.came view.old asks view.new)
            (V.refusal view.new) result }
        ensures ran { IsTrue tells_ran
            → Appends (dir.now, text.now) (ran self.old) (ran self.new) result }
        ensures cause { CountsFaults (faults self.old) (faults self.new) result }
        ensures same { V.same view.old view.new };

    /// How often the runner has failed.
    fn faults(&self) -> u64
        ensures { result ≡ faults self.now };
}
