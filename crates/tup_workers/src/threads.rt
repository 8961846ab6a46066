//! The work of all hands.
ghost use Rattle.std.specs.Prelude.{◌<◌, ◌≤◌, ℕ, length, slice_index_or, All};
ghost use Rattle.tup_workers.specs.Works.{IsReady, Worked};

use crate::claiming::work;
use crate::gate::Gate;
use crate::hand::Hand;
use std::alloc::Global;
use std::sync::Wait;
use std::thread;
use std::thread::Threads;
use tup_board::Shared;
use tup_core::Plan;

/// The work of 1 to 16 hands, each in a thread of its own where one can be made. Where none can be, one hand works after
/// another: the first until the board is over, since no other runs a rule.
pub fn crew<W: Threads + Wait + Sync, L: Shared, G: Gate>(
    rt: &W,
    alloc: Global,
    lock: &L,
    hands: &mut [Hand<L::Seat, L::Runner>],
    plan: &Plan,
    gate: &G,
)
where
    L::Runner: Send,
    requires count { (0 < length hands.old) × (length hands.old ≤ 16) }
    requires ready { All (IsReady (L.belongs lock.now) L.plan_of L.entries plan.now) hands.old }
    ensures { (i : ℕ) (d : Hand L.Seat L.Runner) → i < length hands.old
        → Worked (L.belongs lock.now) L.number_of L.plan_of L.entries L.Runner.Runner plan.now
        (slice_index_or hands.old i d) (slice_index_or hands.new i d) }
{
    thread::for_each_mut(
        rt,
        hands,
        16,
        &|_, hand: &mut Hand<L::Seat, L::Runner>|
            requires { IsReady (L.belongs lock.now) L.plan_of L.entries plan.now hand.now }
            ensures { Worked (L.belongs lock.entry.now) L.number_of L.plan_of L.entries L.Runner.Runner plan.entry.now hand.entry.now hand.exit.now }
        { work(rt, alloc, lock, hand, plan, gate) },
    );
}
