//! The work of one hand.
ghost use Rattle.tup_workers.specs.Works.{IsReady, Worked};

use crate::gate::{Gate, When};
use crate::hand::Hand;
use crate::performing::run;
use crossbeam_utils::Backoff;
use std::alloc::Global;
use std::sync::Wait;
use tup_board::{Claimed, Shared};
use tup_core::Plan;

/// Claims one rule after another and runs its command, until the board is over.
///
/// It stops the board with `Run` only where its runner failed, and otherwise only with `Memory`.
pub fn work<W: Wait, L: Shared, G: Gate>(
    rt: &W,
    alloc: Global,
    lock: &L,
    hand: &mut Hand<L::Seat, L::Runner>,
    plan: &Plan,
    gate: &G,
)
    requires { IsReady (L.belongs lock.now) L.plan_of L.entries plan.now hand.old }
    ensures { Worked (L.belongs lock.now) L.number_of L.plan_of L.entries L.Runner.Runner plan.now hand.old hand.new }
{
    let mut backoff = Backoff::new();
    for _ in rt.forever() {
        match lock.claim(&mut hand.seat, plan) {
            Claimed::Rule(rule) => {
                gate.pass(lock.number(&hand.seat), When::Claimed);
                if !run(alloc, lock, hand, plan, rule, gate) {
                    return;
                }
                backoff = Backoff::new();
            }
            Claimed::Wait => backoff.snooze(),
            Claimed::Over => return,
        }
    }
    unreachable!()
}
