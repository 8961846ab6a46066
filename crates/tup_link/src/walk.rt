//! A depth-first walk through a graph, for a circle in it.
ghost use Rattle.std.specs.Prelude.{◌≡◌, ℕ, List, ◌+◌, ◌^◌, ◌<◌, [], length, replicate, slice_index, slice_get, MatchOption, IfOk, IfSome, OnOk};
ghost use Rattle.tup_link.specs.Circle.{IsRound};
ghost use Rattle.tup_link.specs.Graph.{Leads, IsWithin, HasNoCircle, led_to};
ghost use Rattle.tup_link.specs.Walk.{IsWalk, IsAt, IsOver, Begins, Enters, Leaves, Passes, GoesOn, LeadsBack, steps_left};

use crate::places::{Places, add_all, index_of};
use std::alloc::{AllocError, Global};
use tup_path::Items;

/// How far a walk is with a place.
#[derive(Clone, Copy)]
pub(crate) enum State {
    /// It didn't come there yet.
    New,
    /// It stands on the way.
    OnWay,
    /// All that it leads to is done.
    Done,
}

/// A walk through a graph.
#[derive(Drop)]
pub(crate) struct Walk {
    /// The state of each place.
    states: Vec<State>,
    /// For each place, how many of those to which it leads are passed: they are done.
    passed: Vec<usize>,
    /// The places from where the walk began to where it is; each leads to the next one.
    way: Vec<usize>,
}

/// Places each of which leads to the next one, and the last to the first, if there are such.
pub(crate) fn way_round(alloc: Global, graph: &[Places]) -> Result<Option<Places>, AllocError>
    requires { IsWithin graph.now }
    ensures { IfOk result (λ way.
        MatchOption way (HasNoCircle graph.now) (IsRound (Leads graph.now))) }
{
    let mut walk = Walk::new(alloc, graph.len())?;
    for from in 0..graph.len() {
        if let Some(back) = walk.go(graph, from)? {
            return Ok(Some(walk.round(alloc, back)?));
        }
    }
    Ok(None)
}

impl Walk {
    /// A walk through so many places that came to none yet.
    fn new(alloc: Global, count: usize) -> Result<Walk, AllocError>
        ensures states { IfOk result (λ walk. walk.states.items ≡ replicate count State.New) }
        ensures passed { IfOk result (λ walk. walk.passed.items ≡ replicate count 0) }
        ensures way { IfOk result (λ walk. walk.way.items ≡ []) }
    {
        let mut walk = Walk {
            states: Vec::new(alloc),
            passed: Vec::new(alloc),
            way: Vec::new(alloc),
        };
        for _ in 0..count {
            walk.states.push(State::New)?;
            walk.passed.push(0)?;
        }
        Ok(walk)
    }

    /// Goes on from a place until it is done, or until the way leads back to a place on it: to this one.
    fn go(&mut self, graph: &[Places], from: usize) -> Result<Option<usize>, AllocError>
        requires within { IsWithin graph.now }
        requires from { from < length graph.now }
        requires walk { IsWalk graph.now self.old }
        requires way { self.old.way.items ≡ [] }
        ensures on { OnOk result (GoesOn graph.now self.old self.new) }
        ensures over { IfOk result (λ back.
            MatchOption back (IsOver self.new from) (LeadsBack graph.now self.new)) }
    {
        self.begin(from)?;
        'walk: while let Some(at) = self.last() {
            if let Some(back) = self.step(graph, at)? {
                return Ok(Some(back));
            }
        }
        Ok(None)
    }

    /// Enters a place from which to go, if the walk didn't come there yet.
    fn begin(&mut self, from: usize) -> Result<(), AllocError>
        requires from { from < length self.old.states.items }
        requires way { self.old.way.items ≡ [] }
        ensures { OnOk result (Begins from self.old self.new) }
    {
        match self.states[from] {
            State::New => self.enter(from),
            _ => Ok(()),
        }
    }

    /// The last place on the way.
    fn last(&self) -> Option<usize>
        ensures { MatchOption result (self.now.way.items ≡ []) (IsAt self.now) }
    {
        self.way.last().copied()
    }

    /// Goes one step on from the last place on the way. Where that leads back, it is told to which place.
    fn step(&mut self, graph: &[Places], at: usize) -> Result<Option<usize>, AllocError>
        requires within { IsWithin graph.now }
        requires walk { IsWalk graph.now self.old }
        requires at { IsAt self.old at }
        ensures on { OnOk result (GoesOn graph.now self.old self.new) }
        ensures back { IfOk result (λ back. MatchOption back
            (steps_left graph.now self.new < steps_left graph.now self.old)
            (LeadsBack graph.now self.new)) }
    {
        let Some(next) = self.next(graph, at) else {
            self.leave(at);
            return Ok(None);
        };
        match self.states[next] {
            State::New => self.enter(next)?,
            State::OnWay => return Ok(Some(next)),
            State::Done => self.pass(at),
        }
        Ok(None)
    }

    /// The first place to which this one leads and that isn't passed.
    fn next(&self, graph: &[Places], at: usize) -> Option<usize>
        requires graph { at < length graph.now }
        requires passed { at < length self.now.passed.items }
        ensures next { result
            ≡ slice_get (led_to graph.now at) (slice_index self.now.passed.items at) }
        ensures fits { IfSome result (λ _. slice_index self.now.passed.items at + 1 < 2 ^ 64) }
    {
        let list = graph[at].as_slice();
        let passed = self.passed[at];
        if passed < list.len() {
            Some(list[passed])
        } else {
            None
        }
    }

    /// Passes one more of the places to which this one leads.
    fn pass(&mut self, at: usize)
        requires at { at < length self.old.passed.items }
        requires fits { slice_index self.old.passed.items at + 1 < 2 ^ 64 }
        ensures { Passes at self.old self.new }
    {
        self.passed[at] += 1;
    }

    /// Enters a place.
    fn enter(&mut self, at: usize) -> Result<(), AllocError>
        requires { at < length self.old.states.items }
        ensures { OnOk result (Enters at self.old self.new) }
    {
        self.way.push(at)?;
        self.states[at] = State::OnWay;
        Ok(())
    }

    /// Leaves the last place on the way; it is done.
    fn leave(&mut self, at: usize)
        requires at { IsAt self.old at }
        requires state { at < length self.old.states.items }
        ensures { Leaves at self.old self.new }
    {
        self.way.pop();
        self.states[at] = State::Done;
    }

    /// The part of the way from a place on it.
    fn round(&self, alloc: Global, back: usize) -> Result<Places, AllocError>
        ensures { IfOk result (λ places. (graph : List (List ℕ)) → IsWalk graph self.now
            → LeadsBack graph self.now back → IsRound (Leads graph) places) }
    {
        let at = index_of(&self.way, back);
        let mut places = Items::new(alloc);
        add_all(&mut places, &self.way[at..])?;
        Ok(places)
    }
}
