//! Whether the run of a rule asked or wrote another content, or was told of a folder that came or went.
ghost use Rattle.std.specs.Prelude.{◌≡◌, ◌≢◌, false};
ghost use Rattle.std.specs.Bool.{Decides};
ghost use Rattle.std.specs.FinMap as finite;
ghost use Rattle.tup_rule.specs.Rule.{writes};
ghost use Rattle.tup_graph.specs.Graph.{is_rule};
ghost use Rattle.tup_graph.specs.Scan.{IsTouched};
ghost use Rattle.tup_graph.specs.Turned.{IsTurnedRun};
ghost use Rattle.tup_scan_diff.specs.Present.{graph_of, stamps_in};
ghost use Rattle.tup_scan_diff.specs.Touched.{AsksOther, WroteOther, IsRootIn};
ghost use Rattle.tup_scan_diff.specs.Turned.{AsksTurned, HasTurned, IsToldTurned};

use crate::present::Present;
use tup_path::Path;
use tup_rule::Rule;
use tup_stamp::Stamp;

impl Present<'_> {
    /// Whether a rule is flagged, touched or turned.
    pub(crate) fn is_root(&self, number: u32) -> bool
        requires { HasTurned self.now }
        ensures { Decides result (IsRootIn self.now number) }
    {
        if !self.is_rule(number) {
            return false;
        }
        if self.nodes.flagged(number) {
            return true;
        }
        if self.is_touched(number) {
            return true;
        }
        self.is_turned(number)
    }

    /// Whether a rule has this number.
    fn is_rule(&self, number: u32) -> bool
        ensures { result ≡ is_rule self.now.nodes.now number }
    {
        (number as usize) < self.nodes.rules().len()
    }

    /// Whether the run of a rule asked or wrote other contents than those that are seen now.
    fn is_touched(&self, number: u32) -> bool
        ensures { Decides result (IsTouched (graph_of self.now) number) }
    {
        let Some(rule) = self.nodes.rules().get(number as usize) else {
            return false;
        };
        let Some(run) = self.nodes.run_of(number) else {
            return false;
        };
        if self.asks_other(rule, run.asks.as_slice()) {
            return true;
        }
        self.wrote_other(run.writes.as_slice())
    }

    /// Whether one of some asks, outputs of the rule aside, was told another content than that of now.
    fn asks_other(&self, rule: &Rule, asks: &[(Path, Option<Stamp>)]) -> bool
        ensures { Decides result (AsksOther (graph_of self.now) rule.now asks.now) }
    {
        for (path, given) in asks {
            if self.is_other(rule, path, *given) {
                return true;
            }
        }
        false
    }

    /// Whether a path is no output of a rule, and has another stamp now.
    fn is_other(&self, rule: &Rule, path: &Path, given: Option<Stamp>) -> bool
        ensures { Decides result ((writes rule.now path.now ≡ false)
            × (given ≢ finite.get (stamps_in self.now) path.now)) }
    {
        if rule.writes(path) {
            return false;
        }
        !self.sees(path, given)
    }

    /// Whether one of some files was written with another content than that of now.
    fn wrote_other(&self, writes: &[(Path, Stamp)]) -> bool
        ensures { Decides result (WroteOther (graph_of self.now) writes.now) }
    {
        for (path, given) in writes {
            if !self.sees(path, Some(*given)) {
                return true;
            }
        }
        false
    }

    /// Whether the run of a rule was told that no file stands where a folder came or went.
    fn is_turned(&self, number: u32) -> bool
        requires { HasTurned self.now }
        ensures { Decides result (IsTurnedRun self.now.nodes.now (graph_of self.now) number) }
    {
        let Some(rule) = self.nodes.rules().get(number as usize) else {
            return false;
        };
        let Some(run) = self.nodes.run_of(number) else {
            return false;
        };
        self.asks_turned(rule, run.asks.as_slice())
    }

    /// Whether one of some asks, outputs of the rule aside, was told that no file stands where a folder came or went.
    fn asks_turned(&self, rule: &Rule, asks: &[(Path, Option<Stamp>)]) -> bool
        requires { HasTurned self.now }
        ensures { Decides result (AsksTurned self.now rule.now asks.now) }
    {
        for (path, given) in asks {
            if self.is_told_turned(rule, path, *given) {
                return true;
            }
        }
        false
    }

    /// Whether a path is no output of a rule, was told to have no file, and is a folder that came or went.
    fn is_told_turned(&self, rule: &Rule, path: &Path, given: Option<Stamp>) -> bool
        requires { HasTurned self.now }
        ensures { Decides result (IsToldTurned self.now rule.now path.now given) }
    {
        if given.is_some() {
            return false;
        }
        if !self.turned.contains(path) {
            return false;
        }
        !rule.writes(path)
    }

    /// Whether a path has this stamp now, or no file.
    fn sees(&self, path: &Path, given: Option<Stamp>) -> bool
        ensures { Decides result (given ≡ finite.get (stamps_in self.now) path.now) }
    {
        given == self.stamps.get(self.nodes, path)
    }
}
