//! How a graph takes a record.
ghost use Rattle.std.specs.Prelude.{◌≡◌, ◌++◌, ◌∷◌, [], OnOk, IfErr};
ghost use Rattle.std.specs.FinMap as finite;
ghost use Rattle.std.specs.Option.{option_copied};
ghost use Rattle.tup_graph.specs.Graph.{empty_graph};
ghost use Rattle.tup_graph.specs.Late.{AreApart, IsHeld, with_late};
ghost use Rattle.tup_graph.specs.Opening.{fits as fits_of, put as put_of, comes_behind, last_of};

use crate::fault::GraphFault;
use crate::late::Late;
use crate::nodes::Nodes;
use crate::owned::Owned;
use std::cmp::Ordering;
use tup_path::Items;
use tup_record::Record;
use tup_rule::Rule;

impl Nodes {
    /// Whether a record fits behind those that made this graph.
    pub(crate) fn fits(&self, entry: &Record) -> bool
        ensures { result ≡ fits_of self.now entry.now }
    {
        match entry {
            Record::Rule {
                number,
                place,
                rule,
            } => *number as usize == self.rules.len() && self.is_behind(rule, *place),
            Record::Run { number, .. } | Record::Modify { number } => self.is_rule(*number),
            Record::Owned {
                maker: Some(number),
                ..
            } => self.is_rule(*number),
            _ => true,
        }
    }

    /// Whether a rule with this place comes behind the last one.
    fn is_behind(&self, rule: &Rule, place: u32) -> bool
        ensures { result
            ≡ comes_behind (last_of self.now.rules) (last_of self.now.places) rule.now place }
    {
        let Some(last) = self.rules.as_slice().last() else {
            return true;
        };
        let Some(before) = self.places.as_slice().last() else {
            return true;
        };
        match last.dir.cmp(&rule.dir) {
            Ordering::Less => true,
            Ordering::Equal => *before < place,
            Ordering::Greater => false,
        }
    }

    /// Takes a record in, in the place of the one that says the same of the same thing. After a refusal the graph is of
    /// no use where the record is one of a rule, and as it was where it is any other.
    pub(crate) fn put(&mut self, entry: Record) -> Result<(), GraphFault>
        ensures ok { OnOk result (self.new ≡ put_of self.old entry) }
        ensures err { IfErr result (λ fault. fault ≡ GraphFault.Memory) }
    {
        match entry {
            Record::Seen { path, stamp } => Ok(self.seen.insert(path, stamp)?),
            Record::Reading { dir, reading } => Ok(self.readings.insert(dir, reading)?),
            Record::Rule { place, rule, .. } => {
                self.rules.push(rule)?;
                self.places.push(place)?;
                Ok(())
            }
            Record::Run { number, run } => Ok(self.runs.insert(number, run)?),
            Record::Owned { path, maker, state } => {
                Ok(self.owned.insert(path, Owned { maker, state })?)
            }
            Record::Create { dir } => Ok(self.created.insert(dir, ())?),
            Record::Modify { number } => Ok(self.flags.insert(number, ())?),
        }
    }

    /// Takes a record in, or holds it behind those that are put in last. After a refusal the graph is of no use.
    pub(crate) fn hold(&mut self, late: &mut Items<Late>, entry: Record) -> Result<(), GraphFault>
        ensures ok { OnOk result (IsHeld entry self.old late.old self.new late.new) }
        ensures err { IfErr result (λ fault. fault ≡ GraphFault.Memory) }
    {
        match entry {
            Record::Seen { path, stamp } => Ok(late.push(Late::Seen { path, stamp })?),
            Record::Owned { path, maker, state } => {
                let owned = Owned { maker, state };
                Ok(late.push(Late::Owned { path, owned })?)
            }
            other => self.put(other),
        }
    }

    /// Puts in the records that were held, the last one first. They were held in the order of keys, in which paths ascend whose
    /// names are as long as each other. So many come before all that are there, and a map compares them with one path of each
    /// node alone.
    pub(crate) fn put_late(&mut self, late: Items<Late>) -> Result<(), GraphFault>
        requires { AreApart late }
        ensures ok { OnOk result (self.new ≡ with_late self.old late) }
        ensures err { IfErr result (λ fault. fault ≡ GraphFault.Memory) }
    {
        let mut left = late.into_vec();
        'left: while let Some(one) = left.pop() {
            self.put(one.into_record())?;
        }
        Ok(())
    }
}
