//! The sources and the rules that rows give.
use std::alloc::Global;
use tup_path::{Bytes, Files, Items};
use tup_rows::Words;
use tup_rule::{Rule, Rules};

/// What the rows so far gave.
#[derive(Drop)]
pub struct Project {
    pub sources: Files,
    pub rules: Rules,
}

impl Project {
    /// Nothing yet.
    pub fn new(alloc: Global) -> Project {
        Project {
            sources: Items::new(alloc),
            rules: Items::new(alloc),
        }
    }

    /// Adds a source: its path and its content.
    pub fn add_source(&mut self, alloc: Global, said: &Words) -> Words {
        let path = said.path_at(alloc, 0);
        let content = Bytes::new(said.bytes_at(alloc, 1));
        said.list(&mut self.sources, (path, content));
        Words::new(alloc)
    }

    /// Adds a rule.
    pub fn add_rule(&mut self, alloc: Global, said: &Words) -> Words {
        said.list(&mut self.rules, rule(alloc, said));
        Words::new(alloc)
    }
}

/// A rule: its folder, its command, its inputs, its order-only inputs and its outputs.
fn rule(alloc: Global, said: &Words) -> Rule {
    Rule {
        dir: said.path_at(alloc, 0),
        text: said.text_at(alloc, 1),
        display: None,
        compare: false,
        inputs: said.paths_at(alloc, 2),
        order: said.paths_at(alloc, 3),
        outputs: said.paths_at(alloc, 4),
    }
}
