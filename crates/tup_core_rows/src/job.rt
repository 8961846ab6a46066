//! A small command, run one ask at a time.
use std::alloc::{AllocError, Global};
use tup_given::Replies;
use tup_mini::Mini;
use tup_path::{Bytes, Items, Text};
use tup_rows::RowFault;
use tup_rule::Rule;
use tup_runner::{Answer, RunFailed, Runner, Stamped, Step};

/// A rule that a seat runs, and what its command was answered so far.
#[derive(Drop)]
pub(crate) struct Job {
    pub(crate) rule: Rule,
    replies: Replies,
}

impl Job {
    /// A rule whose command was answered nothing yet.
    pub(crate) fn new(alloc: Global, rule: Rule) -> Job {
        Job {
            rule,
            replies: Replies::new(Items::new(alloc)),
        }
    }

    /// What the command does next: it runs anew on what it was answered, and what it then asks is
    /// its step.
    pub(crate) fn next(&mut self, alloc: Global) -> Result<Step, RowFault> {
        self.replies.rewind();
        match Mini::new(alloc).run(alloc, &self.rule.dir, &self.rule.text, &mut self.replies) {
            Ok(ended) => Ok(Step::End(ended)),
            Err(RunFailed::Denied) => self.asks_next(),
            Err(_) => Err(RowFault::Memory),
        }
    }

    /// The ask that was denied, as the command's step.
    fn asks_next(&mut self) -> Result<Step, RowFault> {
        match self.replies.take_denied() {
            Some(text) => Ok(Step::Ask(text)),
            None => Err(RowFault::OtherKind),
        }
    }

    /// How often the command was answered.
    pub(crate) fn asked(&self) -> u32 {
        u32::try_from(self.replies.len()).unwrap_or(u32::MAX)
    }

    /// Answers the next ask, by a content or that there is no such file.
    pub(crate) fn reply(&mut self, text: Text, content: Option<&Bytes>) -> Result<(), AllocError> {
        self.replies.add(text, answer(content)?)?;
        Ok(())
    }
}

/// The answer that a content is, or that there is none.
fn answer(content: Option<&Bytes>) -> Result<Answer, AllocError> {
    match content {
        Some(content) => Ok(Answer::Content(Stamped::new(content.clone()?))),
        None => Ok(Answer::Absent),
    }
}
