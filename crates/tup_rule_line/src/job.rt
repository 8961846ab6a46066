//! The commands of a rule line.
use tup_path::{Items, Paths, Text};
use tup_rule::{GroupRef, GroupRefs, Pieces};

/// The files of one command, and what a glob matched where one gave the only file.
#[derive(Drop)]
pub(crate) struct Job {
    pub(crate) inputs: Paths,
    pub(crate) glob: Option<Text>,
}

/// What all commands of a rule line share.
#[derive(Drop)]
pub(crate) struct Sources {
    pub(crate) order: Paths,
    pub(crate) groups: GroupRefs,
    pub(crate) gives: Option<GroupRef>,
}

/// What all commands of a rule line share, and these.
#[derive(Drop)]
pub(crate) struct Plan {
    pub(crate) sources: Sources,
    pub(crate) jobs: Items<Job>,
}

/// What a command says, and what is shown in its place.
#[derive(Drop)]
pub(crate) struct Spoken {
    pub(crate) pieces: Pieces,
    pub(crate) display: Option<Pieces>,
    pub(crate) compare: bool,
}
