//! A rule as a Tupfile's reading leaves it, before the members of its groups are put in.
ghost use Rattle.std.specs.Prelude.{◌≡◌, IfOk};

use std::alloc::AllocError;
use tup_path::{Items, Path, Paths, Text};

/// A group: the rules of the whole project give files to it, and others take them.
#[derive(Debug, Drop, PartialEq, Eq, Hash)]
pub struct GroupRef {
    /// The folder in which the group stands.
    pub dir: Path,
    /// The name between `<` and `>`.
    pub name: Text,
}

impl Clone for GroupRef {
    ghost is_clone = { λ group copy. copy ≡ group };

    fn clone(&self) -> Result<GroupRef, AllocError> {
        Ok(GroupRef {
            dir: self.dir.clone()?,
            name: self.name.clone()?,
        })
    }
}

/// Groups, in the order in which a rule line names them.
pub type GroupRefs = Items<GroupRef>;

/// A piece of a command whose groups aren't put in yet.
#[derive(Drop, PartialEq, Eq)]
pub enum Piece {
    /// This text.
    Text(Text),
    /// The members of the draft's group at this place, from 0; no text where it has none there.
    Group(u32),
}

impl Clone for Piece {
    ghost is_clone = { λ piece copy. copy ≡ piece };

    fn clone(&self) -> Result<Piece, AllocError> {
        Ok(match self {
            Piece::Text(text) => Piece::Text(text.clone()?),
            Piece::Group(place) => Piece::Group(*place),
        })
    }
}

/// The pieces of a command, in order.
pub type Pieces = Items<Piece>;

/// A rule before the members of its groups are put in.
#[derive(Drop, PartialEq, Eq)]
pub struct Draft {
    /// The file in which the rule line stands.
    pub file: Path,
    /// The line's number in that file, from 1.
    pub line: u32,
    /// The command.
    pub pieces: Pieces,
    /// What is printed in the command's place.
    pub display: Option<Pieces>,
    /// Whether outputs are compared, so that an unchanged one starts nothing.
    pub compare: bool,
    /// The inputs, in the order of the rule line.
    pub inputs: Paths,
    /// The order-only inputs, in the order of the rule line.
    pub order: Paths,
    /// The outputs, extra ones included, in the order of the rule line.
    pub outputs: Paths,
    /// The groups whose members the rule declares, in the order of the rule line.
    pub groups: GroupRefs,
    /// The group to which the outputs are given.
    pub gives: Option<GroupRef>,
}

impl Clone for Draft {
    ghost is_clone = { λ draft copy. copy ≡ draft };

    fn clone(&self) -> Result<Draft, AllocError> {
        Ok(Draft {
            file: self.file.clone()?,
            line: self.line,
            pieces: self.pieces.clone()?,
            display: copied(&self.display)?,
            compare: self.compare,
            inputs: self.inputs.clone()?,
            order: self.order.clone()?,
            outputs: self.outputs.clone()?,
            groups: self.groups.clone()?,
            gives: self.gives.clone()?,
        })
    }
}

fn copied(display: &Option<Pieces>) -> Result<Option<Pieces>, AllocError>
    ensures { IfOk result (λ copy. copy ≡ display.now) }
{
    Ok(match display {
        Some(pieces) => Some(pieces.clone()?),
        None => None,
    })
}

/// The drafts of one reading, in the order of their lines.
pub type Drafts = Items<Draft>;
