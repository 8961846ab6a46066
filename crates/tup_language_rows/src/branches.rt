//! The calls of `vars.rows` on conditionals.
use std::alloc::Global;
use tup_rows::{RowFault, Words};
use tup_vars::{Branches, VarFault};

pub(crate) fn answer(alloc: Global, branches: &mut Branches, call: &str, said: &Words) -> Words {
    match call {
        "if" => open(alloc, branches, said),
        "else" => turn(alloc, branches),
        "endif" => close(alloc, branches),
        "end" => end(alloc, branches),
        _ => Words::none(alloc, RowFault::NoSuchCall),
    }
}

fn open(alloc: Global, branches: &mut Branches, said: &Words) -> Words {
    match u32::try_from(said.number_at(0)) {
        Ok(line) => {
            let opened = branches.enter(line, said.str_at(1) == "on");
            state(alloc, branches, &opened)
        }
        Err(_) => Words::none(alloc, RowFault::OtherKind),
    }
}

fn turn(alloc: Global, branches: &mut Branches) -> Words {
    let turned = branches.other();
    state(alloc, branches, &turned)
}

fn close(alloc: Global, branches: &mut Branches) -> Words {
    let closed = branches.leave();
    state(alloc, branches, &closed)
}

/// Whether lines count after a call, or why it was refused.
fn state(alloc: Global, branches: &Branches, call: &Result<(), VarFault>) -> Words {
    match call {
        Ok(()) => Words::word(alloc, if branches.on() { b"on" } else { b"off" }),
        Err(fault) => Words::refusal(alloc, fault),
    }
}

fn end(alloc: Global, branches: &Branches) -> Words {
    match branches.end() {
        Ok(()) => Words::done(alloc),
        Err(fault) => Words::refusal(alloc, &fault),
    }
}
