//! The calls of `vars.rows`.
ghost use Rattle.std.specs.Prelude.{◌≡◌, IfOk};
ghost use Rattle.std.specs.Option.{option_copied};

use crate::{branches, repeated};
use std::alloc::Global;
use std::fs::Files;
use std::io;
use tup_path::{Bytes, Text};
use tup_rows::{Answers, RowFault, Words, set, try_file_by};
use tup_vars::{Branches, Config, Lookup, Stopped, VarFault, Vars, read_config};

pub(crate) fn try_rows<R: Files + Print>(rt: &R, alloc: Global) -> io::Result<()> {
    match Session::new(alloc) {
        Ok(session) => try_file_by(rt, alloc, "vars.rows", session),
        Err(fault) => println!(rt; "vars.rows: {fault}"),
    }
}

/// What the rows above have left.
#[derive(Drop)]
struct Session {
    vars: Vars,
    lookup: Counted,
    cwd: Text,
    branches: Branches,
}

impl Answers for Session {
    fn answer(&mut self, alloc: Global, call: &str, said: &Words) -> Result<Words, RowFault> {
        Ok(match call {
            "fresh" => self.begin(alloc),
            "set" => self.set(alloc, said),
            "set_long" => self.set_long(alloc, said),
            "append" => self.append(alloc, said),
            "cwd" => self.change_directory(alloc, said),
            "answers" => self.answers(alloc, said),
            "expand" => self.expand(alloc, said),
            "expand_long" => self.expand_long(alloc, said),
            "config" | "config_long" | "setting" => self.lookup.answer(alloc, call, said),
            _ => branches::answer(alloc, &mut self.branches, call, said),
        })
    }
}

impl Session {
    /// As `fresh` leaves it.
    fn new(alloc: Global) -> Result<Session, RowFault> {
        let cwd = Text::from_str(alloc, ".")?;
        match Vars::new(alloc) {
            Ok(vars) => Session::with(alloc, cwd, vars),
            Err(_) => Err(RowFault::Memory),
        }
    }

    fn with(alloc: Global, cwd: Text, vars: Vars) -> Result<Session, RowFault> {
        match read_config(alloc, &Bytes::new(Vec::new(alloc))) {
            Ok(config) => Ok(Session {
                vars,
                lookup: Counted::new(config),
                cwd,
                branches: Branches::new(alloc),
            }),
            Err(_) => {
                drop(vars);
                Err(RowFault::Memory)
            }
        }
    }

    fn begin(&mut self, alloc: Global) -> Words {
        match Session::new(alloc) {
            Ok(session) => {
                set(self, session);
                Words::done(alloc)
            }
            Err(fault) => Words::none(alloc, fault),
        }
    }

    fn set(&mut self, alloc: Global, said: &Words) -> Words {
        let name = said.text_at(alloc, 0);
        told(alloc, &self.vars.set(alloc, &name, said.text_at(alloc, 1)))
    }

    fn set_long(&mut self, alloc: Global, said: &Words) -> Words {
        let name = said.text_at(alloc, 0);
        let value = repeated::text(alloc, said, ("", "x", said.number_at(1), ""));
        told(alloc, &self.vars.set(alloc, &name, value))
    }

    fn append(&mut self, alloc: Global, said: &Words) -> Words {
        let name = said.text_at(alloc, 0);
        told(
            alloc,
            &self.vars.append(alloc, &name, &said.text_at(alloc, 1)),
        )
    }

    fn change_directory(&mut self, alloc: Global, said: &Words) -> Words {
        set(&mut self.cwd, said.text_at(alloc, 0));
        Words::done(alloc)
    }

    fn answers(&mut self, alloc: Global, said: &Words) -> Words {
        self.lookup.left = said.number_at(0);
        self.lookup.stopped = false;
        Words::done(alloc)
    }

    fn expand(&mut self, alloc: Global, said: &Words) -> Words {
        Words::given(alloc, &self.expanded(alloc, &said.text_at(alloc, 0)))
    }

    fn expand_long(&mut self, alloc: Global, said: &Words) -> Words {
        let parts = (said.str_at(0), "x", said.number_at(1), said.str_at(2));
        match self.expanded(alloc, &repeated::text(alloc, said, parts)) {
            Ok(text) => Words::shown(alloc, &text.as_str().len()),
            Err(fault) => Words::refusal(alloc, &fault),
        }
    }

    fn expanded(&mut self, alloc: Global, text: &Text) -> Result<Text, VarFault> {
        if self.lookup.stopped {
            return Err(VarFault::Stopped);
        }
        self.vars.expand(alloc, text, &self.cwd, &mut self.lookup)
    }
}

fn told(alloc: Global, call: &Result<(), VarFault>) -> Words {
    match call {
        Ok(()) => Words::done(alloc),
        Err(fault) => Words::refusal(alloc, fault),
    }
}

/// A look-up that answers what tup.config sets, so many times.
#[derive(Drop)]
struct Counted {
    config: Config,
    left: u64,
    stopped: bool,
}

impl Counted {
    fn new(config: Config) -> Counted {
        Counted {
            config,
            left: u64::MAX,
            stopped: false,
        }
    }

    fn answer(&mut self, alloc: Global, call: &str, said: &Words) -> Words {
        match call {
            "config" => self.configure(alloc, said.bytes_at(alloc, 0)),
            "config_long" => self.configure(alloc, repeated::file(alloc, said)),
            _ => self.setting(alloc, said),
        }
    }

    fn configure(&mut self, alloc: Global, file: Vec<u8>) -> Words {
        match read_config(alloc, &Bytes::new(file)) {
            Ok(config) => {
                set(&mut self.config, config);
                Words::done(alloc)
            }
            Err(fault) => Words::refusal(alloc, &fault),
        }
    }

    fn setting(&self, alloc: Global, said: &Words) -> Words {
        let Some(value) = self.config.get(&said.text_at(alloc, 0)) else {
            return Words::word(alloc, b"unset");
        };
        let mut words = Words::word(alloc, b"is");
        words.show(alloc, value);
        words
    }
}

impl Lookup for Counted {
    ghost use Rattle.std.specs.Prelude.{true};
    ghost use Rattle.tup_vars.specs.Table.{look};

    ghost tells = { true };

    ghost answers = { λ lookup. look lookup.config };

    ghost stopped = { λ lookup. lookup.stopped };

    fn config(&mut self, _alloc: Global, name: &Text) -> Result<Option<Text>, Stopped> {
        if self.left == 0 {
            self.stopped = true;
            return Err(Stopped);
        }
        self.left -= 1;
        let answer = copied(self.config.get(name));
        self.stopped = answer.is_err();
        answer
    }
}

fn copied(text: Option<&Text>) -> Result<Option<Text>, Stopped>
    ensures { IfOk result (λ copy. copy ≡ option_copied text.entry) }
{
    let Some(text) = text else {
        return Ok(None);
    };
    match text.clone() {
        Ok(copy) => Ok(Some(copy)),
        Err(_) => Err(Stopped),
    }
}
