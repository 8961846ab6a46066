//! Settings that were asked.
ghost use Rattle.std.specs.Prelude.{◌≡◌, [], false, IfOk, option_map, is_some};
ghost use Rattle.tup_query.specs.Ask as specs;
ghost use Rattle.tup_query.specs.Text.{value_among};
ghost use Rattle.tup_query.specs.Went.{Went, asker};

use crate::ask::setting_of;
use crate::env::Env;
use crate::fault::ReadEnd;
use crate::log::Log;
use std::alloc::{AllocError, Global};
use tup_path::{Items, Text};
use tup_vars::{Lookup, Stopped};

/// Names with what tup.config sets them to.
pub(crate) type Values = Items<(Text, Option<Text>)>;

/// Answers what was asked before; it stops where memory is wanting.
#[derive(Drop)]
pub(crate) struct Settings {
    pub(crate) values: Values,
    pub(crate) stopped: bool,
}

impl Lookup for Settings {
    ghost use Rattle.std.specs.Prelude.{true};
    ghost use Rattle.tup_query.specs.Text.{value_among};

    ghost tells = { true };

    ghost answers = { λ s. value_among s.values };

    ghost stopped = { λ s. s.stopped };

    /// What tup.config sets a name to, among what was told.
    fn config(&mut self, _alloc: Global, name: &Text) -> Result<Option<Text>, Stopped> {
        let copy = copied(value_among(self.values.as_slice(), name));
        self.stopped = copy.is_err();
        match copy {
            Ok(value) => Ok(value),
            Err(_) => Err(Stopped),
        }
    }
}

/// The value of a name among those that were asked.
fn value_among<'v>(values: &'v [(Text, Option<Text>)], name: &Text) -> Option<&'v Text>
    ensures { option_map (λ value. value.now) result ≡ value_among values.now name.now }
{
    for (asked, value) in values {
        if name == asked {
            return value.as_ref();
        }
    }
    None
}

/// A copy of a value, if there is one.
fn copied(value: Option<&Text>) -> Result<Option<Text>, AllocError>
    ensures { IfOk result (λ copy. copy ≡ option_map (λ value. value.now) value.entry) }
{
    match value {
        Some(value) => Ok(Some(value.clone()?)),
        None => Ok(None),
    }
}

/// What tup.config sets some names to, asked one after another.
pub(crate) fn settings_of<E: Env>(
    alloc: Global,
    env: &mut E,
    log: &mut Log,
    names: &[Text],
) -> Result<Values, ReadEnd>
    requires { is_some (E.stopped env.old) ≡ false }
    ensures { Went E.tells (asker (E.answers env.old) (E.stopped env.old) (E.asked env.old) log.old)
        (specs.settings_of [] names.now)
        (asker (E.answers env.new) (E.stopped env.new) (E.asked env.new) log.new) result }
{
    let mut values = Items::new(alloc);
    for name in names {
        let value = setting_of(alloc, env, log, name)?;
        values.push((name.clone()?, value))?;
    }
    Ok(values)
}
