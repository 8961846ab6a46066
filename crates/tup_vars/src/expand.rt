//! Texts with what their names stand for.
ghost use Rattle.std.specs.Prelude.{◌≡◌, ◌⊎◌, ◌≤◌, [], List, ℕ, length, IsTrue, false, Ok, Err, IfErr, MatchResult, unwrap_or, All, string_bytes};
ghost use Rattle.std.specs.List.{flat_map};
ghost use Rattle.tup_vars.specs.Segments.{IsSegment, closed, last, marked, segments, spelled};
ghost use Rattle.tup_vars.specs.Expand.{Scope, scope, variable, answer, grown, with_segment, with_segments, expansion, is_plain, are_apart, Joins, is_stop, HasNoAnswer, EndsAs};
ghost use Rattle.tup_vars.specs.declared.fault.VarFault.TheVariants.{BadName, Memory};

use crate::fault::VarFault;
use crate::lookup::Lookup;
use crate::name::{is_cwd, is_free, is_name};
use crate::opening::opened;
use crate::vars::{Vars, or_empty};
use std::alloc::Global;
use tup_path::{MAX_EXPANDED, Text};

impl Vars {
    /// The text with what its names stand for: the value of the variable for `$(NAME)`, and what the
    /// lookup answers for `@(NAME)`; what isn't set is empty. `$(TUP_CWD)` stands for `cwd`. A `$` or
    /// `@` without a bracket stands for itself, and what is put in isn't read again.
    ///
    /// The first place that is refused counts, from left to right: a bracket without its end is
    /// `Unclosed`; what isn't a name, or the name of a variable that can't be set, is `BadName`; and
    /// `TooLong` comes where the text grows past 1,048,576 bytes. `Stopped` comes where the lookup
    /// stops, which isn't asked any further then.
    pub fn expand<C: Lookup>(
        &self,
        alloc: Global,
        text: &Text,
        cwd: &Text,
        config: &mut C,
    ) -> Result<Text, VarFault>
        requires { C.stopped config.old ≡ false }
        ensures expanded { IsTrue C.tells →
            let names = scope self.now cwd.now (C.answers config.old) in
            HasNoAnswer result ⊎ (result ≡ expansion names text.now) }
        ensures same { IsTrue C.tells → C.answers config.new ≡ C.answers config.old }
        ensures stopped { is_stop result ≡ C.stopped config.new }
    {
        let mut expanded = String::new(alloc);
        let mut rest = text.as_str();
        'parts: while let Some((part, more)) = rest.split_once(')') {
            self.add_closed(alloc, &mut expanded, part, cwd, config)?;
            rest = more;
        }
        add_last(&mut expanded, rest)?;
        Ok(Text::from_string(expanded))
    }

    /// Adds a part of a text that ends at a closing bracket.
    fn add_closed<C: Lookup>(
        &self,
        alloc: Global,
        expanded: &mut String,
        part: &str,
        cwd: &Text,
        config: &mut C,
    ) -> Result<(), VarFault>
        requires { C.stopped config.old ≡ false }
        ensures added { IsTrue C.tells →
            let names = scope self.now cwd.now (C.answers config.old) in
            let all = with_segments names (string_bytes expanded.old) (closed part.now) in
            HasNoAnswer result ⊎ EndsAs result (string_bytes expanded.new) all }
        ensures same { IsTrue C.tells → C.answers config.new ≡ C.answers config.old }
        ensures stopped { is_stop result ≡ C.stopped config.new }
    {
        match opened(part) {
            Some((front, mark, name)) => {
                add(expanded, front)?;
                self.add_marked(alloc, expanded, mark, name, cwd, config)
            }
            None => {
                add(expanded, part)?;
                add(expanded, ")")
            }
        }
    }

    /// Adds what a name in brackets behind its mark stands for.
    fn add_marked<C: Lookup>(
        &self,
        alloc: Global,
        expanded: &mut String,
        mark: u8,
        name: &str,
        cwd: &Text,
        config: &mut C,
    ) -> Result<(), VarFault>
        requires { C.stopped config.old ≡ false }
        ensures added { IsTrue C.tells →
            let names = scope self.now cwd.now (C.answers config.old) in
            let all = with_segment names (string_bytes expanded.old) (marked mark name.now) in
            HasNoAnswer result ⊎ EndsAs result (string_bytes expanded.new) all }
        ensures same { IsTrue C.tells → C.answers config.new ≡ C.answers config.old }
        ensures stopped { is_stop result ≡ C.stopped config.new }
    {
        if mark == b'$' {
            return add(expanded, self.variable(name, cwd)?);
        }
        let value = answer(alloc, name, config)?;
        add(expanded, or_empty(value.as_ref()))
    }

    /// What a name in `$(` and `)` stands for.
    fn variable<'a>(&'a self, name: &str, cwd: &'a Text) -> Result<&'a str, VarFault>
        ensures bad_name { IfErr result (λ fault. fault ≡ BadName) }
        ensures variable { let wanted = variable self.now cwd.now name.now in
            MatchResult result (λ text. wanted ≡ Ok text.now) (λ fault. wanted ≡ Err fault) }
    {
        if is_cwd(name) {
            Ok(cwd.as_str())
        } else if is_free(name) {
            Ok(or_empty(self.table.get(name)))
        } else {
            Err(VarFault::BadName)
        }
    }
}

/// What the lookup answers to a name in `@(` and `)`.
fn answer<C: Lookup>(alloc: Global, name: &str, config: &mut C) -> Result<Option<Text>, VarFault>
    requires { C.stopped config.old ≡ false }
    ensures answered { IsTrue C.tells → let wanted = answer (C.answers config.old) name.now in
        HasNoAnswer result ⊎ MatchResult result
        (λ found. wanted ≡ Ok (unwrap_or found [])) (λ fault. wanted ≡ Err fault) }
    ensures same { IsTrue C.tells → C.answers config.new ≡ C.answers config.old }
    ensures stopped { is_stop result ≡ C.stopped config.new }
{
    if !is_name(name) {
        return Err(VarFault::BadName);
    }
    let name = Text::from_str(alloc, name)?;
    Ok(config.config(alloc, &name)?)
}

/// Adds the part of a text behind its last closing bracket.
fn add_last(expanded: &mut String, part: &str) -> Result<(), VarFault>
    ensures added { (names : Scope) →
        let all = with_segments names (string_bytes expanded.old) (last part.now) in
        (result ≡ Err Memory) ⊎ EndsAs result (string_bytes expanded.new) all }
    ensures stopped { is_stop result ≡ false }
{
    match opened(part) {
        Some((front, _, _)) => {
            add(expanded, front)?;
            Err(VarFault::Unclosed)
        }
        None => add(expanded, part),
    }
}

/// Adds a text, if there is room for it.
fn add(expanded: &mut String, more: &str) -> Result<(), VarFault>
    ensures added { let all = grown (string_bytes expanded.old) more.now in
        (result ≡ Err Memory) ⊎ EndsAs result (string_bytes expanded.new) all }
    ensures stopped { is_stop result ≡ false }
{
    if expanded.len().saturating_add(more.len()) > MAX_EXPANDED {
        return Err(VarFault::TooLong);
    }
    expanded.push_str(more)?;
    Ok(())
}

/// Laws of what texts are expanded to. The segments of a text are the text, and each is one segment: no
/// name begins in plain bytes, and none holds its closing bracket. A text without `$` and `@` stands for
/// itself. And two texts of which each stands for something stand for both together, one behind the
/// other, but where a mark ends the first and its bracket begins the second.
pub fn expansion_laws()
    ensures each { (text : List ℕ) → All IsSegment (segments text) }
    ensures whole { (text : List ℕ) → flat_map spelled (segments text) ≡ text }
    ensures plain { (names : Scope) (text : List ℕ) →
        IsTrue (is_plain text) → length text ≤ 1048576 → expansion names text ≡ Ok text }
    ensures joins { (names : Scope) (front back : List ℕ) →
        IsTrue (are_apart front back) → Joins names front back }
{}
