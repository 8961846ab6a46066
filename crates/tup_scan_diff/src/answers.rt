//! Whether what a reading was told is still so.
ghost use Rattle.std.specs.Prelude.{◌≡◌, ◌++◌, ◌∷◌, [], Option, IfOk, IfErr, bytes_eq};
ghost use Rattle.std.specs.Bool.{Decides};
ghost use Rattle.std.specs.BTreeSet.{contains};
ghost use Rattle.std.specs.List.{list_any};
ghost use Rattle.tup_path.specs.Name.{Names, Content};
ghost use Rattle.tup_path.specs.Order.{by_names};
ghost use Rattle.tup_rule.specs.declared.question.Question.TheVariants as asks;
ghost use Rattle.tup_graph.specs.Answers.{IsKind, IsMadeElsewhere, IsSource};
ghost use Rattle.tup_graph.specs.Graph.{source};
ghost use Rattle.tup_closure.specs.Lists.{list_of};
ghost use Rattle.tup_scan_diff.specs.Index.{HasTupfile};
ghost use Rattle.tup_scan_diff.specs.Parents.{StandsIn};
ghost use Rattle.tup_scan_diff.specs.Present.{IsPresent, IsWhole, graph_of};
ghost use Rattle.tup_scan_diff.specs.Told.{AreNames, AreToldSo, IsToldOtherwise, IsToldSo, Tells};

use crate::index::{name_in, parted};
use crate::present::Present;
use std::alloc::Global;
use tup_graph::GraphFault;
use tup_path::{Path, Text, Texts};
use tup_rule::{Answered, Kind, Noted, Question};

/// So many names are looked through one after another; where there are more, a path is looked up among all files.
const FEW: usize = 32;

impl Present<'_> {
    /// Whether all that the reading of a folder was told is still so. The names are those of the sources in the folder.
    pub(crate) fn all_stand(
        &self,
        alloc: Global,
        reader: &Path,
        beside: &[Text],
        asked: &[Answered],
    ) -> Result<bool, GraphFault>
        requires present { IsWhole self.now }
        requires tupfile { HasTupfile self.now.index reader.now }
        requires beside { beside.now ≡ list_of self.now.index.names reader.now }
        ensures stand { (config : Option Content) → IsPresent config self.now
            → IfOk result (λ stand. Tells stand (AreToldSo config self.now reader.now asked.now)
            (IsToldOtherwise config self.now reader.now asked.now)) }
        ensures memory { IfErr result (λ fault. fault ≡ GraphFault.Memory) }
    {
        for one in asked {
            let stands = self.stands(alloc, reader, beside, one.question(), one.noted())?;
            if !stands {
                return Ok(false);
            }
        }
        Ok(true)
    }

    /// Whether what the reading of a folder was told to a question is still so.
    fn stands(
        &self,
        alloc: Global,
        reader: &Path,
        beside: &[Text],
        question: &Question,
        noted: &Noted,
    ) -> Result<bool, GraphFault>
        requires present { IsWhole self.now }
        requires tupfile { HasTupfile self.now.index reader.now }
        requires beside { beside.now ≡ list_of self.now.index.names reader.now }
        ensures stands { (config : Option Content) → IsPresent config self.now
            → IfOk result (λ stands. Decides stands
            (IsToldSo config self.now reader.now question.now noted.now)) }
        ensures memory { IfErr result (λ fault. fault ≡ GraphFault.Memory) }
    {
        match question {
            Question::Content(path) => Ok(self.content_stands(path, noted)),
            Question::Config(name) => Ok(self.setting_stands(name, noted)),
            Question::Names(dir) => self.names_stand(alloc, reader, dir, noted),
            Question::Kind(path) => self.kind_stands(alloc, reader, beside, path, noted),
        }
    }

    /// Whether what was told of a content is still so.
    fn content_stands(&self, path: &Path, noted: &Noted) -> bool
        ensures { (config : Option Content) (reader : Names)
            → Decides result (IsToldSo config self.now reader (asks.Content path.now) noted.now) }
    {
        match noted {
            Noted::Content(seen) => self.source(path) == *seen,
            Noted::Config(_) | Noted::Names(_) | Noted::Kind(_) => false,
        }
    }

    /// Whether what was told of a setting is still so.
    fn setting_stands(&self, name: &Text, noted: &Noted) -> bool
        ensures { (config : Option Content) (reader : Names) → IsPresent config self.now
            → Decides result (IsToldSo config self.now reader (asks.Config name.now) noted.now) }
    {
        match noted {
            Noted::Config(value) => self.settings.sets_to(name, value),
            Noted::Content(_) | Noted::Names(_) | Noted::Kind(_) => false,
        }
    }

    /// Whether what was told of the files in a folder is still so.
    fn names_stand(
        &self,
        alloc: Global,
        reader: &Path,
        dir: &Path,
        noted: &Noted,
    ) -> Result<bool, GraphFault>
        requires present { IsWhole self.now }
        ensures stand { IfOk result (λ stand. (config : Option Content)
            → Decides stand (IsToldSo config self.now reader.now (asks.Names dir.now) noted.now)) }
        ensures memory { IfErr result (λ fault. fault ≡ GraphFault.Memory) }
    {
        match noted {
            Noted::Names(names) => self.are_names(alloc, reader, dir, names),
            Noted::Content(_) | Noted::Config(_) | Noted::Kind(_) => Ok(false),
        }
    }

    /// Whether what was told of what stands at a path is still so.
    fn kind_stands(
        &self,
        alloc: Global,
        reader: &Path,
        beside: &[Text],
        path: &Path,
        noted: &Noted,
    ) -> Result<bool, GraphFault>
        requires present { IsWhole self.now }
        requires tupfile { HasTupfile self.now.index reader.now }
        requires beside { beside.now ≡ list_of self.now.index.names reader.now }
        ensures stands { IfOk result (λ stands. (config : Option Content)
            → Decides stands (IsToldSo config self.now reader.now (asks.Kind path.now) noted.now)) }
        ensures memory { IfErr result (λ fault. fault ≡ GraphFault.Memory) }
    {
        match noted {
            Noted::Kind(kind) => self.is_kind(alloc, reader, beside, path, *kind),
            Noted::Content(_) | Noted::Config(_) | Noted::Names(_) => Ok(false),
        }
    }

    /// Whether these are the names of the files in a folder, in byte order.
    fn are_names(
        &self,
        alloc: Global,
        reader: &Path,
        dir: &Path,
        names: &Texts,
    ) -> Result<bool, GraphFault>
        requires present { IsWhole self.now }
        ensures names { IfOk result (λ are. Decides are
            (AreNames self.now reader.now dir.now names.now)) }
        ensures memory { IfErr result (λ fault. fault ≡ GraphFault.Memory) }
    {
        let found = self.names(alloc, reader, dir)?;
        Ok(found == *names)
    }

    /// Whether this stands at a path.
    fn is_kind(
        &self,
        alloc: Global,
        reader: &Path,
        beside: &[Text],
        path: &Path,
        kind: Kind,
    ) -> Result<bool, GraphFault>
        requires present { IsWhole self.now }
        requires tupfile { HasTupfile self.now.index reader.now }
        requires beside { beside.now ≡ list_of self.now.index.names reader.now }
        ensures kind { IfOk result (λ is. Decides is (IsKind (source (graph_of self.now))
            self.now.nodes.now.readings reader.now path.now kind)) }
        ensures memory { IfErr result (λ fault. fault ≡ GraphFault.Memory) }
    {
        Ok(self.kind(alloc, reader, beside, path)? == kind)
    }

    /// What stands at a path, as the reading of a folder is told it.
    fn kind(
        &self,
        alloc: Global,
        reader: &Path,
        beside: &[Text],
        path: &Path,
    ) -> Result<Kind, GraphFault>
        requires present { IsWhole self.now }
        requires tupfile { HasTupfile self.now.index reader.now }
        requires beside { beside.now ≡ list_of self.now.index.names reader.now }
        ensures kind { IfOk result (IsKind (source (graph_of self.now))
            self.now.nodes.now.readings reader.now path.now) }
        ensures memory { IfErr result (λ fault. fault ≡ GraphFault.Memory) }
    {
        match name_in(reader, path) {
            Some(name) => Ok(self.kind_beside(reader, beside, path, name)),
            None => self.kind_elsewhere(alloc, reader, path),
        }
    }

    /// What stands at a path in the folder that is read: no output of its reading is told.
    fn kind_beside(&self, reader: &Path, beside: &[Text], path: &Path, name: &Text) -> Kind
        requires present { IsWhole self.now }
        requires tupfile { HasTupfile self.now.index reader.now }
        requires beside { beside.now ≡ list_of self.now.index.names reader.now }
        requires parts { path.now ≡ reader.now ++ name.now ∷ [] }
        ensures { IsKind (source (graph_of self.now))
            self.now.nodes.now.readings reader.now path.now result }
    {
        if self.is_source_beside(reader, beside, path, name) {
            return Kind::File;
        }
        if self.is_folder_beside(reader, path) {
            return Kind::Dir;
        }
        Kind::Nothing
    }

    /// Whether a path in the folder that is read is a folder of sources. Most folders have none in them, which is told sooner.
    fn is_folder_beside(&self, reader: &Path, path: &Path) -> bool
        requires present { IsWhole self.now }
        requires inside { StandsIn reader.now path.now }
        ensures { result ≡ contains by_names self.now.index.folders path.now }
    {
        if !self.parents.contains(reader) {
            return false;
        }
        self.index.folders.contains(path)
    }

    /// Whether a path in the folder that is read is a source. Most answers are about these, and a look through a few names is
    /// shorter than one among all files.
    fn is_source_beside(&self, reader: &Path, beside: &[Text], path: &Path, name: &Text) -> bool
        requires present { IsWhole self.now }
        requires beside { beside.now ≡ list_of self.now.index.names reader.now }
        requires parts { path.now ≡ reader.now ++ name.now ∷ [] }
        ensures { Decides result (IsSource (source (graph_of self.now)) path.now) }
    {
        if !are_few(beside) {
            return self.source(path).is_some();
        }
        has_name(beside, name)
    }

    /// What stands at a path, wherever that is.
    fn kind_elsewhere(&self, alloc: Global, reader: &Path, path: &Path) -> Result<Kind, GraphFault>
        requires present { IsWhole self.now }
        ensures kind { IfOk result (IsKind (source (graph_of self.now))
            self.now.nodes.now.readings reader.now path.now) }
        ensures memory { IfErr result (λ fault. fault ≡ GraphFault.Memory) }
    {
        if self.source(path).is_some() {
            return Ok(Kind::File);
        }
        if self.index.folders.contains(path) {
            return Ok(Kind::Dir);
        }
        if self.is_made_elsewhere(alloc, reader, path)? {
            return Ok(Kind::File);
        }
        Ok(Kind::Nothing)
    }

    /// Whether a path is an output of the reading of the home of its folder, which is another folder than the one that is read.
    fn is_made_elsewhere(
        &self,
        alloc: Global,
        reader: &Path,
        path: &Path,
    ) -> Result<bool, GraphFault>
        requires present { IsWhole self.now }
        ensures made { IfOk result (λ made. Decides made (IsMadeElsewhere
            (source (graph_of self.now)) self.now.nodes.now.readings reader.now path.now)) }
        ensures memory { IfErr result (λ fault. fault ≡ GraphFault.Memory) }
    {
        let Some((dir, _)) = parted(alloc, path)? else {
            return Ok(false);
        };
        let Some(home) = self.other_home(alloc, reader, dir)? else {
            return Ok(false);
        };
        Ok(self.made.has(self.nodes, &home, path))
    }
}

/// Whether names are so few that they are looked through.
fn are_few(names: &[Text]) -> bool {
    names.len() <= FEW
}

/// Whether a name is one of these.
fn has_name(names: &[Text], name: &Text) -> bool
    ensures { result ≡ list_any (bytes_eq name.now) names.now }
{
    names.iter().any(|one| name == one)
}
