//! The language of Tupfiles.
ghost use Rattle.tup_law_graph.specs.Linking.{LinksReadings};
ghost use Rattle.tup_refresh.specs.Language.{ReadsTupfiles};
ghost use Rattle.tup_law_phases.specs.Language.{tupfiles};

/// A law: there is a language that reads as Tupfiles do, and links what was read to the rules of a project.
pub fn tupfiles_are_a_language()
    ensures { ReadsTupfiles tupfiles × LinksReadings tupfiles }
{}
