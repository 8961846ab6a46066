//! The site and the contents that it has room for.
ghost use Rattle.std.specs.Prelude.{◌≡◌, ◌≢◌, [], IfOk, OnOk, Err};
ghost use Rattle.tup_path.specs.Tree.{tree_of_files};
ghost use Rattle.tup_site.specs.Edit.{AreATree};
ghost use Rattle.tup_site.specs.History.{contents_of};
ghost use Rattle.tup_site.specs.Known.{IsKnown, Keeps};
ghost use Rattle.tup_site.specs.Memory.{known_in};
ghost use Rattle.tup_site.specs.declared.refused.MemRefused.TheVariants.{NotATree, SameStamp, NotAnImage};
ghost use Rattle.tup_demo.specs.Calm.{IsCalm, IsCalm-prop, HasSmallStore, HasSmallStore-prop, Keeps-prop};

use std::alloc::{AllocError, Global};
use tup_path::{Bytes, Path};
use tup_site::{MemRefused, MemSite};

/// How many bytes of a store it has room for.
pub(crate) const MAX_STORE_BYTES: u64 = 65_536;

/// A tree of files and a small store in memory, none of whose calls fails.
#[derive(Drop)]
pub struct SteadySite {
    pub(crate) site: MemSite,
    /// The contents that it has room for, each of which it knows.
    pub(crate) contents: Vec<Bytes>,
    ghost is_calm: { IsCalm site } by { IsCalm-prop site },
    ghost is_small: { HasSmallStore site } by { HasSmallStore-prop site },
    ghost knows: { Keeps contents.items (known_in site) } by { Keeps-prop contents.items (known_in site) },
}

impl SteadySite {
    ghost use Rattle.tup_demo.specs.Steady.{tree_in, store_in};

    /// A site with these files and an empty store, all of it durable.
    pub fn new(alloc: Global, files: Vec<(Path, Bytes)>) -> Result<SteadySite, MemRefused>
        ensures files { IfOk result (λ site. tree_in site ≡ tree_of_files files.items) }
        ensures are_a_tree { OnOk result (AreATree files.items) }
        ensures are_known { OnOk result (IsKnown (contents_of files.items)) }
        ensures store { IfOk result (λ site. store_in site ≡ []) }
        ensures not_a_tree { result ≡ Err NotATree → ¬ AreATree files.items }
        ensures same_stamp { result ≡ Err SameStamp
            → AreATree files.items × ¬ IsKnown (contents_of files.items) }
        ensures no_image { result ≢ Err NotAnImage }
    {
        let contents = copies(alloc, &files)?;
        let site = MemSite::new(alloc, files, Vec::new(alloc))?;
        Ok(SteadySite { site, contents })
    }
}

/// The contents of these files once more.
fn copies(alloc: Global, files: &[(Path, Bytes)]) -> Result<Vec<Bytes>, AllocError>
    ensures { IfOk result (λ contents. contents.items ≡ contents_of files.now) }
{
    let mut contents = Vec::new(alloc);
    for (_, content) in files {
        contents.push(content.clone()?)?;
    }
    Ok(contents)
}
