//! The project in a site of its own.
ghost use Rattle.std.specs.Prelude.{◌≡◌, [], IfOk, IfErr, IfSome, Ok};
ghost use Rattle.tup_path.specs.Resolve.{resolve};
ghost use Rattle.tup_demo.specs.Steady.{tree_in, store_in};
ghost use Rattle.tup_demo.specs.Project as specs;

use crate::steady::SteadySite;
use std::alloc::Global;
use tup_path::{Bytes, Path};
use tup_site::MemRefused;

/// The project in a site of its own, before it begins. It is refused for want of memory alone: its
/// files are a tree, and their two contents have two stamps.
pub fn demo_project(alloc: Global) -> Result<SteadySite, MemRefused>
    ensures files { IfOk result (λ site. tree_in site ≡ specs.demo_tree) }
    ensures store { IfOk result (λ site. store_in site ≡ []) }
    ensures memory { IfErr result (λ refused. refused ≡ MemRefused.Memory) }
{
    let Some(files) = demo_files(alloc) else {
        return Err(MemRefused::Memory);
    };
    SteadySite::new(alloc, files)
}

/// The files of the project.
fn demo_files(alloc: Global) -> Option<Vec<(Path, Bytes)>>
    ensures { IfSome result (λ files. files.items ≡ specs.demo_files) }
{
    vec![in alloc;
        file(alloc, "Tupfile", b": a |> cp a b |> b\n")?,
        file(alloc, "a", b"hi\n")?,
    ]
    .ok()
}

/// A file at a path below the top.
fn file(alloc: Global, path: &str, content: &[u8]) -> Option<(Path, Bytes)>
    ensures { IfSome result (λ file. (resolve [] path.now ≡ Ok file.0) × (file.1 ≡ content.now)) }
{
    let path = Path::from_top(alloc, path).ok()?;
    let content = Bytes::new(Vec::from_slice(alloc, content).ok()?);
    Some((path, content))
}
