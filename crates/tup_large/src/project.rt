//! The files of the project, and a site in memory that holds them.
ghost use Rattle.std.specs.Prelude.{◌≡◌, ◌≤◌, ◌++◌, IfErr, IfOk, OnOk};
ghost use Rattle.tup_large.specs.Project as specs;
ghost use Rattle.tup_large.specs.Project.{IsNew, RefusesFiles};

use crate::folder::{below, content_of, file_in};
use std::alloc::{AllocError, Global};
use tup_path::{Bytes, Path, Text};
use tup_site::{MemRefused, MemSite};

/// How many headers there are, and how many sources in each folder.
const SOURCES: u32 = 10;

/// A site in memory that holds the files of so many folders.
pub(crate) fn large_site(alloc: Global, folders: u32) -> Result<MemSite, MemRefused>
    requires { folders ≤ 1000 }
    ensures made { IfOk result (IsNew (specs.large_files folders)) }
    ensures refused { IfErr result (RefusesFiles (specs.large_files folders)) }
{
    let files = large_files(alloc, folders)?;
    let never = Vec::new(alloc);
    MemSite::new(alloc, files, never)
}

/// The files of so many folders, with those at the top.
fn large_files(alloc: Global, folders: u32) -> Result<Vec<(Path, Bytes)>, AllocError>
    ensures { IfOk result (λ files. files.items ≡ specs.large_files folders) }
{
    let mut files = vec![in alloc; top_tupfile(alloc)?]?;
    add_headers(alloc, &mut files)?;
    add_folders(alloc, &mut files, folders)?;
    Ok(files)
}

/// The Tupfile at the top.
fn top_tupfile(alloc: Global) -> Result<(Path, Bytes), AllocError>
    ensures { IfOk result (λ file. file ≡ specs.top_tupfile) }
{
    let path = below(alloc, Path::top(alloc), "Tupfile")?;
    Ok((
        path,
        content_of(alloc, ": <libs> |> cat %<libs> > %o |> all\n")?,
    ))
}

/// Adds all headers.
fn add_headers(alloc: Global, files: &mut Vec<(Path, Bytes)>) -> Result<(), AllocError>
    ensures { OnOk result (files.new.items ≡ files.old.items ++ specs.headers) }
{
    for number in 0..SOURCES {
        files.push(header(alloc, number)?)?;
    }
    Ok(())
}

/// The header of a number.
fn header(alloc: Global, number: u32) -> Result<(Path, Bytes), AllocError>
    ensures { IfOk result (λ file. file ≡ specs.header number) }
{
    let name = format!(in alloc; "h{number}.h")?;
    let content = format!(in alloc; "#define H{number} 0\n")?;
    file_in(alloc, "inc", name.as_str(), content.as_str())
}

/// Adds the files of so many folders.
fn add_folders(
    alloc: Global,
    files: &mut Vec<(Path, Bytes)>,
    folders: u32,
) -> Result<(), AllocError>
    ensures { OnOk result (files.new.items ≡ files.old.items ++ specs.all_folders folders) }
{
    for number in 0..folders {
        add_folder(alloc, files, number)?;
    }
    Ok(())
}

/// Adds the files of the folder of a number.
fn add_folder(alloc: Global, files: &mut Vec<(Path, Bytes)>, number: u32) -> Result<(), AllocError>
    ensures { OnOk result
        (files.new.items ≡ files.old.items ++ specs.files_in (specs.folder_name number)) }
{
    let folder = folder_name(alloc, number)?;
    files.push(folder_tupfile(alloc, folder.as_str())?)?;
    add_sources(alloc, files, folder.as_str())?;
    Ok(())
}

/// The name of the folder of a number below 10,000, which has four digits there.
fn folder_name(alloc: Global, number: u32) -> Result<Text, AllocError>
    ensures { IfOk result (λ name. name ≡ specs.folder_name number) }
{
    let (thousands, hundreds) = (number / 1000, number / 100 % 10);
    let (tens, ones) = (number / 10 % 10, number % 10);
    let name = format!(in alloc; "d{thousands}{hundreds}{tens}{ones}")?;
    Ok(Text::from_string(name))
}

/// The Tupfile of a folder.
fn folder_tupfile(alloc: Global, folder: &str) -> Result<(Path, Bytes), AllocError>
    ensures { IfOk result (λ file. file ≡ specs.folder_tupfile folder.now) }
{
    file_in(
        alloc,
        folder,
        "Tupfile",
        ": foreach *.c |> incl %f %o |> %B.o\n: *.o |> cat %f > %o |> lib ../<libs>\n",
    )
}

/// Adds all sources of a folder.
fn add_sources(
    alloc: Global,
    files: &mut Vec<(Path, Bytes)>,
    folder: &str,
) -> Result<(), AllocError>
    ensures { OnOk result (files.new.items ≡ files.old.items ++ specs.sources folder.now) }
{
    for number in 0..SOURCES {
        files.push(source(alloc, folder, number)?)?;
    }
    Ok(())
}

/// The source of a number in a folder.
fn source(alloc: Global, folder: &str, number: u32) -> Result<(Path, Bytes), AllocError>
    ensures { IfOk result (λ file. file ≡ specs.source folder.now number) }
{
    let name = format!(in alloc; "s{number}.c")?;
    let content = format!(in alloc; "#include \"../inc/h{number}.h\"\nint {folder}_s{number};\n")?;
    file_in(alloc, folder, name.as_str(), content.as_str())
}
