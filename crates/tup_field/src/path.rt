//! Paths as fields: the names from the top down behind their count. Counts and lengths are one byte each.
ghost use Rattle.std.specs.Prelude.{◌≡◌, ◌⊎◌, ◌++◌, ◌∷◌, [], ◌≤◌, ◌<◌, List, ℕ, All, IsUtf8, length, Ok, Err, MatchResult};
ghost use Rattle.std.specs.List.{flat_map};
ghost use Rattle.tup_path.specs.Name.{IsVisibleName};
ghost use Rattle.tup_field.specs.Parts.{many_at, sized, byte};
ghost use Rattle.tup_field.specs.Values as formats;

use crate::fault::RecordFault;
use crate::field::Field;
use crate::reader::Reader;
use std::alloc::Global;
use tup_path::{Bytes, MAX_DEPTH, Path, PathFault, Text};

impl Field for Path {
    ghost use Rattle.tup_field.specs.Values.{path};
    ghost use Rattle.tup_field.specs.ValuesLaws.{path-exact};

    ghost format = { path };

    ghost exact = { path-exact };

    fn write(&self, bytes: &mut Bytes) -> Result<(), RecordFault> {
        bytes.extend_from_slice(&[self.depth() as u8])?;
        write_names(self.names(), bytes)
    }

    fn read(alloc: Global, reader: &mut Reader<'_>) -> Result<Path, RecordFault> {
        let depth = read_depth(reader)?;
        read_names(alloc, depth, reader)
    }
}

/// Puts the spellings of names behind the bytes.
fn write_names(names: &[Text], bytes: &mut Bytes) -> Result<(), RecordFault>
    requires { All IsVisibleName names.now }
    ensures { MatchResult result
        (λ _. bytes.new ≡ bytes.old ++ flat_map formats.name.spelling names.now)
        (λ fault. fault ≡ RecordFault.Memory) }
{
    for name in names {
        write_name(name, bytes)?;
    }
    Ok(())
}

/// Puts a name behind the bytes, after its length.
fn write_name(name: &Text, bytes: &mut Bytes) -> Result<(), RecordFault>
    requires { length name.now ≤ 255 }
    ensures { MatchResult result
        (λ _. bytes.new ≡ bytes.old ++ formats.name.spelling name.now)
        (λ fault. fault ≡ RecordFault.Memory) }
{
    let name = name.as_bytes();
    bytes.extend_from_slice(&[name.len() as u8])?;
    bytes.extend_from_slice(name)?;
    Ok(())
}

/// Reads how many names a path has.
fn read_depth(reader: &mut Reader<'_>) -> Result<u8, RecordFault>
    ensures { MatchResult result
        (λ depth. (formats.depth.reading reader.old ≡ Ok (depth, reader.new)) × (depth ≤ 32))
        (λ fault. formats.depth.reading reader.old ≡ Err fault) }
{
    let depth = reader.byte()?;
    if depth as usize > MAX_DEPTH {
        return Err(RecordFault::BadField);
    }
    Ok(depth)
}

/// Reads so many names from the top down.
fn read_names(alloc: Global, depth: u8, reader: &mut Reader<'_>) -> Result<Path, RecordFault>
    requires { depth ≤ 32 }
    ensures { MatchResult result
        (λ path. many_at formats.name.reading depth reader.old ≡ Ok (path, reader.new))
        (λ fault. (fault ≡ RecordFault.Memory)
        ⊎ (many_at formats.name.reading depth reader.old ≡ Err fault)) }
{
    let top = Path::with_room(alloc, depth as usize)?;
    read_all_below(alloc, top, depth, reader)
}

/// Reads so many names from the top down, which is given with room for them.
fn read_all_below(
    alloc: Global,
    top: Path,
    depth: u8,
    reader: &mut Reader<'_>,
) -> Result<Path, RecordFault>
    requires few { depth ≤ 32 }
    requires top { top ≡ [] }
    ensures { MatchResult result
        (λ path. many_at formats.name.reading depth reader.old ≡ Ok (path, reader.new))
        (λ fault. (fault ≡ RecordFault.Memory)
        ⊎ (many_at formats.name.reading depth reader.old ≡ Err fault)) }
{
    let mut path = top;
    for _ in 0..depth {
        path = read_below(alloc, path, reader)?;
    }
    Ok(path)
}

/// Reads a name, and gives the path one name further down.
fn read_below(alloc: Global, path: Path, reader: &mut Reader<'_>) -> Result<Path, RecordFault>
    requires { length path < 32 }
    ensures { MatchResult result
        (λ below. (name : List ℕ) × (below ≡ path ++ name ∷ [])
        × (formats.name.reading reader.old ≡ Ok (name, reader.new)))
        (λ fault. (fault ≡ RecordFault.Memory) ⊎ (formats.name.reading reader.old ≡ Err fault)) }
{
    let name = read_part(alloc, reader)?;
    match path.down(name) {
        Ok(below) => Ok(below),
        Err(PathFault::Memory) => Err(RecordFault::Memory),
        Err(_) => Err(RecordFault::BadField),
    }
}

/// Reads a text of at most 255 bytes behind its length.
#[tactic(auto, using(crate::proofs::Texts::not_utf8))]
fn read_part(alloc: Global, reader: &mut Reader<'_>) -> Result<Text, RecordFault>
    ensures { MatchResult result
        (λ part. ((sized byte).reading reader.old ≡ Ok (part, reader.new))
        × IsUtf8 part × (length part ≤ 255))
        (λ fault. (fault ≡ RecordFault.Memory) ⊎ (formats.name.reading reader.old ≡ Err fault)) }
{
    let length = reader.byte()?;
    let part = reader.bytes(length as usize)?;
    let Some(part) = Text::from_utf8(alloc, part)? else {
        return Err(RecordFault::BadField);
    };
    Ok(part)
}
