//! Lists as fields: the members behind their count.
ghost use Rattle.std.specs.Prelude.{◌≡◌, ◌⊎◌, ◌++◌, MatchResult};
ghost use Rattle.std.specs.List.{flat_map, AllByRecursion};
ghost use Rattle.tup_field.specs.Format.{IsUnwritten};
ghost use Rattle.tup_field.specs.Parts.{list, many_at};

use crate::fault::RecordFault;
use crate::field::Field;
use crate::reader::Reader;
use std::alloc::Global;
use tup_path::{Bytes, Items, Shared};

impl<T: Field> Field for Items<T> {
    ghost use Rattle.tup_field.specs.Parts.{list};
    ghost use Rattle.tup_field.specs.PartsLaws.{list-exact};

    ghost format = { list T.format };

    ghost exact = { list-exact T.format T.exact };

    fn write(&self, bytes: &mut Bytes) -> Result<(), RecordFault> {
        write_list(self.as_slice(), bytes)
    }

    fn read(alloc: Global, reader: &mut Reader<'_>) -> Result<Items<T>, RecordFault> {
        let count = u32::read(alloc, reader)?;
        read_all(alloc, count, reader)
    }
}

impl<T: Field> Field for Shared<T> {
    ghost use Rattle.tup_field.specs.Parts.{list};
    ghost use Rattle.tup_field.specs.PartsLaws.{list-exact};

    ghost format = { list T.format };

    ghost exact = { list-exact T.format T.exact };

    fn write(&self, bytes: &mut Bytes) -> Result<(), RecordFault> {
        write_list(self.as_slice(), bytes)
    }

    fn read(alloc: Global, reader: &mut Reader<'_>) -> Result<Shared<T>, RecordFault> {
        let items = Items::<T>::read(alloc, reader)?;
        Ok(Shared::new(items)?)
    }
}

/// Puts the number of some items and their spellings behind the bytes.
fn write_list<T: Field>(items: &[T], bytes: &mut Bytes) -> Result<(), RecordFault>
    ensures { MatchResult result
        (λ _. (list T.format).Fits items.now
        × (bytes.new ≡ bytes.old ++ (list T.format).spelling items.now))
        (IsUnwritten ((list T.format).Writable items.now)) }
{
    let Ok(count) = u32::try_from(items.len()) else {
        return Err(RecordFault::BadField);
    };
    count.write(bytes)?;
    write_all(items, bytes)
}

/// Puts the spellings of all items behind the bytes.
fn write_all<T: Field>(items: &[T], bytes: &mut Bytes) -> Result<(), RecordFault>
    ensures { MatchResult result
        (λ _. AllByRecursion T.format.Fits items.now
        × (bytes.new ≡ bytes.old ++ flat_map T.format.spelling items.now))
        (IsUnwritten (AllByRecursion T.format.Writable items.now)) }
{
    for item in items {
        item.write(bytes)?;
    }
    Ok(())
}

/// For how many items a list takes room before the first is read. Most lists have fewer, and a damaged count may be any.
const ROOM: usize = 16;

/// Reads so many items.
fn read_all<T: Field>(
    alloc: Global,
    count: u32,
    reader: &mut Reader<'_>,
) -> Result<Items<T>, RecordFault>
    ensures { MatchResult result
        (λ items. many_at T.format.reading count reader.old ≡ Ok (items, reader.new))
        (λ fault. (fault ≡ RecordFault.Memory)
        ⊎ (many_at T.format.reading count reader.old ≡ Err fault)) }
{
    let mut items = Items::with_room(alloc, (count as usize).min(ROOM))?;
    for _ in 0..count {
        items.push(T::read(alloc, reader)?)?;
    }
    Ok(items)
}
