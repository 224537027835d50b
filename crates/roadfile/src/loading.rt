ghost use Rattle.roadfile.specs.Format.{entry};
ghost use Rattle.roadfile.specs.Loading.{Added, AddedAt, ClosedAt, Loaded};

use crate::{FileFault, Item, LoadFault, Reader, Record};
use roads::{Draft, Network, Road};

// Adds to the draft what the record says.
// A draft and its table are two parameters, as in every call of a draft: the table is the caller's.
fn add(said: &Record, draft: &mut Draft, table: &mut [Road]) -> Result<(), FileFault>
    ensures { Added (entry said.now) draft.old table.old result draft.new table.new }
{
    match said {
        Record::Place(_) => {
            draft.place()?;
        }
        Record::Road { start, end, marks } => {
            draft.road(table, u32::from(*start), u32::from(*end), *marks)?;
        }
        Record::Remark(_) | Record::End => {}
    }
    Ok(())
}

// Adds what the record at its offset says; a refusal tells the offset.
fn add_item(item: &Item, draft: &mut Draft, table: &mut [Road]) -> Result<(), LoadFault>
    ensures { AddedAt item.now.offset (entry item.now.record) draft.old table.old result draft.new table.new }
{
    let offset = item.offset;
    add(&item.record, draft, table).map_err(|fault| fault.at(offset))
}

// Closes the draft of a file whose end record stands at this offset.
fn close(draft: Draft, table: &mut [Road], offset: u64) -> Result<Network, LoadFault>
    ensures { ClosedAt offset draft table.old result table.new }
{
    draft
        .close(table)
        .map_err(|unclosed| FileFault::from(unclosed.fault).at(offset))
}

// Fills a new draft from a road file, over the caller's road table, and closes it.
pub fn load(file: &[u8], table: &mut [Road]) -> Result<Network, LoadFault>
    ensures { Loaded file.now table.old result table.new }
{
    let mut reader = Reader::open(file)?;
    let mut draft = Draft::new();
    let mut offset = 0;
    // No `for`: `next` of a reader promises a Result of an Option, so a reader is no iterator. A fault ends the loop by `?`.
    while let Some(item) = reader.next()? {
        offset = item.offset;
        add_item(&item, &mut draft, table)?;
    }
    reader.finish()?;
    close(draft, table, offset)
}
