ghost use Rattle.std.specs.Prelude.{◌≡◌};
ghost use Rattle.roadfile.specs.Reading.{Opened, Handed, Ended, offset_of};

use crate::record::first_record;
use crate::{FileFault, Item, LoadFault, Reader};

// The version of the format.
const VERSION: u16 = 1;

impl<'a> Reader<'a> {
    // A reader at the first record of a file, or a refusal of what the file begins with.
    pub fn open(file: &'a [u8]) -> Result<Reader<'a>, LoadFault>
        ensures { Opened file.now result }
    {
        let [b'C', b'R', b'N', low, high, left @ ..] = file else {
            return Err(FileFault::Letters.at(0));
        };
        if u16::from_le_bytes([*low, *high]) != VERSION {
            return Err(FileFault::Version.at(3));
        }
        Ok(Reader {
            left,
            size: file.len(),
            done: false,
        })
    }

    // The next record, or a fault; nothing after the end record or a fault.
    // Inlined: what it answers is large, and a call of its own for each record takes nearly twice the instructions.
    #[inline]
    pub fn next(&mut self) -> Result<Option<Item<'a>>, LoadFault>
        ensures { Handed self.old result self.new }
    {
        if self.done {
            return Ok(None);
        }
        let left = self.left;
        let offset = self.offset();
        // Set before the record is read, so that it stays set where the reading is refused.
        self.done = true;
        let record = first_record(left).map_err(|fault| fault.at(offset))?;
        self.left = &left[record.size()..];
        self.done = record.is_end();
        Ok(Some(Item { offset, record }))
    }

    // After the end record: refuses the bytes that follow it.
    pub fn finish(&self) -> Result<(), LoadFault>
        ensures { Ended self.now result }
    {
        if self.left.is_empty() {
            Ok(())
        } else {
            Err(FileFault::Extra.at(self.offset()))
        }
    }

    // Where in the file the bytes begin that were not handed out yet.
    pub fn offset(&self) -> u64
        ensures { result ≡ offset_of self.now }
    {
        (self.size - self.left.len()) as u64
    }
}
