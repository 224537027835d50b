// What a reader hands out of a road file.
ghost use Rattle.std.specs.Prelude.{◌≡◌, ◌+◌, ◌%◌, ◌^◌};
ghost use Rattle.filecases.specs.Told.{text_of};

use roadfile::{Item, LoadFault, Reader, Record};
use std::fmt;

// How many records came, the sum of their offsets, and the bytes of all names and remarks.
#[derive(Clone, Copy, Debug, Default, PartialEq, Eq)]
struct Tally {
    records: u64,
    offsets: u64,
    text: u64,
}

// What came of a file, and how it ended.
#[derive(Clone, Copy, Debug, PartialEq, Eq)]
pub struct Reading {
    tally: Tally,
    end: Result<(), LoadFault>,
}

impl Reading {
    // Reads a file to its end or to a fault.
    pub fn of(file: &[u8]) -> Reading {
        let mut tally = Tally::default();
        let end = tally.read(file);
        Reading { tally, end }
    }
}

impl Tally {
    // Adds what the file says, and answers how it ended.
    fn read(&mut self, file: &[u8]) -> Result<(), LoadFault> {
        let mut reader = Reader::open(file)?;
        let end = self.drain(&mut reader);
        // Nothing comes after the end or a fault: if something did, it would count.
        if let Ok(Some(item)) = reader.next() {
            self.add(&item);
        }
        end
    }

    // Adds what the reader hands out until it ends.
    fn drain(&mut self, reader: &mut Reader) -> Result<(), LoadFault> {
        // No `for`: `next` of a reader promises a Result of an Option, so a reader is no iterator. A fault ends the loop by `?`.
        while let Some(item) = reader.next()? {
            self.add(&item);
        }
        reader.finish()
    }

    // Adds one record.
    fn add(&mut self, item: &Item)
        ensures records { self.new.records ≡ (self.old.records + 1) % 2 ^ 64 }
        ensures offsets { self.new.offsets ≡ (self.old.offsets + item.now.offset) % 2 ^ 64 }
        ensures text { self.new.text ≡ (self.old.text + text_of item.now.record) % 2 ^ 64 }
    {
        let text = match item.record {
            Record::Place(text) | Record::Remark(text) => text.len(),
            Record::Road { .. } | Record::End => 0,
        };
        self.records = self.records.wrapping_add(1);
        self.offsets = self.offsets.wrapping_add(item.offset);
        self.text = self.text.wrapping_add(text as u64);
    }
}

impl fmt::Display for Reading {
    fn fmt<W: fmt::Write>(&self, f: &mut fmt::Formatter<W>) -> fmt::Result {
        let Tally {
            records,
            offsets,
            text,
        } = self.tally;
        write!(
            f,
            "read {records} records, offsets {offsets}, text {text}: "
        )?;
        match self.end {
            Ok(()) => write!(f, "ended"),
            Err(refusal) => write!(
                f,
                "refused {} at {}",
                refusal.fault.number(),
                refusal.offset
            ),
        }
    }
}
