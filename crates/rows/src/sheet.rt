ghost use Rattle.std.specs.Prelude.{◌≡◌, ◌+◌, ◌^◌, ◌<◌, min};

// The rows of all trips of one plan: its origin, the most roads that a row of it has, and where its rows stand in the row table.
#[derive(Clone, Copy, Debug, Default, PartialEq, Eq)]
pub struct Sheet {
    pub origin: u32,
    pub reach: u32,
    pub start: u32,
    pub len: u32,
}

impl Sheet {
    // Where the sheet's rows end in a table of so many rows.
    pub(crate) fn end(&self, rows: usize) -> usize
        ensures end { result ≡ min (self.now.start + self.now.len) rows }
        ensures few { result < self.now.start + 2 ^ 32 }
    {
        rows.min(self.start as usize + self.len as usize)
    }
}
