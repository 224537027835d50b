ghost use Rattle.std.specs.Prelude.{◌≡◌, ◌<◌, length, replicate, Some, None, slice_index_or, slice_set};

use roads::PLACES;
use rows::ROWS;

// The rows of a search, place by place: for each place the last row there, and for each row the last one before it at its place.
// Fixed arrays of numbers, as a sweep allocates nothing: as many as a network may have places, and a table rows.
#[derive(Drop)]
pub(crate) struct Links {
    last: [Option<u32>; PLACES],
    prev: [Option<u32>; ROWS],
    ghost lasts: { length last ≡ 2048 },
    ghost prevs: { length prev ≡ 65536 },
}

impl Links {
    // The links of no row.
    pub(crate) fn new() -> Links
        ensures { result.last ≡ replicate 2048 None }
    {
        Links {
            last: [None; PLACES],
            prev: [None; ROWS],
        }
    }

    // Takes the last row from every place.
    pub(crate) fn clear(&mut self)
        ensures { self.new.last ≡ replicate 2048 None }
    {
        self.last = [None; PLACES];
    }

    // The last row at the place.
    pub(crate) fn last_at(&self, place: u32) -> Option<u32>
        requires { place < 2048 }
        ensures { result ≡ slice_index_or self.now.last place None }
    {
        self.last[place as usize]
    }

    // The last row before row i at its place.
    pub(crate) fn before(&self, i: u32) -> Option<u32>
        requires { i < 65536 }
        ensures { result ≡ slice_index_or self.now.prev i None }
    {
        self.prev[i as usize]
    }

    // Makes row n the last at the place.
    pub(crate) fn link(&mut self, place: u32, n: u32)
        requires low { place < 2048 }
        requires room { n < 65536 }
        ensures last { self.new.last ≡ slice_set self.old.last place (Some n) }
        ensures prev { self.new.prev ≡ slice_set self.old.prev n (slice_index_or self.old.last place None) }
    {
        self.prev[n as usize] = self.last[place as usize].replace(n);
    }
}
