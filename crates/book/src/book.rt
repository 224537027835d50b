ghost use Rattle.std.specs.Prelude.{◌≡◌, ◌≤◌, length};
ghost use Rattle.book.specs.Sheets.{total, Following, Rooted, Reaching};

use arrayvec::ArrayVec;
use roads::Network;
use rows::Sheet;

pub mod calls;
pub mod reading;
pub mod sweeping;

// The sheets of a planner over one network, judged by two criteria. Their rows stand in the caller's row table, of which `used` are
// in use: the sum of the sheets' lengths. A field, though the last sheet's end tells it too: the contracts of public calls name it.
#[derive(Drop)]
pub struct Book<A, B> {
    pub(crate) network: Network,
    pub(crate) first: A,
    pub(crate) second: B,
    pub(crate) sheets: ArrayVec<Sheet, 64>,
    pub(crate) used: u32,
    ghost sheets_fit: { length sheets.items ≤ 64 },
    ghost used_fits: { used ≤ 65536 },
    ghost used_is: { used ≡ total sheets.items },
    ghost following: { Following sheets.items },
    ghost rooted: { Rooted network.places sheets.items },
    ghost reaching: { Reaching sheets.items },
}
