ghost use Rattle.std.specs.Prelude.{◌≤◌, length};

use crate::Record;

pub mod calls;

// A road file that is being read: the bytes whose records were not handed out yet, the size of the whole file, and whether no more will be handed out.
// `done` stands beside the bytes: after the end record `finish` and `offset` still ask for those that follow it.
#[derive(Debug, Drop)]
pub struct Reader<'a> {
    pub(crate) left: &'a [u8],
    pub(crate) size: usize,
    pub(crate) done: bool,
    ghost within: { length left.now ≤ size },
}

// A record and where in the file it stands.
#[derive(Clone, Copy, Debug, PartialEq, Eq)]
pub struct Item<'a> {
    pub offset: u64,
    pub record: Record<'a>,
}
