ghost use Rattle.std.specs.Prelude.{◌≡◌, ◌≤◌, ◌∷◌, length};
ghost use Rattle.roadfile.specs.Format.{written, entry, ends, Proper, Allowed};
ghost use Rattle.roadfile.specs.Kinds.{code_of};
ghost use Rattle.roadfile.specs.Reading.{Begins};

use crate::FileFault;
use crate::bytes::{split_u16, split_u32};
use crate::kind::Kind;

// What one record of a road file says. Names and remarks are parts of the file.
#[derive(Clone, Copy, Debug, PartialEq, Eq)]
pub enum Record<'a> {
    // A place, by its name.
    Place(&'a [u8]),
    // A road, by the numbers of its places and its four marks.
    Road {
        start: u16,
        end: u16,
        marks: [u32; 4],
    },
    // A remark, which means nothing to the network.
    Remark(&'a [u8]),
    // The end of the file.
    End,
}

impl Record<'_> {
    // How many bytes the record has in a file.
    pub(crate) fn size(&self) -> usize
        requires { Proper (entry self.now) }
        ensures { result ≡ length (written (entry self.now)) }
    {
        match self {
            Record::Place(name) => 2 + name.len(),
            Record::Road { .. } => 22,
            Record::Remark(text) => 2 + text.len(),
            Record::End => 2,
        }
    }

    // Whether the record ends its file.
    pub fn is_end(&self) -> bool
        ensures { result ≡ ends (entry self.now) }
    {
        matches!(self, Record::End)
    }
}

// The road that a body of 20 bytes says.
fn road_of(body: &[u8]) -> Record<'static>
    requires { length body.now ≡ 20 }
    ensures proper { Proper (entry result) }
    ensures says { written (entry result) ≡ 2 ∷ 20 ∷ body.now }
{
    let (start, rest) = split_u16(body);
    let (end, rest) = split_u16(rest);
    let (first, rest) = split_u32(rest);
    let (second, rest) = split_u32(rest);
    let (third, rest) = split_u32(rest);
    let (fourth, _) = split_u32(rest);
    Record::Road {
        start,
        end,
        marks: [first, second, third, fourth],
    }
}

// What a body says, of a record of a kind that may have its length.
fn record_of(kind: Kind, body: &[u8]) -> Record<'_>
    requires allowed { Allowed (code_of kind) (length body.now) }
    requires body_len_bound { length body.now ≤ 255 }
    ensures proper { Proper (entry result) }
    ensures says { written (entry result) ≡ code_of kind ∷ length body.now ∷ body.now }
{
    match kind {
        Kind::End => Record::End,
        Kind::Place => Record::Place(body),
        Kind::Road => road_of(body),
        Kind::Remark => Record::Remark(body),
    }
}

// The record with which the bytes begin.
pub(crate) fn first_record(left: &[u8]) -> Result<Record<'_>, FileFault>
    ensures { Begins left.now result }
{
    let [code, size, rest @ ..] = left else {
        return Err(FileFault::Cut);
    };
    let kind = Kind::try_from(*code)?;
    if !kind.allows(*size) {
        return Err(FileFault::Form);
    }
    let body = rest.get(..usize::from(*size)).ok_or(FileFault::Cut)?;
    Ok(record_of(kind, body))
}
