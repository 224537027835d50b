// Writes the whole records of many road files. Standard input has them one after the other: the size of a file in four bytes, the
// lowest first, and then its bytes.
#![tactic(auto)]

ghost use Rattle.std.specs.Prelude.{◌≡◌, ◌+◌, ◌<◌, ◌≤◌, length, take, drop, IfSome, MatchOption};
ghost use Rattle.sheetcases.specs.Input.{size_of};

use printout::{RECORD, write_record};
use std::io::{Read, Write};

// The first file of the input, and the input behind it; none where the input is at its end, or cut.
fn first_file(input: &[u8]) -> Option<(&[u8], &[u8])>
    ensures file { MatchOption result (length input.now < 4 + size_of input.now) (λ parts. (4 + size_of input.now ≤ length input.now) × (parts.0.now ≡ take (size_of input.now) (drop 4 input.now)) × (parts.1.now ≡ drop (size_of input.now) (drop 4 input.now))) }
    ensures shorter { IfSome result (λ parts. length parts.1.now < length input.now) }
{
    let (size, rest) = input.split_first_chunk::<4>()?;
    rest.split_at_checked(u32::from_le_bytes(*size) as usize)
}

// Writes the record of each file of the input.
fn run(rt: &HostRuntime) -> anyhow::Result<()> {
    let mut input = Vec::new(rt.alloc());
    rt.stdin().read_to_end(&mut input)?;
    let mut rest = input.as_slice();
    // One table for all records: `write_record` writes every byte of it.
    let mut record = [0; RECORD];
    // No `for`: each turn is left the input behind its file.
    while let Some((file, behind)) = first_file(rest) {
        let length = write_record(file, &mut record);
        rt.stdout().write_all(&record[..length])?;
        rest = behind;
    }
    if !rest.is_empty() {
        anyhow::bail!("the last file is cut");
    }
    Ok(())
}

fn main(rt: HostRuntime) -> anyhow::Result<()> {
    run(&rt)
}
