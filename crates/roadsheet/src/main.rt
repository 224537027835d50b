// The program: a road file from standard input to its record on standard output.
#![tactic(auto)]

ghost use Rattle.std.specs.Prelude.{◌≤◌, length, IfOk};

use report::{FILE, LINE, write_record};
use std::io;
use std::io::{Read, Write};

// One byte more than a road file may have, so that a longer file is seen to be one.
const LOOK: usize = FILE + 1;

// Fills the table from the input, as far as the input reaches; tells how many bytes came.
// Into a table, and not by `read_to_end`: so no file is refused for want of memory.
fn fill<R: Read>(input: &mut R, table: &mut [u8]) -> io::Result<usize>
    ensures { IfOk result (λ n. n ≤ length table.old) }
{
    let mut size = 0;
    // Over numbers: each turn brings bytes, nobody knows how many, or ends the loop.
    for _ in 0..table.len() {
        let more = input.read(&mut table[size..])?;
        if more == 0 {
            break;
        }
        size += more;
    }
    Ok(size)
}

fn main(rt: HostRuntime) -> io::Result<()> {
    let mut file = [0; LOOK];
    let size = fill(&mut rt.stdin(), &mut file)?;
    let mut line = [0; LINE];
    let length = write_record(&file[..size], &mut line);
    rt.stdout().write_all(&line[..length])
}
