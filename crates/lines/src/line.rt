ghost use Rattle.std.specs.Prelude.{◌≡◌, ◌+◌, ◌-◌, ◌%◌, ◌≤◌, ◌++◌, length, replicate, codes, decimal};
ghost use Rattle.arrayvec.specs.ArrayString.{array_string_len};
ghost use Rattle.lines.specs.Text.{text};

use arrayvec::ArrayString;

// The bytes of the table that a line is written to; the longest line has 43.
pub const LINE: usize = 48;

// One line of a report.
#[derive(Clone, Copy, Debug, PartialEq, Eq)]
pub enum Line {
    // loaded PLACES places ROADS roads
    Loaded { places: u32, roads: u32 },
    // place PLACE rows ROWS
    Place { place: u32, rows: u32 },
    // TIME LIMIT, or TIME - where there is no limit
    Row { time: u64, limit: Option<u32> },
    // refused NUMBER at OFFSET
    Refused { number: u32, offset: u64 },
}

impl Line {
    // The text of the line, line feed included.
    #[tactic(auto, using(crate::proofs::Digits::length_decimal_32, crate::proofs::Digits::length_decimal_64))]
    pub fn text(self) -> ArrayString<LINE>
        ensures bytes { result.bytes ≡ text self }
        ensures fits { length (text self) ≤ 48 }
    {
        // The arms look alike: each has its line's words.
        match self {
            Line::Loaded { places, roads } => pair(
                "loaded ",
                u64::from(places),
                " places ",
                u64::from(roads),
                " roads\n",
            ),
            Line::Place { place, rows } => pair(
                "place ",
                u64::from(place),
                " rows ",
                u64::from(rows),
                "\n",
            ),
            Line::Row {
                time,
                limit: Some(limit),
            } => pair("", time, " ", u64::from(limit), "\n"),
            Line::Row { time, limit: None } => without_limit(time),
            Line::Refused { number, offset } => {
                pair("refused ", u64::from(number), " at ", offset, "\n")
            }
        }
    }
}

// Two numbers, with texts before, between and after them. Not by `write!`: it may answer an error, and a line always fits.
fn pair(before: &str, first: u64, between: &str, second: u64, after: &str) -> ArrayString<LINE>
    requires { length before.now + length (decimal first) + length between.now + length (decimal second) + length after.now ≤ 48 }
    ensures { result.bytes ≡ before.now ++ decimal first ++ between.now ++ decimal second ++ after.now }
{
    let mut text = ArrayString::new();
    text.push_str(before);
    push_number(&mut text, first);
    text.push_str(between);
    push_number(&mut text, second);
    text.push_str(after);
    text
}

// The text of a row that has no limit.
#[tactic(auto, using(crate::proofs::Digits::length_decimal_64))]
fn without_limit(time: u64) -> ArrayString<LINE>
    ensures { result.bytes ≡ decimal time ++ codes " -\n" }
{
    let mut text = ArrayString::new();
    push_number(&mut text, time);
    text.push_str(" -\n");
    text
}

// Appends the decimal digits of `n`. By hand: `write!` may answer an error, and digits copied from a buffer are no plainer.
fn push_number(text: &mut ArrayString<LINE>, n: u64)
    requires { array_string_len text.old + length (decimal n) ≤ 48 }
    ensures { text.new.bytes ≡ text.old.bytes ++ decimal n }
{
    if n >= 10 {
        push_number(text, n / 10);
    }
    text.push(char::from(last_digit(n)));
}

// The last decimal digit of `n`, as a byte.
fn last_digit(n: u64) -> u8
    ensures { result ≡ 48 + n % 10 }
{
    b'0' + (n % 10) as u8
}

// Fills the table with the text, and zeros after it; tells the text's length.
// A table and its length, and not a text: the public calls stay, and promise every byte of their caller's table.
pub fn fill<const N: usize>(table: &mut [u8; N], text: &ArrayString<N>) -> usize
    ensures length { result ≡ length text.now.bytes }
    ensures bytes { table.new ≡ text.now.bytes ++ replicate (N - length text.now.bytes) 0 }
    ensures fits { length text.now.bytes ≤ N }
{
    table.fill(0);
    let size = text.len();
    table[..size].copy_from_slice(text.as_bytes());
    size
}

// Fills the table with the line, line feed included, and zeros after it; tells the line's length.
// A table and a length, as in `fill`.
pub fn write_line(line: Line, table: &mut [u8; LINE]) -> usize
    ensures length { result ≡ length (text line) }
    ensures bytes { table.new ≡ text line ++ replicate (48 - length (text line)) 0 }
    ensures fits { length (text line) ≤ 48 }
{
    fill(table, &line.text())
}

#[cfg(test)]
mod tests {
    use super::*;

    #[test]
    fn place(rt: HostRuntime) {
        let mut table = [255; 48];
        let length = write_line(Line::Place { place: 3, rows: 3 }, &mut table);
        assert_eq!(rt; length, 15);
        assert_eq!(rt; &table[0..15], b"place 3 rows 3\n".as_slice());
        assert_eq!(rt; &table[15..48], [0; 33].as_slice());
    }

    #[test]
    fn longest(rt: HostRuntime) {
        let mut table = [255; 48];
        let length = write_line(
            Line::Refused {
                number: u32::MAX,
                offset: u64::MAX,
            },
            &mut table,
        );
        assert_eq!(rt; length, 43);
        assert_eq!(rt;
            &table[0..43],
            b"refused 4294967295 at 18446744073709551615\n".as_slice()
        );
        assert_eq!(rt; &table[43..48], [0; 5].as_slice());
    }
}
