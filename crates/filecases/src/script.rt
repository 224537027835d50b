// The lines of a script.
ghost use Rattle.std.specs.Prelude.{ℕ, MatchResult};
ghost use Rattle.filecases.specs.Digits.{Digit, Digits};

use std::alloc::{AllocError, Global};
use std::num::ParseIntError;
use thiserror::Error;

// What one line says: how many entries the road table has, and the bytes of the file.
#[derive(Drop)]
pub struct Case {
    pub room: usize,
    pub file: Vec<u8>,
}

// Why a line says no case.
#[derive(Debug, Drop, Error, PartialEq, Eq)]
pub enum Flaw {
    #[error("a number is expected")]
    Number(#[from] ParseIntError),
    #[error("two hexadecimal digits are expected")]
    Byte,
    #[error("there is no memory left")]
    Memory(#[from(alloc)] AllocError),
}

impl Case {
    // Reads a line: the number of entries and then the words of the file, a space before each.
    pub fn parse(heap: Global, line: &str) -> Result<Case, Flaw> {
        let mut words = line.split(' ');
        let room = words.next().unwrap_or("").parse::<usize>()?;
        let mut file = Vec::new(heap);
        for word in words {
            add_word(heap, &mut file, word)?;
        }
        Ok(Case { room, file })
    }
}

// Adds the bytes of a word to the file: digits, and maybe a `*` and how often their bytes stand there.
fn add_word(heap: Global, file: &mut Vec<u8>, word: &str) -> Result<(), Flaw> {
    let (digits, times) = match word.split_once('*') {
        Some((digits, times)) => (digits, times.parse::<usize>()?),
        None => (word, 1),
    };
    let unit = bytes(heap, digits)?;
    // Over numbers: `repeat` would make all of them in a second vector first.
    for _ in 0..times {
        file.extend_from_slice(unit.as_slice())?;
    }
    Ok(())
}

// The bytes that the digits say, two for each byte.
fn bytes(heap: Global, digits: &str) -> Result<Vec<u8>, Flaw> {
    let mut bytes = Vec::new(heap);
    for pair in digits.as_bytes().chunks(2) {
        let [high, low] = pair else {
            return Err(Flaw::Byte);
        };
        bytes.push(byte(*high, *low)?)?;
    }
    Ok(bytes)
}

// The byte that two hexadecimal digits say.
fn byte(high: u8, low: u8) -> Result<u8, Flaw>
    ensures { MatchResult result (λ b. Digits high low b) (λ _. (b : ℕ) → Digits high low b → ⊥) }
{
    let x = digit(high)?;
    let y = digit(low)?;
    Ok(16 * x + y)
}

// The value of a hexadecimal digit. A match: `from_str_radix` would also take capital letters and a sign.
fn digit(c: u8) -> Result<u8, Flaw>
    ensures { MatchResult result (λ d. Digit c d) (λ _. (d : ℕ) → Digit c d → ⊥) }
{
    match c {
        b'0'..=b'9' => Ok(c - b'0'),
        b'a'..=b'f' => Ok(c - b'a' + 10),
        _ => Err(Flaw::Byte),
    }
}
