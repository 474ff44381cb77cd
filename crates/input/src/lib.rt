// A program's input: a buffer that holds what was read and is not used yet, between two places.
#![tactic(auto)]

pub mod opening;

ghost use Rattle.std.specs.Prelude.{◌≡◌, length, take};
ghost use Rattle.input.specs.Input.{between, ReadBehind, First};

use std::io;
use std::io::Read;

// What became of the input.
#[derive(Clone, Copy, PartialEq, Eq)]
pub enum Source {
    // something came, and more may
    Open,
    Ended,
    // it could not be read, or there was no room to read into
    Failed,
}

// By what a read answered.
impl From<io::Result<usize>> for Source {
    ghost use Rattle.input.specs.Input.{source_by};

    ghost from_gives = { λ got r. r ≡ source_by got };

    fn from(got: io::Result<usize>) -> Source {
        match got {
            Ok(0) => Source::Ended,
            Ok(_) => Source::Open,
            Err(_) => Source::Failed,
        }
    }
}

// What reading found: where the bytes end now, and what became of the input.
#[derive(Clone, Copy)]
pub struct Filled {
    pub end: usize,
    pub source: Source,
}

// Room for the input: more than the 65,537 bytes of a capture's longest record.
pub fn buffer() -> [u8; 262144]
    ensures { 262144 ≡ length result }
{
    [0u8; 262144]
}

// Reads more behind the first bytes.
pub fn fill<R: Read>(reader: &mut R, input: &mut [u8], have: usize) -> Filled
    ensures { ReadBehind (take have input.old) input.old input.new result }
{
    if have >= input.len() {
        return Filled {
            end: input.len(),
            source: Source::Failed,
        };
    }
    let behind = &mut input[have..];
    let got = reader.read(behind);
    let n = got.unwrap_or(0);
    Filled {
        end: have + n,
        source: Source::from(got),
    }
}

// Moves the bytes between two places to the front, and reads more behind them.
pub fn refill<R: Read>(reader: &mut R, input: &mut [u8], from: usize, have: usize) -> Filled
    ensures { ReadBehind (between from have input.old) input.old input.new result }
{
    let end = have.min(input.len());
    if from > end {
        return fill(reader, input, 0);
    }
    input.copy_within(from..end, 0);
    fill(reader, input, end - from)
}

// Reads the first bytes of an input: at least as many as are wanted, where it has them.
pub fn first<R: Read>(reader: &mut R, input: &mut [u8], wanted: usize) -> Filled
    ensures { First wanted input.old input.new result }
{
    let mut filled = fill(reader, input, 0);
    while filled.end < wanted && filled.source == Source::Open {
        filled = fill(reader, input, filled.end);
    }
    filled
}
