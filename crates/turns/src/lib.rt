// A capture gone through as it is read: its bytes come into a buffer, and the lines of its records go out, turn by turn, where they are shown.
#![tactic(auto)]

ghost use Rattle.std.specs.Prelude.{◌≡◌, ◌≤◌, [], length, take, IsOk};
ghost use Rattle.lines.specs.Placing.{line_room};
ghost use Rattle.turns.specs.Turns.{is_read, started, InPlace, Turned, RecordsListed};

use input::Source;
use std::io;
use std::io::{Read, Write};
use stream::Record;

// Where a listing stands.
#[derive(Clone, Copy, PartialEq, Eq)]
pub enum Stage {
    Going,
    AllRead,
    // reading failed, or the input has no room for the rest of a record
    CannotRead,
    // standard output takes no more, or the output has no room for a line
    CannotWrite,
}

// There is more to list, or all has been read, or it cannot be.
impl From<Source> for Stage {
    ghost use Rattle.turns.specs.Turns.{stage_by};

    ghost from_gives = { λ source r. r ≡ stage_by source };

    fn from(source: Source) -> Stage {
        match source {
            Source::Open => Stage::Going,
            Source::Ended => Stage::AllRead,
            Source::Failed => Stage::CannotRead,
        }
    }
}

// Has all been read?
pub fn is_read(stage: Stage) -> bool
    ensures { result ≡ is_read stage }
{
    stage == Stage::AllRead
}

// What a turn leaves: the table, the records listed, the place of the bytes that are not listed yet and their end, and the stage.
#[derive(Clone, Copy)]
pub struct State {
    pub table: [Record; 64],
    pub records: u64,
    pub from: usize,
    pub have: usize,
    pub stage: Stage,
}

// Lines go out, where there are any.
fn write_lines<W: Write>(writer: &mut W, lines: &[u8]) -> io::Result<()>
    ensures { lines.now ≡ [] → IsOk result }
{
    if lines.is_empty() {
        return Ok(());
    }
    writer.write_all(lines)
}

// Nothing has been listed yet.
fn start(have: usize, stage: Stage) -> State
    ensures { result ≡ started have stage }
{
    State {
        table: table::unused_table(),
        records: 0,
        from: 0,
        have,
        stage,
    }
}

impl State {
    // Lists the whole records at the front of what has been read, and writes their lines. Where there is none, reads more.
    fn turn<R: Read, W: Write>(
        &mut self,
        reader: &mut R,
        writer: &mut W,
        input: &mut [u8],
        out: &mut [u8],
        shown: bool,
    )
        requires { InPlace input.old self.old }
        ensures { Turned shown input.old out.old self.old self.new input.new out.new }
    {
        let chunk = &input[self.from..self.have];
        let done = listing::chunk::list_chunk(&mut self.table, chunk, out, self.records, shown);
        self.records = done.records;
        self.from += done.at;
        if write_lines(writer, &out[..done.put]).is_err() {
            self.stage = Stage::CannotWrite;
            return;
        }
        if done.at > 0 {
            self.stage = Stage::Going;
            return;
        }
        let filled = input::refill(reader, input, self.from, self.have);
        self.from = 0;
        self.have = filled.end;
        self.stage = Stage::from(filled.source);
    }
}

// Turn after turn, until nothing is left to list. A proved loop has to end, so the turns are counted up to a number that no run reaches.
fn all_turns<R: Read, W: Write>(
    rt: HostRuntime,
    reader: &mut R,
    writer: &mut W,
    input: &mut [u8],
    have: usize,
    out: &mut [u8],
    shown: bool,
) -> State
    requires { (have ≤ length input.old) × (line_room ≤ length out.old) }
    ensures { RecordsListed shown (take have input.old) input.old out.old result input.new out.new }
{
    let mut s = start(have, Stage::Going);
    let mut told = progress::start(rt);
    for _ in 0..u64::MAX {
        s.turn(reader, writer, input, out, shown);
        if s.stage != Stage::Going {
            break;
        }
        told = progress::tell(rt, told, s.records);
    }
    progress::hide(rt, told);
    s
}

// Goes through the records of a capture of which so many bytes stand at the front of the input already, all of it where they are more than it
// has, and writes their lines to standard output, where they are shown. Where the output has no room for a line, nothing is read and nothing
// is listed.
pub fn list_records<R: Read, W: Write>(
    rt: HostRuntime,
    reader: &mut R,
    writer: &mut W,
    input: &mut [u8],
    have: usize,
    out: &mut [u8],
    shown: bool,
) -> State
    ensures { RecordsListed shown (take have input.old) input.old out.old result input.new out.new }
{
    let end = have.min(input.len());
    if !lines::roomy(out.len(), 0) {
        return start(end, Stage::CannotWrite);
    }
    all_turns(rt, reader, writer, input, end, out, shown)
}
