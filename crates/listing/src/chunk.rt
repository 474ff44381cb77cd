// A chunk of a capture at a time: the whole records at its front, as far as the output has room for their lines. Where `shown` is off no line
// is made and the output stays as it was, for a caller who wants the table alone; it must have room for one line all the same.
ghost use Rattle.std.specs.Prelude.{◌≡◌, ◌≤◌, length};
ghost use Rattle.capture.specs.Records.{held_of};
ghost use Rattle.lines.specs.Lines.{line_of, line_text};
ghost use Rattle.lines.specs.Placing.{placed_line, line_at};
ghost use Rattle.listing.specs.Listing.{if_shown};
ghost use Rattle.listing.specs.Private.{Obeyed, RecordListed};
ghost use Rattle.listing.specs.Chunks.{ChunkListed};

use capture::{Content, Entry};
use lines::Outcome;
use refusal::Refusal;
use stream::Record;

// How far the chunk is listed.
#[derive(Clone, Copy)]
pub struct Progress {
    // The bytes of the chunk that are used.
    pub at: usize,
    // The bytes of text in the output.
    pub put: usize,
    // The records listed in all.
    pub records: u64,
}

// What becomes of a record, and of the table.
#[tactic(auto, using(refusal::proofs::First::positive), unfolding(stream::specs::Answers::refused_with))]
fn obey(
    table: &mut [Record],
    record: &[u8],
    content: Result<Content, Refusal>,
) -> Result<Outcome, Refusal>
    ensures { Obeyed table.old «record».now (held_of content) result table.new }
{
    match content? {
        Content::Frame { arrival_time } => {
            let judged = table::receive(table, capture::frame_in(record), arrival_time)?;
            Ok(Outcome::Frame {
                tag: judged.fields.header.stream.tag,
                flags: judged.flags,
                timing: judged.timing,
            })
        }
        Content::Admit { id, limit } => {
            table::admit(table, id, limit)?;
            Ok(Outcome::Admitted)
        }
    }
}

// The line of record number `n`, where lines are shown.
#[tactic(auto, unfolding(lines::specs::Placing::line_at))]
fn put_shown(
    out: &mut [u8],
    at: usize,
    n: u64,
    outcome: Result<Outcome, Refusal>,
    shown: bool,
) -> Option<usize>
    ensures out_after { placed_line result out.new ≡ line_at out.old at (if_shown shown (line_text n (line_of outcome))) }
    ensures out_in_bounds { (placed_line result out.new).end ≤ length out.new }
{
    if shown {
        return lines::put_record(out, at, n, outcome);
    }
    lines::roomy(out.len(), at).then_some(at)
}

// One more record. None where no record is whole, or its line has no room.
#[tactic(auto, unfolding(lines::specs::Placing::line_at))]
fn list_record(
    table: &mut [Record],
    chunk: &[u8],
    out: &mut [u8],
    p: Progress,
    shown: bool,
) -> Option<Progress>
    requires { p.at ≤ length chunk.now }
    ensures { RecordListed shown chunk.now table.old p out.old result table.new out.new }
{
    if !lines::roomy(out.len(), p.put) {
        return None;
    }
    let rest = &chunk[p.at..];
    let Entry::Whole { size, content } = capture::next_record(rest) else {
        return None;
    };
    let record = &rest[..size];
    let outcome = obey(table, record, content);
    let records = p.records.wrapping_add(1);
    let put = put_shown(out, p.put, records, outcome, shown)?;
    Some(Progress {
        at: p.at + size,
        put,
        records,
    })
}

// The whole records at the front of the chunk, as far as the output has room for their lines. `records` were listed before.
pub fn list_chunk(
    table: &mut [Record; 64],
    chunk: &[u8],
    out: &mut [u8],
    records: u64,
    shown: bool,
) -> Progress
    ensures { ChunkListed shown chunk.now table.old records out.old result table.new out.new }
{
    let mut p = Progress {
        at: 0,
        put: 0,
        records,
    };
    while let Some(next) = list_record(table, chunk, out, p, shown) {
        p = next;
    }
    p
}
