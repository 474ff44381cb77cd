// The lines of a listing, put into a buffer that the caller lends.
#![tactic(auto)]

mod parts;

ghost use Rattle.std.specs.Prelude.{◌≡◌, ◌≤◌, length, nat_lt};
ghost use Rattle.lines.specs.Lines.{start_line, ending, line_of, line_text};
ghost use Rattle.lines.specs.Placing.{roomy, placed_line, line_at};

use presentation::Timing;
use refusal::Refusal;
use stream::Flags;

// What became of a record of a capture that is not refused.
#[derive(Clone, Copy)]
pub enum Outcome {
    Admitted,
    // An accepted frame.
    Frame {
        tag: u8,
        flags: Flags,
        timing: Timing,
    },
}

// The room that a line is given. No line has more than 110 bytes, nor have the two lines at the end of a cut capture more than this.
const LINE_ROOM: usize = 128;

// Does a buffer of `len` bytes have room for a line at place `at`?
pub fn roomy(len: usize, at: usize) -> bool
    ensures { result ≡ roomy len at }
{
    len.saturating_sub(at) >= LINE_ROOM
}

// The first line. Each call answers the place after its line, and none where fewer than `LINE_ROOM` bytes are left: then the buffer is as it
// was.
#[tactic(auto, using(crate::proofs::Placing::placing, text::proofs::Puts::alone))]
pub fn put_start(out: &mut [u8], at: usize) -> Option<usize>
    ensures out_after { placed_line result out.new ≡ line_at out.old at start_line }
    ensures out_in_bounds { (placed_line result out.new).end ≤ length out.new }
{
    if !roomy(out.len(), at) {
        return None;
    }
    Some(text::put(out, at, b"avtp listing 1\n"))
}

// The line of record number `n`.
#[tactic(auto, using(crate::proofs::Placing::placing))]
pub fn put_record(
    out: &mut [u8],
    at: usize,
    n: u64,
    outcome: Result<Outcome, Refusal>,
) -> Option<usize>
    ensures out_after { placed_line result out.new ≡ line_at out.old at (line_text n (line_of outcome)) }
    ensures out_in_bounds { (placed_line result out.new).end ≤ length out.new }
{
    if !roomy(out.len(), at) {
        return None;
    }
    Some(parts::put_line(out, at, n, outcome))
}

// The end of a listing, after so many records, where so many bytes are left that are no whole record: if there are any, the line of
// the record in which the capture ends, and then the last line.
#[tactic(auto, using(crate::proofs::Placing::placing, crate::proofs::Lengths::ending_length), unfolding(crate::specs::Lines::ending))]
pub fn put_ending(out: &mut [u8], at: usize, left: usize, records: u64) -> Option<usize>
    ensures out_after { placed_line result out.new ≡ line_at out.old at (ending (nat_lt 0 left) records) }
    ensures out_in_bounds { (placed_line result out.new).end ≤ length out.new }
{
    if !roomy(out.len(), at) {
        return None;
    }
    if left > 0 {
        return Some(parts::put_cut(out, at, records));
    }
    Some(parts::put_last(out, at, records))
}
