// The lines of a listing and what they are made of. Each call answers the place after its text, and all of it is there where that place
// is in the buffer.
ghost use Rattle.std.specs.Prelude.{◌≤◌, true, ◌++◌, length};
ghost use Rattle.frame.specs.Layout.{has_cip};
ghost use Rattle.refusal.specs.Refusals.{number_of};
ghost use Rattle.text.specs.Text.{ascii};
ghost use Rattle.text.specs.InTurn.{PutInTurn};
ghost use Rattle.lines.specs.Lines.{end_line, ending, admitted, refused, frame, flag_word, block_word, flags_text, kind_word, timing_text, line_of, line_text};
ghost use Rattle.lines.specs.Placing.{line_room};

use crate::Outcome;
use presentation::{Kind, Timing};
use refusal::Refusal;
use stream::Flags;

// A label, and the word where the flag is raised, else `ok`.
fn put_flag(out: &mut [u8], at: usize, label: &[u8], raised: bool, word: &[u8]) -> usize
    ensures { PutInTurn out.old at (label.now ++ flag_word raised word.now) out.new result }
{
    let a = text::put(out, at, label);
    if raised {
        return text::put(out, a, word);
    }
    text::put(out, a, b"ok")
}

// The word for the block count: without a CIP header none is judged.
#[tactic(auto, using(text::proofs::Puts::alone))]
fn put_block(out: &mut [u8], at: usize, tag: u8, raised: bool) -> usize
    ensures { PutInTurn out.old at (ascii " dbc=" ++ block_word (has_cip tag) raised) out.new result }
{
    if tag != 1 {
        return text::put(out, at, b" dbc=none");
    }
    put_flag(out, at, b" dbc=", raised, b"break")
}

fn put_each_flag(out: &mut [u8], at: usize, tag: u8, flags: Flags) -> usize
    ensures { PutInTurn out.old at (flags_text tag flags) out.new result }
{
    let a = put_flag(out, at, b" frame seq=", flags.sequence, b"break");
    let b = put_block(out, a, tag, flags.block);
    let c = put_flag(out, b, b" fmt=", flags.format, b"change");
    put_flag(out, c, b" mr=", flags.mr, b"change")
}

// The flags, at once where each is judged and none is raised.
fn put_flags(out: &mut [u8], at: usize, tag: u8, flags: Flags) -> usize
    ensures { PutInTurn out.old at (flags_text tag flags) out.new result }
{
    if tag != 1 || flags.sequence || flags.block || flags.format || flags.mr {
        return put_each_flag(out, at, tag, flags);
    }
    text::put(out, at, b" frame seq=ok dbc=ok fmt=ok mr=ok")
}

// The kind, with what stands before and after it.
#[tactic(auto, using(text::proofs::Puts::alone))]
fn put_kind(out: &mut [u8], at: usize, kind: Kind) -> usize
    ensures { PutInTurn out.old at (ascii " time=" ++ kind_word kind ++ ascii " offset=") out.new result }
{
    match kind {
        Kind::None => text::put(out, at, b" time=none offset="),
        Kind::Cut => text::put(out, at, b" time=cut offset="),
        Kind::Outside => text::put(out, at, b" time=outside offset="),
        Kind::Late => text::put(out, at, b" time=late offset="),
        Kind::Ahead => text::put(out, at, b" time=ahead offset="),
        Kind::Unclear => text::put(out, at, b" time=unclear offset="),
        Kind::Far => text::put(out, at, b" time=far offset="),
    }
}

// The end of a frame's line.
#[tactic(auto, using(crate::proofs::Lengths::timing_length, text::proofs::Signs::signed_length))]
fn put_timing(out: &mut [u8], at: usize, timing: Timing) -> usize
    ensures put_in_turn { PutInTurn out.old at (timing_text timing) out.new result }
    ensures timing_len_bound { length (timing_text timing) ≤ 43 }
{
    let kind = timing.kind;
    let a = put_kind(out, at, kind);
    let b = text::put_signed(out, a, timing.offset);
    text::put(out, b, b"\n")
}

#[tactic(auto, using(crate::proofs::Lengths::frame_length_lem))]
fn put_frame(out: &mut [u8], at: usize, n: u64, tag: u8, flags: Flags, timing: Timing) -> usize
    ensures put_in_turn { PutInTurn out.old at (line_text n (frame tag flags timing)) out.new result }
    ensures timing_len_bound { length (line_text n (frame tag flags timing)) ≤ 110 }
{
    let a = text::put_decimal(out, at, n);
    let b = put_flags(out, a, tag, flags);
    put_timing(out, b, timing)
}

#[tactic(auto, using(crate::proofs::Lengths::refused_length))]
fn put_refused(out: &mut [u8], at: usize, n: u64, refusal: Refusal) -> usize
    ensures put_in_turn { PutInTurn out.old at (line_text n (refused (number_of refusal))) out.new result }
    ensures refusal_len_bound { length (line_text n (refused (number_of refusal))) ≤ 50 }
{
    let a = text::put_decimal(out, at, n);
    let b = text::put(out, a, b" refused ");
    let c = text::put_decimal(out, b, u64::from(u8::from(refusal)));
    text::put(out, c, b"\n")
}

#[tactic(auto, using(crate::proofs::Lengths::admitted_length))]
fn put_admitted(out: &mut [u8], at: usize, n: u64) -> usize
    ensures put_in_turn { PutInTurn out.old at (line_text n admitted) out.new result }
    ensures admitted_len_bound { length (line_text n admitted) ≤ 30 }
{
    let a = text::put_decimal(out, at, n);
    text::put(out, a, b" admitted\n")
}

pub(crate) fn put_line(
    out: &mut [u8],
    at: usize,
    n: u64,
    outcome: Result<Outcome, Refusal>,
) -> usize
    ensures put_in_turn { PutInTurn out.old at (line_text n (line_of outcome)) out.new result }
    ensures outcome_len_bound { length (line_text n (line_of outcome)) ≤ line_room }
{
    match outcome {
        Ok(Outcome::Admitted) => put_admitted(out, at, n),
        Ok(Outcome::Frame { tag, flags, timing }) => put_frame(out, at, n, tag, flags, timing),
        Err(refusal) => put_refused(out, at, n, refusal),
    }
}

pub(crate) fn put_last(out: &mut [u8], at: usize, records: u64) -> usize
    ensures { PutInTurn out.old at (end_line records) out.new result }
{
    let a = text::put(out, at, b"end records=");
    let b = text::put_decimal(out, a, records);
    text::put(out, b, b"\n")
}

// The line of a record in which the capture ends, and the last line.
pub(crate) fn put_cut(out: &mut [u8], at: usize, records: u64) -> usize
    ensures { PutInTurn out.old at (ending true records) out.new result }
{
    let n = records.wrapping_add(1);
    let a = put_refused(out, at, n, Refusal::RecordCut);
    put_last(out, a, n)
}
