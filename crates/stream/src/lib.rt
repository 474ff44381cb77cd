// A stream's record, and what an accepted frame makes of it: the flags judged on the record as it stood, the presentation time, and
// the record brought up to date.
#![tactic(auto)]

ghost use Rattle.std.specs.Prelude.{◌≡◌, ◌&&◌};
ghost use Rattle.wire.specs.Parts.{StandsIn};
ghost use Rattle.stream.specs.Records.{unused, admitted_within, ZeroRecords, format_of, sequence_break, flags_of, next_dbc, bump, counts_after, record_after};
ghost use Rattle.stream.specs.Step.{stepped};
ghost use Rattle.stream.specs.Answers.{receipt_answer, start_in, PayloadThere, RefusedAnswer};
ghost use Rattle.stream.specs.Examples.{MarkedExamples};

use frame::layout::{Cip, Fields};
use presentation::Timing;
use refusal::Refusal;
use tally::Tally;

// The four format fields of a CIP header.
#[derive(Clone, Copy, Debug, Default, PartialEq, Eq)]
pub struct Format {
    pub fmt: u8,
    pub dbs: u8,
    pub fraction_number: u8,
    pub sph: bool,
}

impl From<Cip> for Format {
    ghost from_gives = { λ cip format. format ≡ format_of cip };

    #[tactic(auto, unfolding(crate::specs::Records::format_of))]
    fn from(cip: Cip) -> Format {
        Format {
            fmt: cip.fmt,
            dbs: cip.dbs,
            fraction_number: cip.fraction_number,
            sph: cip.sph,
        }
    }
}

// Counts since admission. Each stays at 4,294,967,295 once there.
#[derive(Clone, Copy, Debug, Default, PartialEq, Eq)]
pub struct Counts {
    pub frames: u32,
    pub sequence_breaks: u32,
    pub block_breaks: u32,
    pub format_changes: u32,
    pub mr_changes: u32,
}

// A record has 136 bytes. Small fields stand side by side, but no order of the fields leaves less than 128, and with that a report took longer
// (docs/changes/106.md).
#[derive(Clone, Copy, Debug, Default, PartialEq, Eq)]
pub struct Record {
    pub in_use: bool,
    // a frame has been accepted since admission
    pub seen: bool,
    pub sequence: u8,
    // the block count that the next frame with a CIP header should have, where one is expected (`dbc_expected`). Not an Option:
    // `ZeroRecords` and `marked_examples` name both fields, and a record that is lent may hold any pair
    pub next_dbc: u8,
    // those of the last frame with a CIP header
    pub format: Format,
    pub id: u64,
    // the transit limit, in nanoseconds: a stamp ahead by more than this is far
    pub limit: u32,
    pub mr: bool,
    // the last frame's
    pub tag: u8,
    // a frame with a CIP header has been accepted since admission; not read while no frame has been
    pub dbc_expected: bool,
    pub counts: Counts,
    // what the visit report says of its presentation times; no flag and no kind reads it
    pub tally: Tally,
}

#[derive(Clone, Copy, Debug, Default, PartialEq, Eq)]
pub struct Flags {
    pub sequence: bool,
    pub block: bool,
    pub format: bool,
    pub mr: bool,
}

#[derive(Clone, Copy)]
pub struct Stepped {
    pub after: Record,
    pub flags: Flags,
    pub timing: Timing,
}

// What is answered to an accepted frame, beside its payload.
#[derive(Clone, Copy)]
pub struct Judged {
    pub fields: Fields,
    pub flags: Flags,
    pub timing: Timing,
}

#[tactic(auto, unfolding(crate::specs::Records::unused, tally::specs::Tally::no_tally))]
pub fn unused() -> Record
    ensures { result ≡ unused }
{
    Record::default()
}

// A stream newly admitted: its id and its limit, nothing seen, zero in every other field and count. Any limit may be given: one above
// 2,147,483,647, which admission to a table refuses, acts as that.
#[tactic(auto, unfolding(crate::specs::Records::unused, crate::specs::Records::admitted_within))]
pub fn admitted_within(id: u64, limit: u32) -> Record
    ensures { result ≡ admitted_within id limit }
{
    Record {
        in_use: true,
        id,
        limit,
        ..unused()
    }
}

fn sequence_break(last: u8, sequence: u8) -> bool
    ensures { result ≡ sequence_break last sequence }
{
    sequence != last.wrapping_add(1)
}

// The block count that follows a frame.
fn next_dbc(dbc: u8, blocks: usize) -> u8
    ensures { result ≡ next_dbc dbc blocks }
{
    dbc.wrapping_add((blocks % 256) as u8)
}

// A count, one higher where the flag is raised and there is room.
#[tactic(auto, unfolding(crate::specs::Records::bump))]
fn bump(raised: bool, count: u32) -> u32
    ensures { result ≡ bump raised count }
{
    count.saturating_add(u32::from(raised))
}

impl Counts {
    // Most frames raise no flag, and then only the frames are counted.
    #[tactic(auto, unfolding(crate::specs::Records::counts_after, crate::specs::Records::bump))]
    fn count(&mut self, raised: Flags)
        ensures { self.new ≡ counts_after self.old raised }
    {
        self.frames = bump(true, self.frames);
        if raised.sequence || raised.block || raised.format || raised.mr {
            self.sequence_breaks = bump(raised.sequence, self.sequence_breaks);
            self.block_breaks = bump(raised.block, self.block_breaks);
            self.format_changes = bump(raised.format, self.format_changes);
            self.mr_changes = bump(raised.mr, self.mr_changes);
        }
    }
}

impl Record {
    // Is a block count expected? None is before the first frame, whatever a record that is lent says.
    fn expects_count(&self) -> bool
        ensures { result ≡ (self.now.seen && self.now.dbc_expected) }
    {
        self.seen && self.dbc_expected
    }

    // Judged on the record as it stood, and on the format that is kept after the frame: without a CIP header that is the one from before, and
    // only the tag may differ. On the first frame after admission no flag is raised.
    #[tactic(auto, using(crate::proofs::Formats::flag_by_kept), unfolding(crate::specs::Records::flags_of, crate::specs::Records::block_flag, crate::specs::Records::format_flag, crate::specs::Records::format_change, crate::specs::Records::format_of, crate::specs::Records::kept_format))]
    fn flags(&self, fields: Fields) -> Flags
        ensures { result ≡ flags_of self.now fields }
    {
        let avtp = fields.header.avtp;
        let tag = fields.header.stream.tag;
        let cip = fields.cip;
        if !self.seen {
            return Flags::default();
        }
        let kept = if tag == 1 {
            Format::from(cip)
        } else {
            self.format
        };
        Flags {
            sequence: sequence_break(self.sequence, avtp.sequence),
            block: (tag == 1) & self.dbc_expected & (cip.dbc != self.next_dbc),
            format: (tag != self.tag) | (kept != self.format),
            mr: avtp.mr != self.mr,
        }
    }

    // After a frame that raised these flags and has this presentation time. A frame that has no CIP header leaves what is kept of those.
    #[tactic(auto, unfolding(crate::specs::Records::record_after, crate::specs::Records::kept_dbc, crate::specs::Records::dbc_expected, crate::specs::Records::kept_format, frame::specs::Reading::blocks_with))]
    fn update(&mut self, fields: Fields, payload: &[u8], raised: Flags, timing: Timing)
        ensures { self.new ≡ record_after self.old fields payload.now raised timing }
    {
        let avtp = fields.header.avtp;
        let tag = fields.header.stream.tag;
        let cip = fields.cip;
        self.dbc_expected = tag == 1 || self.expects_count();
        if tag == 1 {
            self.next_dbc = next_dbc(cip.dbc, frame::blocks(tag, payload, cip.dbs));
            self.format = Format::from(cip);
        }
        self.seen = true;
        self.sequence = avtp.sequence;
        self.mr = avtp.mr;
        self.tag = tag;
        self.counts.count(raised);
        self.tally.add(timing);
    }

    // One accepted frame, with its payload and arrival time: what is judged, and the record, where it stands, brought up to date.
    #[tactic(auto, unfolding(crate::specs::Step::stepped))]
    pub fn step(&mut self, fields: Fields, payload: &[u8], arrival_time: u64) -> (Flags, Timing)
        ensures { record { after = self.new; flags = result.0; timing = result.1 } ≡ stepped self.old fields payload.now arrival_time }
    {
        let timing = presentation::judge_time_within(arrival_time, fields, payload, self.limit);
        let flags = self.flags(fields);
        self.update(fields, payload, flags, timing);
        (flags, timing)
    }
}

// The same by value.
pub fn step(last: Record, fields: Fields, payload: &[u8], arrival_time: u64) -> Stepped
    ensures { result ≡ stepped last fields payload.now arrival_time }
{
    let mut after = last;
    let (flags, timing) = after.step(fields, payload, arrival_time);
    Stepped {
        after,
        flags,
        timing,
    }
}

// The payload that goes with a receipt: a part of the frame for which it was given, empty where that is refused.
#[tactic(auto, unfolding(crate::specs::Answers::refused_with))]
pub fn payload_of(receipt: Result<Judged, Refusal>, frame: &[u8]) -> &[u8]
    ensures result_value { result.now ≡ (receipt_answer receipt frame.now).payload }
    ensures stands_in { StandsIn frame.entry.ref_ptr (start_in receipt) result.ref_ptr (PayloadThere receipt frame.now) }
{
    match receipt {
        Ok(judged) => {
            let header = judged.fields.header;
            frame::data(frame, header.stream.tag, header.stream.data_length)
        }
        Err(_) => &frame[..0],
    }
}

// A record that is free or newly admitted holds zeros, but for the id and the limit: what fifty zero bytes hold, and no count.
fn zero_records()
    ensures { ZeroRecords }
{}

// Every part of a refused answer is zero, no or empty.
fn refused_answer()
    ensures { RefusedAnswer }
{}

// The rules answer document 01's marked examples M1 to M12 as it has them.
fn marked_examples()
    ensures { MarkedExamples }
{}
