// A frame judged by its SYT (requests #101 and #108): how far the cycle time that it carries lies from the one at which it arrived.
ghost use Rattle.std.specs.Prelude.{◌≡◌, ◌<◌};
ghost use Rattle.cycle.specs.Judgement.{gives_none, cycle_offset, timed_by, judged, judgement, judgement_answer, OneCycleOffset, SecondPlaysNoPart, SytTellsTick};

use crate::{Nanoseconds, Ticks};
use frame::layout::Fields;
use refusal::Refusal;
use std::fmt;

#[derive(Clone, Copy, PartialEq, Eq, Debug)]
pub enum CycleKind {
    None,
    Late,
    Ahead,
}

impl fmt::Display for CycleKind {
    ghost use Rattle.std.specs.Prelude.{Some};
    ghost use Rattle.cycle.specs.Kinds.{cycle_kind_name};

    ghost output = { λ kind. Some (cycle_kind_name kind) };

    fn fmt<W: fmt::Write>(&self, f: &mut fmt::Formatter<W>) -> fmt::Result {
        f.write_str(match self {
            CycleKind::None => "none",
            CycleKind::Late => "late",
            CycleKind::Ahead => "ahead",
        })
    }
}

// Ticks from a frame's arrival to its SYT, below zero where the SYT lies before it. A type of its own, as the offset of a presentation
// time is in nanoseconds.
#[derive(Clone, Copy, PartialEq, Eq, PartialOrd, Ord, Debug)]
pub struct TickOffset(pub i64);

#[derive(Clone, Copy, PartialEq, Eq, Debug)]
pub struct CycleTiming {
    pub kind: CycleKind,
    pub offset: TickOffset,
}

// A SYT tells a tick within 16 cycles: its wrap, and half of one.
const WRAP: u64 = 49_152;

const HALF_WRAP: u64 = 24_576;

// Is there nothing to judge by: no CIP header, SYT 0xFFFF, SPH 1, or SID 63?
#[tactic(auto, unfolding(crate::specs::Judgement::gives_none))]
fn gives_none(fields: Fields) -> bool
    ensures { result ≡ gives_none fields }
{
    let cip = fields.cip;
    fields.header.stream.tag != 1 || cip.low_half == 0xffff || cip.sph || cip.sid == 63
}

// The tick of a SYT against the one at which the frame arrived, by their difference modulo 16 cycles.
fn reckon(tick: Ticks, due: Ticks) -> CycleTiming
    requires { due.0 < 49_152 }
    ensures { result ≡ timed_by (cycle_offset tick due) }
{
    // The distance of the offset from the lowest one. A wrap more is added so that the difference is never below zero.
    let distance: u64 = (due.0 + HALF_WRAP + WRAP - tick.0 % WRAP) % WRAP;
    let offset: i64 = distance as i64 - HALF_WRAP as i64;
    let kind = if distance < HALF_WRAP {
        CycleKind::Late
    } else {
        CycleKind::Ahead
    };
    CycleTiming {
        kind,
        offset: TickOffset(offset),
    }
}

fn judge_fields(fields: Fields, arrival_time: Nanoseconds) -> Result<CycleTiming, Refusal>
    ensures { judgement_answer result ≡ judged fields arrival_time }
{
    if gives_none(fields) {
        return Ok(CycleTiming {
            kind: CycleKind::None,
            offset: TickOffset(0),
        });
    }
    let cip = fields.cip;
    let cycle = (cip.low_half >> 12) as u64;
    let offset = (cip.low_half & 0xfff) as u64;
    if 3_071 < offset {
        return Err(Refusal::OffsetInCycleTooLarge);
    }
    let due = cycle * 3_072 + offset;
    Ok(reckon(crate::tick_in_second(arrival_time), Ticks(due)))
}

// A frame's bytes with the time of its arrival: the reader's numbers, then none, then 62, then late or ahead. No table is asked.
pub fn judge(frame: &[u8], arrival_time: Nanoseconds) -> Result<CycleTiming, Refusal>
    ensures { judgement_answer result ≡ judgement frame.now arrival_time }
{
    let fields = frame::read(frame)?;
    judge_fields(fields, arrival_time)
}

// The cycle offset is the one number in range.
fn one_cycle_offset()
    ensures { OneCycleOffset }
{}

// The second in which a frame arrived plays no part.
#[tactic(auto, using(crate::proofs::Offsets::second_plays_no_part))]
fn second_plays_no_part()
    ensures { SecondPlaysNoPart }
{}

// The SYT of a cycle time tells its tick within 16 cycles.
#[tactic(auto, using(crate::proofs::Offsets::syt_tells_tick))]
fn syt_tells_tick()
    ensures { SytTellsTick }
{}
