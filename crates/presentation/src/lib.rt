// Presentation time: a frame's stamp against the time at which it arrived.
#![tactic(auto)]

ghost use Rattle.std.specs.Prelude.{◌≡◌};
ghost use Rattle.presentation.specs.Offset.{OneOffset, OffsetEdges};
ghost use Rattle.presentation.specs.Presentation.{untimed, source_packet_stamp, timing_of, timing_within, timing, UnclearAtHalfWrap, FarAboveLimit, presentation_within, presentation};

use frame::layout::{Cip, Fields};
use std::fmt;

#[derive(Clone, Copy, Debug, PartialEq, Eq)]
pub enum Kind {
    None,
    Cut,
    Outside,
    Late,
    Ahead,
    Unclear,
    Far,
}

// As document 01 has it, and requests #106 and #107.
impl fmt::Display for Kind {
    ghost use Rattle.std.specs.Prelude.{Some};
    ghost use Rattle.presentation.specs.Kinds.{kind_name};

    ghost output = { λ kind. Some (kind_name kind) };

    fn fmt<W: fmt::Write>(&self, f: &mut fmt::Formatter<W>) -> fmt::Result {
        f.write_str(match self {
            Kind::None => "none",
            Kind::Cut => "cut",
            Kind::Outside => "outside",
            Kind::Late => "late",
            Kind::Ahead => "ahead",
            Kind::Unclear => "unclear",
            Kind::Far => "far",
        })
    }
}

#[derive(Clone, Copy, Debug, PartialEq, Eq)]
pub struct Timing {
    pub kind: Kind,
    pub offset: i64,
    pub time: u64,
}

// What a frame has of a stamp: nothing, too few bytes for one, or the stamp T.
#[derive(Clone, Copy, Debug, PartialEq, Eq)]
pub enum Stamp {
    Absent,
    Short,
    Present(u32),
}

// A wrap of the stamp's 32 bits, and half of one.
const WRAP: u64 = 4_294_967_296;

const HALF_WRAP: u64 = 2_147_483_648;

// The largest limit that a stream is admitted with (request #107), which no offset is above. A reading without a record has it.
pub const LARGEST_LIMIT: u32 = 2_147_483_647;

// A kind that goes with no time.
fn untimed(kind: Kind, offset: i64) -> Timing
    ensures { result ≡ untimed kind offset }
{
    Timing {
        kind,
        offset,
        time: 0,
    }
}

// Stamp T against the arrival time L, for a stream with this limit. Whether T lies before or after L goes by their difference modulo a wrap,
// never by which number is the larger; half a wrap away it is unclear, and ahead by more than the limit it is far.
pub fn reckon_within(arrival_time: u64, stamp: u32, limit: u32) -> Timing
    ensures { result ≡ timing_within limit arrival_time stamp }
{
    // The distance of d from the lowest offset, which is half a wrap below zero: T - L + half a wrap, modulo a wrap.
    // A wrap more is added so that the difference is never below zero.
    let distance: u64 = (stamp as u64 + HALF_WRAP + WRAP - arrival_time % WRAP) % WRAP;
    let offset: i64 = distance as i64 - HALF_WRAP as i64;
    if distance < HALF_WRAP {
        let back = HALF_WRAP - distance;
        // Half a wrap behind is half a wrap ahead too.
        if back == HALF_WRAP {
            return untimed(Kind::Unclear, offset);
        }
        let Some(time) = arrival_time.checked_sub(back) else {
            return untimed(Kind::Outside, offset);
        };
        return Timing {
            kind: Kind::Late,
            offset,
            time,
        };
    }
    let on = distance - HALF_WRAP;
    let Some(time) = arrival_time.checked_add(on) else {
        return untimed(Kind::Outside, offset);
    };
    let kind = if on > limit as u64 {
        Kind::Far
    } else {
        Kind::Ahead
    };
    Timing { kind, offset, time }
}

// The same without a record: with the largest limit.
pub fn reckon(arrival_time: u64, stamp: u32) -> Timing
    ensures { result ≡ timing arrival_time stamp }
{
    reckon_within(arrival_time, stamp, LARGEST_LIMIT)
}

// The stamp in a payload, where SPH is 1: it opens the first source packet that starts there.
#[tactic(auto, unfolding(crate::specs::Presentation::source_packet_stamp))]
fn source_packet_stamp(cip: Cip, payload: &[u8]) -> Stamp
    ensures { result ≡ source_packet_stamp cip payload.now }
{
    if payload.len() == 0 {
        return Stamp::Absent;
    }
    if payload.len() < 4 {
        return Stamp::Short;
    }
    let Some(i) = source_packet::first_start(cip, payload) else {
        return Stamp::Absent;
    };
    let at = i * frame::checks::block_bytes(cip.dbs);
    Stamp::Present(wire::be32(payload, at))
}

// The presentation time by a stamp, if there is one.
fn timing_of(arrival_time: u64, stamp: Stamp, limit: u32) -> Timing
    ensures { result ≡ timing_of limit arrival_time stamp }
{
    match stamp {
        Stamp::Absent => untimed(Kind::None, 0),
        Stamp::Short => untimed(Kind::Cut, 0),
        Stamp::Present(stamp) => reckon_within(arrival_time, stamp, limit),
    }
}

// The presentation time of a frame with these fields and this payload, of a stream with this limit: of its AVTP timestamp, or where SPH is 1 of
// a stamp in its payload. The two are reckoned apart: a stamp that is the one or the other costs two instructions more for every frame.
#[tactic(auto, unfolding(crate::specs::Presentation::presentation_within, crate::specs::Presentation::stamp_of))]
pub fn judge_time_within(arrival_time: u64, fields: Fields, payload: &[u8], limit: u32) -> Timing
    ensures { result ≡ presentation_within limit arrival_time fields payload.now }
{
    if fields.cip.sph {
        return timing_of(
            arrival_time,
            source_packet_stamp(fields.cip, payload),
            limit,
        );
    }
    if fields.header.avtp.tv {
        return reckon_within(arrival_time, fields.header.stream.timestamp, limit);
    }
    untimed(Kind::None, 0)
}

// The same without a record: with the largest limit.
pub fn judge_time(arrival_time: u64, fields: Fields, payload: &[u8]) -> Timing
    ensures { result ≡ presentation arrival_time fields payload.now }
{
    judge_time_within(arrival_time, fields, payload, LARGEST_LIMIT)
}

// The offset is the one number in range for which L + d and T are equal modulo a wrap.

fn one_offset()
    ensures { OneOffset }
{}

// What the offset is at zero, at both ends and at the wrap.
#[tactic(auto, using(crate::proofs::Offset::offset_edges))]
fn offset_edges()
    ensures { OffsetEdges }
{}

// The kind is unclear half a wrap away, and nowhere else.
#[tactic(auto, using(crate::proofs::Reckoning::unclear_at_half_wrap))]
fn unclear_at_half_wrap()
    ensures { UnclearAtHalfWrap }
{}

// The kind is far where the stamp is ahead by more than the limit, and nowhere else; what is not far does not go by the limit.
#[tactic(auto, using(crate::proofs::Limits::far_above_limit))]
fn far_above_limit()
    ensures { FarAboveLimit }
{}
