// Presentation times at zero, at both ends of the offset, at the wraps of L and T, at both ends of the arrival time, and about half a wrap
// away: each is reckoned and printed. Then about a stream's limit; which stamp is read, and from which block; and without a CIP header.
#![tactic(auto)]

use frame::layout::{Avtp, Cip, Ethernet, Fields, Header, Stream};
use presentation::{LARGEST_LIMIT, Timing};
use std::fmt::Display;
use std::{fmt, io};

const MARKED: [(u64, u32); 4] = [
    (4_294_967_290, 10),
    (4_294_967_306, 4_294_967_290),
    (10, 4_294_967_290),
    (5, 5),
];

const ENDS: [(u64, u32); 7] = [
    (0, 0),
    (0, 2_147_483_647),
    (0, 4_294_967_295),
    (u64::MAX, 0),
    (u64::MAX, 4_294_967_295),
    (u64::MAX - 2_147_483_647, 4_294_967_295),
    (u64::MAX - 2_147_483_646, 0),
];

// Half a wrap away, with L + d below 0, at 0 and above it; and a nanosecond less behind.
const HALF_WRAPS: [(u64, u32); 10] = [
    (0, 2_147_483_648),
    (2_147_483_647, 4_294_967_295),
    (2_147_483_648, 0),
    (2_147_483_649, 1),
    (u64::MAX, 2_147_483_647),
    (0, 2_147_483_649),
    (2_147_483_646, 4_294_967_295),
    (2_147_483_647, 0),
    (2_147_483_648, 1),
    (u64::MAX, 2_147_483_648),
];

// A stamp ahead by more than the limit is far, and by as much it is ahead; limit 0 and d 0 too.
const LIMITS: [(u64, u32, u32); 19] = [
    (5, 5, 0),
    (5, 6, 0),
    (1000, 3000, 1999),
    (1000, 3000, 2000),
    (1000, 3000, 2001),
    // T wraps.
    (4_294_967_290, 10, 15),
    (4_294_967_290, 10, 16),
    // Nothing is above the largest limit, nor above a number that is no limit.
    (0, 2_147_483_647, 0),
    (0, 2_147_483_647, 2_147_483_646),
    (0, 2_147_483_647, 2_147_483_647),
    (0, 2_147_483_647, 2_147_483_648),
    (0, 2_147_483_647, u32::MAX),
    (1000, 3000, 2_147_483_648),
    (1000, 3000, u32::MAX),
    // The largest time of all, and past it: outside and not far.
    (u64::MAX, 4_294_967_295, 0),
    (u64::MAX - 1, 4_294_967_295, 0),
    (u64::MAX - 2_147_483_647, 4_294_967_295, 2_147_483_646),
    (u64::MAX, 0, 0),
    (u64::MAX - 2_147_483_646, 0, 0),
];

// The other kinds keep their rules with limit 0: unclear, below 0, and late.
const OTHER_KINDS: [(u64, u32, u32); 8] = [
    (0, 2_147_483_648, 0),
    (2_147_483_649, 1, 0),
    (u64::MAX, 2_147_483_647, 0),
    (10, 4_294_967_290, 0),
    (0, 2_147_483_649, 0),
    (4_294_967_306, 4_294_967_290, 0),
    (6, 5, 0),
    (2_147_483_647, 0, 0),
];

// SPH, tv and a payload.
const STAMPS: [(bool, bool, &'static [u8]); 6] = [
    (false, false, b""),
    (false, true, b""),
    (true, true, b""),
    (true, false, b"\x00\x00\x0b"),
    (true, false, b"\x00\x00\x0b\xb8"),
    (true, true, b"\x00\x00\x03\x00\xff\xff\xff\xff"),
];

// The same with a limit. The AVTP timestamp is 500 ahead; where SPH is 1 it is not held to the limit.
const STAMPS_WITHIN: [(bool, bool, &'static [u8], u32); 10] = [
    (false, false, b"", 0),
    (false, true, b"", 499),
    (false, true, b"", 500),
    (true, true, b"", 0),
    (true, false, b"\x00\x00\x0b", 0),
    (true, false, b"\x00\x00\x0b\xb8", 1999),
    (true, false, b"\x00\x00\x0b\xb8", 2000),
    (true, true, b"\x00\x00\x0b\xb8", 500),
    (true, true, b"\x00\x00\x03\xe8", 0),
    (true, true, b"\x00\x00\x03\x00", 0),
];

// Without a CIP header the stamp is the AVTP timestamp, whatever the payload starts with.
const CAMERAS: [(bool, &'static [u8], u32); 6] = [
    (false, b"", LARGEST_LIMIT),
    (true, b"", LARGEST_LIMIT),
    (true, b"\x00", LARGEST_LIMIT),
    (false, b"\x00\x00\x0b\xb8", LARGEST_LIMIT),
    (true, b"\x00\x00\x0b\xb8", LARGEST_LIMIT),
    (true, b"\x00\x00\x0b\xb8", 499),
];

// DBS, FN, DBC and how many quadlets the payload has.
const STARTS: [(u8, u8, u8, u8); 20] = [
    (1, 0, 0, 9),
    (1, 0, 5, 9),
    (1, 1, 4, 9),
    (1, 1, 5, 9),
    (1, 2, 5, 9),
    (1, 3, 1, 9),
    (1, 3, 8, 9),
    // The last block is one, and no block is.
    (1, 3, 1, 8),
    (1, 3, 1, 7),
    // The count wraps inside the frame.
    (1, 3, 253, 9),
    (1, 2, 255, 2),
    (1, 2, 255, 1),
    // Blocks of two quadlets: four are whole, and a half is none.
    (2, 1, 1, 9),
    (2, 2, 1, 9),
    (2, 3, 4, 9),
    // Blocks of 256 quadlets: none is whole.
    (0, 0, 0, 9),
    // FN that no frame has: past eight bits all of a count must be zero.
    (1, 7, 121, 9),
    (1, 8, 250, 9),
    (1, 255, 0, 9),
    (1, 255, 64, 9),
];

// Each quadlet is L and its own number, so that the offset shown is the number of the quadlet that was read.
const QUADLETS: &'static [u8] =
    b"\x00\x00\x03\xe8\x00\x00\x03\xe9\x00\x00\x03\xea\x00\x00\x03\xeb\x00\x00\x03\xec\x00\x00\x03\xed\x00\x00\x03\xee\x00\x00\x03\xef\x00\x00\x03\xf0";

#[derive(Drop)]
struct Timed(Timing);

impl Display for Timed {
    fn fmt<W: fmt::Write>(&self, f: &mut fmt::Formatter<W>) -> fmt::Result {
        let timing = self.0;
        write!(
            f,
            " {} offset={} time={}",
            timing.kind, timing.offset, timing.time
        )
    }
}

// A stream's limit, where there is a stream.
#[derive(Drop)]
struct Within(Option<u32>);

impl Display for Within {
    fn fmt<W: fmt::Write>(&self, f: &mut fmt::Formatter<W>) -> fmt::Result {
        match self.0 {
            Some(limit) => write!(f, " limit={limit}"),
            None => Ok(()),
        }
    }
}

fn reckon(arrival_time: u64, stamp: u32, limit: Option<u32>) -> Timing {
    match limit {
        Some(limit) => presentation::reckon_within(arrival_time, stamp, limit),
        None => presentation::reckon(arrival_time, stamp),
    }
}

fn judge(fields: Fields, payload: &[u8], limit: Option<u32>) -> Timing {
    match limit {
        Some(limit) => presentation::judge_time_within(1000, fields, payload, limit),
        None => presentation::judge_time(1000, fields, payload),
    }
}

// The header of a sound frame with this tag, tv 0 or 1 and AVTP timestamp 1,500.
fn header(tag: u8, tv: bool) -> Header {
    Header {
        ethernet: Ethernet {
            destination: 0x91e0_f000_fe01,
            source: 0x0200_0000_0001,
            tpid: 0x8100,
            pcp: 3,
            cfi: false,
            vid: 2,
            ethertype: 0x22f0,
        },
        avtp: Avtp {
            cd: false,
            subtype: 0,
            sv: true,
            version: 0,
            mr: false,
            gv: false,
            tv,
            sequence: 0,
            tu: false,
        },
        stream: Stream {
            id: 1,
            timestamp: 1500,
            gateway_info: 0,
            data_length: 16,
            tag,
            channel: 31,
            sy: 0,
        },
    }
}

fn cip(sph: bool, dbs: u8, fraction_number: u8, dbc: u8) -> Cip {
    Cip {
        sid: 63,
        dbs,
        fraction_number,
        qpc: 0,
        sph,
        dbc,
        fmt: 16,
        fdf: 2,
        low_half: 0xffff,
    }
}

fn show(rt: HostRuntime, arrival_time: u64, stamp: u32, limit: Option<u32>) -> io::Result<()> {
    let timing = reckon(arrival_time, stamp, limit);
    println!(rt;
        "L={arrival_time} T={stamp}{}{}",
        Within(limit),
        Timed(timing)
    )
}

fn show_fields(
    rt: HostRuntime,
    fields: Fields,
    payload: &[u8],
    limit: Option<u32>,
) -> io::Result<()> {
    let sph = u8::from(fields.cip.sph);
    let tv = u8::from(fields.header.avtp.tv);
    let size = payload.len();
    let timing = judge(fields, payload, limit);
    println!(rt;
        "SPH={sph} tv={tv} payload={size}{}{}",
        Within(limit),
        Timed(timing)
    )
}

// Which stamp is read, and held to the limit.
fn show_stamp(
    rt: HostRuntime,
    sph: bool,
    tv: bool,
    payload: &[u8],
    limit: Option<u32>,
) -> io::Result<()> {
    let fields = Fields {
        header: header(1, tv),
        cip: cip(sph, 1, 0, 0),
    };
    show_fields(rt, fields, payload, limit)
}

// The stamp of a frame with tag 0.
fn show_camera(rt: HostRuntime, tv: bool, payload: &[u8], limit: u32) -> io::Result<()> {
    let fields = Fields {
        header: header(0, tv),
        cip: Cip::default(),
    };
    print!(rt; "tag=0 ")?;
    show_fields(rt, fields, payload, Some(limit))
}

// Which block the stamp is read from, in a payload of the first `quadlets` of some.
fn show_start(rt: HostRuntime, cip: Cip, quadlets: u8, limit: Option<u32>) -> io::Result<()> {
    let Some(payload) = QUADLETS.get(..4 * quadlets as usize) else {
        return Ok(());
    };
    let fields = Fields {
        header: header(1, true),
        cip,
    };
    let timing = judge(fields, payload, limit);
    let fraction_number = cip.fraction_number;
    print!(rt;
        "DBS={} FN={fraction_number} DBC={} quadlets={quadlets}",
        cip.dbs, cip.dbc
    )?;
    println!(rt; "{}{}", Within(limit), Timed(timing))
}

fn main(rt: HostRuntime) -> io::Result<()> {
    for times in [&MARKED[..], &ENDS[..], &HALF_WRAPS[..]] {
        for (arrival_time, stamp) in times {
            show(rt, *arrival_time, *stamp, None)?;
        }
    }
    for times in [&LIMITS[..], &OTHER_KINDS[..]] {
        for (arrival_time, stamp, limit) in times {
            show(rt, *arrival_time, *stamp, Some(*limit))?;
        }
    }
    for (sph, tv, payload) in STAMPS {
        show_stamp(rt, sph, tv, payload, None)?;
    }
    for (sph, tv, payload, limit) in STAMPS_WITHIN {
        show_stamp(rt, sph, tv, payload, Some(limit))?;
    }
    for (tv, payload, limit) in CAMERAS {
        show_camera(rt, tv, payload, limit)?;
    }
    for (dbs, fraction_number, dbc, quadlets) in STARTS {
        show_start(rt, cip(true, dbs, fraction_number, dbc), quadlets, None)?;
    }
    // The fourth block opens a source packet, and its stamp is held to the limit.
    show_start(rt, cip(true, 1, 2, 5), 9, Some(2))?;
    show_start(rt, cip(true, 1, 2, 5), 9, Some(3))
}
