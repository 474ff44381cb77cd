// Writes a frame for every edge of every field, of the payload's length and of each refusal, reads it back, and prints a line for each.
#![tactic(auto)]

mod again;
mod agree;
mod show;

use again::again;
use show::show;
use std::io;
use writer::Sender;
use writer::given::{AvtpFields, CipFields, EthernetFields, Given, StreamFields};

// Every field 0, but for the bit that makes the destination a group address, tag 1 and DBS 1.
const LOWEST: Given = Given {
    ethernet: EthernetFields {
        destination: 0x0100_0000_0000,
        source: 0,
        pcp: 0,
        vid: 0,
    },
    avtp: AvtpFields {
        mr: false,
        gv: false,
        tv: false,
        tu: false,
    },
    stream: StreamFields {
        id: 0,
        timestamp: 0,
        gateway_info: 0,
        tag: 1,
        channel: 0,
        sy: 0,
    },
    cip: CipFields {
        sid: 0,
        dbs: 1,
        fraction_number: 0,
        qpc: 0,
        sph: false,
        fmt: 0,
        fdf: 0,
        low_half: 0,
    },
};

// Every field at its largest value, but for the bit that would make the source a group address; the largest value of QPC is 0.
const LARGEST: Given = Given {
    ethernet: EthernetFields {
        destination: 0xffff_ffff_ffff,
        source: 0xfeff_ffff_ffff,
        pcp: 7,
        vid: 4095,
    },
    avtp: AvtpFields {
        mr: true,
        gv: true,
        tv: true,
        tu: true,
    },
    stream: StreamFields {
        id: 0xffff_ffff_ffff_ffff,
        timestamp: 0xffff_ffff,
        gateway_info: 0xffff_ffff,
        tag: 1,
        channel: 63,
        sy: 15,
    },
    cip: CipFields {
        sid: 63,
        dbs: 255,
        fraction_number: 3,
        qpc: 0,
        sph: true,
        fmt: 63,
        fdf: 255,
        low_half: 65535,
    },
};

// A given frame with a change.
fn changed<F: FnOnce(&mut Given)>(given: Given, change: F) -> Given
    requires { F.IsAlwaysCallable change }
{
    let mut given = given;
    change(&mut given);
    given
}

fn lowest<F: FnOnce(&mut Given)>(change: F) -> Given
    requires { F.IsAlwaysCallable change }
{
    changed(LOWEST, change)
}

// The same with this tag, and with no CIP header.
fn bare(tag: u8, given: Given) -> Given {
    changed(given, |g| {
        g.stream.tag = tag;
        g.cip = CipFields {
            dbs: 0,
            ..LOWEST.cip
        };
    })
}

// The lowest fields with tag 0 and a change.
fn bare_lowest<F: FnOnce(&mut Given)>(change: F) -> Given
    requires { F.IsAlwaysCallable change }
{
    changed(bare(0, LOWEST), change)
}

// A new sender's frame, with a payload of `n` bytes and an output of `room`.
fn first(rt: HostRuntime, name: &str, given: Given, n: usize, room: usize) -> io::Result<()> {
    let mut sender = Sender {
        sequence: 0,
        dbc: 0,
    };
    show(rt, name, &mut sender, given, n, room)
}

// One for each name and what is given under it, with a payload of four bytes, and room to spare.
fn edges(rt: HostRuntime, cases: &[(&str, Given)]) -> io::Result<()> {
    for (name, given) in cases {
        first(rt, name, *given, 4, 100)?;
    }
    Ok(())
}

// One for each name and the lengths under it, of the payload and of the output.
fn lengths(rt: HostRuntime, given: Given, cases: &[(&str, usize, usize)]) -> io::Result<()> {
    for (name, n, room) in cases {
        first(rt, name, given, *n, *room)?;
    }
    Ok(())
}

// One sender's frames, one after the other, with room to spare.
fn in_turn(rt: HostRuntime, sender: Sender, cases: &[(&str, Given, usize)]) -> io::Result<()> {
    let mut sender = sender;
    for (name, given, n) in cases {
        show(rt, name, &mut sender, *given, *n, 1600)?;
    }
    Ok(())
}

// Each of the lowest fields at its largest value.
fn largest_ethernet(rt: HostRuntime) -> io::Result<()> {
    edges(
        rt,
        &[
            (
                "destination largest",
                lowest(|g| g.ethernet.destination = 0xffff_ffff_ffff),
            ),
            (
                "source largest",
                lowest(|g| g.ethernet.source = 0xfeff_ffff_ffff),
            ),
            ("pcp 7", lowest(|g| g.ethernet.pcp = 7)),
            ("vid 4095", lowest(|g| g.ethernet.vid = 4095)),
        ],
    )
}

// The same of the four flags.
fn flags(rt: HostRuntime) -> io::Result<()> {
    edges(
        rt,
        &[
            ("mr", lowest(|g| g.avtp.mr = true)),
            ("gv", lowest(|g| g.avtp.gv = true)),
            ("tv", lowest(|g| g.avtp.tv = true)),
            ("tu", lowest(|g| g.avtp.tu = true)),
        ],
    )
}

// The same of the stream and the packet header.
fn largest_stream(rt: HostRuntime) -> io::Result<()> {
    edges(
        rt,
        &[
            (
                "stream id largest",
                lowest(|g| g.stream.id = 0xffff_ffff_ffff_ffff),
            ),
            (
                "timestamp largest",
                lowest(|g| g.stream.timestamp = 0xffff_ffff),
            ),
            (
                "gateway info largest",
                lowest(|g| g.stream.gateway_info = 0xffff_ffff),
            ),
            ("channel 63", lowest(|g| g.stream.channel = 63)),
            ("sy 15", lowest(|g| g.stream.sy = 15)),
        ],
    )
}

// The same of the CIP header; DBS is with the payloads, and QPC with the refusals.
fn largest_cip(rt: HostRuntime) -> io::Result<()> {
    edges(
        rt,
        &[
            ("sid 63", lowest(|g| g.cip.sid = 63)),
            ("fn 3", lowest(|g| g.cip.fraction_number = 3)),
            ("sph", lowest(|g| g.cip.sph = true)),
            ("fmt 63", lowest(|g| g.cip.fmt = 63)),
            ("fdf 255", lowest(|g| g.cip.fdf = 255)),
            ("low half 65535", lowest(|g| g.cip.low_half = 65535)),
        ],
    )
}

// DBS 1 with the shortest and the longest payload; DBS 0, which stands for 256 quadlets; DBS 255.
fn payloads(rt: HostRuntime) -> io::Result<()> {
    lengths(
        rt,
        LOWEST,
        &[("no payload", 0, 50), ("payload 1468", 1468, 1518)],
    )?;
    lengths(
        rt,
        lowest(|g| g.cip.dbs = 0),
        &[
            ("dbs 0, no payload", 0, 1600),
            ("dbs 0, payload 1024", 1024, 1600),
        ],
    )?;
    first(
        rt,
        "dbs 255, payload 1020",
        lowest(|g| g.cip.dbs = 255),
        1020,
        1600,
    )
}

// 31: a destination that is no group address, a source that is one.
fn wrong_addresses(rt: HostRuntime) -> io::Result<()> {
    edges(
        rt,
        &[
            (
                "destination no group",
                lowest(|g| g.ethernet.destination = 0xfeff_ffff_ffff),
            ),
            (
                "source a group",
                lowest(|g| g.ethernet.source = 0x0100_0000_0000),
            ),
        ],
    )
}

// 32: each field one above its largest value.
fn wide_ethernet(rt: HostRuntime) -> io::Result<()> {
    edges(
        rt,
        &[
            (
                "destination of 49 bits",
                lowest(|g| g.ethernet.destination = 0x1_0100_0000_0000),
            ),
            (
                "source of 49 bits",
                lowest(|g| g.ethernet.source = 0x1_0000_0000_0000),
            ),
            ("pcp 8", lowest(|g| g.ethernet.pcp = 8)),
            ("vid 4096", lowest(|g| g.ethernet.vid = 4096)),
        ],
    )
}

// 32 too.
fn wide_stream_and_cip(rt: HostRuntime) -> io::Result<()> {
    edges(
        rt,
        &[
            ("channel 64", lowest(|g| g.stream.channel = 64)),
            ("sy 16", lowest(|g| g.stream.sy = 16)),
            ("sid 64", lowest(|g| g.cip.sid = 64)),
            ("fn 4", lowest(|g| g.cip.fraction_number = 4)),
            ("fmt 64", lowest(|g| g.cip.fmt = 64)),
        ],
    )
}

// 32 too: QPC is 0 (request #105).
fn qpc(rt: HostRuntime) -> io::Result<()> {
    edges(
        rt,
        &[
            ("qpc 1", lowest(|g| g.cip.qpc = 1)),
            ("qpc 2", lowest(|g| g.cip.qpc = 2)),
            ("qpc 3", lowest(|g| g.cip.qpc = 3)),
            ("qpc 4", lowest(|g| g.cip.qpc = 4)),
            ("qpc 5", lowest(|g| g.cip.qpc = 5)),
            ("qpc 6", lowest(|g| g.cip.qpc = 6)),
            ("qpc 7", lowest(|g| g.cip.qpc = 7)),
            ("qpc 8", lowest(|g| g.cip.qpc = 8)),
            ("qpc 255", lowest(|g| g.cip.qpc = 255)),
        ],
    )
}

// 33, 34 and 35 on both sides of their edges.
fn wrong_lengths(rt: HostRuntime) -> io::Result<()> {
    lengths(
        rt,
        LOWEST,
        &[("payload 3", 3, 1600), ("payload 5", 5, 1600)],
    )?;
    lengths(
        rt,
        lowest(|g| g.cip.dbs = 0),
        &[
            ("dbs 0, payload 1020", 1020, 1600),
            ("dbs 0, payload 1028", 1028, 1600),
        ],
    )?;
    lengths(
        rt,
        LOWEST,
        &[
            ("payload 1472", 1472, 1600),
            ("room 53 of 54", 4, 53),
            ("room 54 of 54", 4, 54),
            ("no room", 0, 0),
        ],
    )
}

// Where two numbers apply, the lower one answers.
fn two_apply(rt: HostRuntime) -> io::Result<()> {
    let address = lowest(|g| g.ethernet.destination = 0x1_0000_0000_0000);
    let format = lowest(|g| g.cip.fmt = 64);
    first(rt, "31 and 32", address, 4, 100)?;
    first(rt, "32 and 33", format, 3, 1600)?;
    lengths(
        rt,
        LOWEST,
        &[
            ("33 and 34", 1469, 1600),
            ("33 and 35", 1, 50),
            ("34 and 35", 1472, 1521),
        ],
    )
}

// One sender's writes: both numbers wrap, a refused write leaves them, and a frame with no blocks leaves the block count.
fn one_sender(rt: HostRuntime) -> io::Result<()> {
    let sender = Sender {
        sequence: 254,
        dbc: 250,
    };
    in_turn(
        rt,
        sender,
        &[
            ("8 blocks", LOWEST, 32),
            ("refused between", LOWEST, 33),
            ("no blocks", LOWEST, 0),
            ("367 blocks", LOWEST, 1468),
            ("1 block", LOWEST, 4),
        ],
    )
}

// With tag 0 a payload has any length up to 1,476 bytes, and 33 is not asked.
fn bare_payloads(rt: HostRuntime) -> io::Result<()> {
    lengths(
        rt,
        bare(0, LOWEST),
        &[
            ("tag 0, no payload", 0, 42),
            ("tag 0, payload 1", 1, 1600),
            ("tag 0, payload 2", 2, 1600),
            ("tag 0, payload 3", 3, 1600),
            ("tag 0, payload 1024", 1024, 1600),
            ("tag 0, payload 1469", 1469, 1600),
            ("tag 0, payload 1476", 1476, 1518),
        ],
    )
}

// 34 and 35 with the sizes of tag 0.
fn bare_lengths(rt: HostRuntime) -> io::Result<()> {
    lengths(
        rt,
        bare(0, LOWEST),
        &[
            ("tag 0, payload 1477", 1477, 1600),
            ("tag 0, room 44 of 45", 3, 44),
            ("tag 0, room 45 of 45", 3, 45),
            ("tag 0, room 41 of 42", 0, 41),
        ],
    )
}

// 32: a tag above 1.
fn tags(rt: HostRuntime) -> io::Result<()> {
    edges(
        rt,
        &[
            ("tag 2", bare(2, LOWEST)),
            ("tag 3", bare(3, LOWEST)),
            ("tag 4", bare(4, LOWEST)),
            ("tag 255", bare(255, LOWEST)),
        ],
    )
}

// 32 too: tag 0 with a field of a CIP header.
fn bare_cip(rt: HostRuntime) -> io::Result<()> {
    edges(
        rt,
        &[
            ("tag 0, sid 1", bare_lowest(|g| g.cip.sid = 1)),
            ("tag 0, dbs 1", bare_lowest(|g| g.cip.dbs = 1)),
            ("tag 0, fn 1", bare_lowest(|g| g.cip.fraction_number = 1)),
            ("tag 0, qpc 1", bare_lowest(|g| g.cip.qpc = 1)),
            ("tag 0, sph", bare_lowest(|g| g.cip.sph = true)),
            ("tag 0, fmt 1", bare_lowest(|g| g.cip.fmt = 1)),
            ("tag 0, fdf 1", bare_lowest(|g| g.cip.fdf = 1)),
            ("tag 0, low half 1", bare_lowest(|g| g.cip.low_half = 1)),
        ],
    )
}

// Where two numbers apply with tag 0, the lower one answers.
fn bare_two_apply(rt: HostRuntime) -> io::Result<()> {
    let format = bare_lowest(|g| g.cip.dbs = 1);
    let address = changed(format, |g| g.ethernet.destination = 0);
    first(rt, "tag 0, 31 and 32", address, 4, 100)?;
    lengths(
        rt,
        format,
        &[
            ("tag 0, 32 and 34", 1477, 1600),
            ("tag 0, 32 and 35", 3, 44),
        ],
    )?;
    first(rt, "tag 0, 34 and 35", bare(0, LOWEST), 1477, 1518)
}

// One sender's writes with both tags: a frame with tag 0 moves the sequence number on and leaves the block count.
fn one_mixed_sender(rt: HostRuntime) -> io::Result<()> {
    let sender = Sender {
        sequence: 253,
        dbc: 250,
    };
    let bare = bare(0, LOWEST);
    in_turn(
        rt,
        sender,
        &[
            ("tag 0 first", bare, 1024),
            ("tag 1, 8 blocks", LOWEST, 32),
            ("tag 0, sequence 255", bare, 1476),
            ("tag 0 refused between", bare, 1477),
            ("tag 0, sequence 0", bare, 3),
            ("tag 1, 1 block", LOWEST, 4),
        ],
    )
}

// Frames read and written again.
fn written_back(rt: HostRuntime) -> io::Result<()> {
    let sender = Sender {
        sequence: 200,
        dbc: 100,
    };
    let bare_lowest = bare(0, LOWEST);
    again(rt, "tag 1 again", sender, LOWEST, 4)?;
    again(rt, "largest again", sender, LARGEST, 1020)?;
    again(rt, "tag 0, no payload again", sender, bare_lowest, 0)?;
    again(rt, "tag 0, payload 3 again", sender, bare_lowest, 3)?;
    again(rt, "tag 0, largest again", sender, bare(0, LARGEST), 1476)
}

fn main(rt: HostRuntime) -> io::Result<()> {
    first(rt, "lowest", LOWEST, 4, 100)?;
    first(rt, "largest", LARGEST, 1020, 1600)?;
    largest_ethernet(rt)?;
    flags(rt)?;
    largest_stream(rt)?;
    largest_cip(rt)?;
    payloads(rt)?;
    wrong_addresses(rt)?;
    wide_ethernet(rt)?;
    wide_stream_and_cip(rt)?;
    qpc(rt)?;
    wrong_lengths(rt)?;
    two_apply(rt)?;
    one_sender(rt)?;
    bare_payloads(rt)?;
    first(rt, "tag 0, largest", bare(0, LARGEST), 1476, 1600)?;
    bare_lengths(rt)?;
    tags(rt)?;
    bare_cip(rt)?;
    bare_two_apply(rt)?;
    one_mixed_sender(rt)?;
    written_back(rt)
}
