// Tables of stream records at their edges: a table of 65 records, which every call refuses with 20, a record lent alone, one id twice, the
// limit of each stream, and frames with and without a CIP header. Each call is made, and what it answers and leaves is printed.
#![tactic(auto)]

ghost use Rattle.std.specs.Prelude.{◌<◌};

use presentation::LARGEST_LIMIT;
use refusal::Refusal;
use std::io;
use stream::{Judged, Record};
use writer::Sender;
use writer::given::{AvtpFields, CipFields, EthernetFields, Given, StreamFields};

// ---- Printing

fn number_of<T: Copy>(answer: Result<T, Refusal>) -> u8 {
    match answer {
        Ok(_) => 0,
        Err(refusal) => u8::from(refusal),
    }
}

fn show_receipt(
    rt: HostRuntime,
    receipt: Result<Judged, Refusal>,
    frame: &[u8],
    arrival_time: u64,
) -> io::Result<()> {
    print!(rt; "receive L={arrival_time} number={}", number_of(receipt))?;
    if let Ok(judged) = receipt {
        print!(rt; " kind={} time={}", judged.timing.kind, judged.timing.time)?;
    }
    println!(rt; " payload={}", stream::payload_of(receipt, frame).len())
}

fn show_flags(rt: HostRuntime, receipt: Result<Judged, Refusal>) -> io::Result<()> {
    let Ok(judged) = receipt else {
        return Ok(());
    };
    let flags = judged.flags;
    println!(rt;
        "  flags sequence={} block={} format={} mr={}",
        u8::from(flags.sequence),
        u8::from(flags.block),
        u8::from(flags.format),
        u8::from(flags.mr)
    )
}

fn show_record(rt: HostRuntime, place: usize, r: &Record) -> io::Result<()> {
    println!(rt;
        "  record {place} in_use={} id={} sequence={} next_dbc={} limit={} frames={}",
        u8::from(r.in_use),
        r.id,
        r.sequence,
        r.next_dbc,
        r.limit,
        r.counts.frames
    )
}

// What a record keeps of tags and CIP headers.
fn show_kept(rt: HostRuntime, r: &Record) -> io::Result<()> {
    println!(rt;
        "  kept seen={} tag={} dbc_expected={} fmt={} dbs={} fn={} sph={}",
        u8::from(r.seen),
        r.tag,
        u8::from(r.dbc_expected),
        r.format.fmt,
        r.format.dbs,
        r.format.fraction_number,
        u8::from(r.format.sph)
    )
}

// The records at these places.
fn show_places(rt: HostRuntime, records: &[Record], places: &[usize]) -> io::Result<()> {
    for i in places {
        if let Some(r) = records.get(*i) {
            show_record(rt, *i, r)?;
        }
    }
    Ok(())
}

// ---- Frames

fn given(id: u64) -> Given {
    Given {
        ethernet: EthernetFields {
            destination: 0x91e0_f000_fe01,
            source: 0x0200_0000_0001,
            pcp: 3,
            vid: 2,
        },
        avtp: AvtpFields {
            mr: false,
            gv: false,
            tv: true,
            tu: false,
        },
        stream: StreamFields {
            id,
            timestamp: 3000,
            gateway_info: 0,
            tag: 1,
            channel: 31,
            sy: 0,
        },
        cip: CipFields {
            sid: 63,
            dbs: 1,
            fraction_number: 0,
            qpc: 0,
            sph: false,
            fmt: 16,
            fdf: 2,
            low_half: 0xffff,
        },
    }
}

// A frame with eight blocks and the stamp 3,000.
fn frame_of(id: u64, sequence: u8, dbc: u8) -> [u8; 82] {
    let mut out = [0u8; 82];
    let _ = writer::write(&mut Sender { sequence, dbc }, given(id), &[7; 32], &mut out);
    out
}

// The same with another byte where no writer puts one.
fn frame_with(at: usize, byte: u8, id: u64, sequence: u8, dbc: u8) -> [u8; 82]
    requires { at < 82 }
{
    let mut frame = frame_of(id, sequence, dbc);
    frame[at] = byte;
    frame
}

// Where such a byte stands, and what it is: QPC 3, and tag 2.
const QPC_AT: usize = 44;

const QPC_3: u8 = 0x18;

const TAG_AT: usize = 40;

const TAG_2: u8 = 0x9f;

// The same with tag 0: all from byte 42 on is payload, where a CIP header with DBS 9, FN 3, SPH 1 and DBC 99 seems to stand.
fn camera_frame(id: u64, sequence: u8) -> [u8; 82] {
    let mut frame = frame_of(id, sequence, 99);
    frame[40] = 0x1f;
    frame[43] = 9;
    frame[44] = 0xc4;
    frame
}

// Its first 41 bytes, one too few for a frame.
fn cut(frame: &[u8; 82]) -> &[u8] {
    &frame[..41]
}

// ---- Calls for a table that is lent, of any length

fn admit_within(rt: HostRuntime, records: &mut [Record], id: u64, limit: u32) -> io::Result<()> {
    let answer = table::admit(records, id, limit);
    println!(rt; "admit {id} limit={limit} number={}", number_of(answer))
}

fn admit(rt: HostRuntime, records: &mut [Record], id: u64) -> io::Result<()> {
    admit_within(rt, records, id, LARGEST_LIMIT)
}

fn remove(rt: HostRuntime, records: &mut [Record], id: u64) -> io::Result<()> {
    let answer = table::remove(records, id);
    println!(rt; "remove {id} number={}", number_of(answer))
}

fn receive_at(
    rt: HostRuntime,
    records: &mut [Record],
    frame: &[u8],
    arrival_time: u64,
) -> io::Result<()> {
    let receipt = table::receive(records, frame, arrival_time);
    show_receipt(rt, receipt, frame, arrival_time)
}

fn receive(rt: HostRuntime, records: &mut [Record], frame: &[u8]) -> io::Result<()> {
    receive_at(rt, records, frame, 1000)
}

// ---- A table of 65 records

fn too_long() -> [Record; 65] {
    let mut records = [stream::unused(); 65];
    records[0] = stream::admitted_within(1, LARGEST_LIMIT);
    records[64] = stream::admitted_within(2, LARGEST_LIMIT);
    records
}

// An id is admitted, then removed.
fn change(rt: HostRuntime, records: &mut [Record], id: u64, limit: u32) -> io::Result<()> {
    admit_within(rt, records, id, limit)?;
    remove(rt, records, id)
}

// 20 before all else: before 21, 24, 23, 1, 3 and 15.
fn show_too_long(rt: HostRuntime) -> io::Result<()> {
    println!(rt; "# 65 records")?;
    let mut records = too_long();
    show_places(rt, &records, &[0, 1, 64])?;
    change(rt, &mut records, 3, LARGEST_LIMIT)?;
    change(rt, &mut records, 1, LARGEST_LIMIT)?;
    change(rt, &mut records, 3, LARGEST_LIMIT + 1)?;
    show_places(rt, &records, &[0, 1, 64])?;
    let mut frame = frame_of(2, 1, 1);
    receive(rt, &mut records, &frame)?;
    receive(rt, &mut records, cut(&frame))?;
    frame[29] = 9;
    receive(rt, &mut records, &frame)?;
    frame[12] = 0;
    receive(rt, &mut records, &frame)?;
    show_places(rt, &records, &[0, 1, 64])
}

// ---- A record lent alone

fn receive_lent(
    rt: HostRuntime,
    lent: &mut Record,
    frame: &[u8],
    arrival_time: u64,
) -> io::Result<()> {
    let receipt = table::receive_record(lent, frame, arrival_time);
    show_receipt(rt, receipt, frame, arrival_time)?;
    show_record(rt, 0, lent)
}

// Accepted, too short, accepted, of another stream, and repeated.
fn show_alone(rt: HostRuntime) -> io::Result<()> {
    println!(rt; "# a record lent alone")?;
    let mut r = stream::admitted_within(5, LARGEST_LIMIT);
    receive_lent(rt, &mut r, &frame_of(5, 255, 250), 1000)?;
    receive_lent(rt, &mut r, cut(&frame_of(5, 0, 2)), 1000)?;
    receive_lent(rt, &mut r, &frame_of(5, 0, 2), 1000)?;
    receive_lent(rt, &mut r, &frame_of(6, 0, 2), 1000)?;
    receive_lent(rt, &mut r, &frame_of(5, 0, 2), 1000)
}

// QPC 3 in a frame of the stream, and in one of another, between two of its own.
fn show_qpc_3(rt: HostRuntime) -> io::Result<()> {
    println!(rt; "# QPC 3, to a record lent alone")?;
    let mut r = stream::admitted_within(5, LARGEST_LIMIT);
    receive_lent(rt, &mut r, &frame_of(5, 255, 250), 1000)?;
    receive_lent(rt, &mut r, &frame_with(QPC_AT, QPC_3, 5, 0, 2), 1000)?;
    receive_lent(rt, &mut r, &frame_with(QPC_AT, QPC_3, 6, 0, 2), 1000)?;
    receive_lent(rt, &mut r, &frame_of(5, 0, 2), 1000)
}

// An unused record is no stream's, though it holds the id 0.
fn show_unused(rt: HostRuntime) -> io::Result<()> {
    println!(rt; "# an unused record lent alone")?;
    let mut r = stream::unused();
    receive_lent(rt, &mut r, &frame_of(5, 1, 2), 1000)?;
    receive_lent(rt, &mut r, &frame_of(0, 1, 2), 1000)
}

// A lent record may hold any number. One above the largest limit acts as none, and stays. With L 2,147,486,649 the frame's d is 2,147,483,647.
fn show_limit_alone(rt: HostRuntime) -> io::Result<()> {
    println!(rt; "# a record lent alone, with a limit")?;
    for (limit, arrival_time) in [
        (1999, 1000),
        (2000, 1000),
        (LARGEST_LIMIT - 1, 2_147_486_649),
        (LARGEST_LIMIT, 2_147_486_649),
        (LARGEST_LIMIT + 1, 2_147_486_649),
        (u32::MAX, 2_147_486_649),
        (LARGEST_LIMIT + 1, 1000),
        (u32::MAX, 1000),
    ] {
        let mut r = stream::admitted_within(5, limit);
        receive_lent(rt, &mut r, &frame_of(5, 1, 2), arrival_time)?;
    }
    Ok(())
}

// ---- Tables of 64

fn one_id_twice() -> [Record; 64] {
    let mut records = table::unused_table();
    records[3] = stream::admitted_within(5, 1999);
    records[7] = stream::admitted_within(5, LARGEST_LIMIT);
    records
}

// The lower place counts, its limit too, and then the higher one.
fn show_twice(rt: HostRuntime) -> io::Result<()> {
    println!(rt; "# one id twice")?;
    let mut records = one_id_twice();
    receive(rt, &mut records, &frame_of(5, 10, 20))?;
    show_places(rt, &records, &[3, 7])?;
    admit(rt, &mut records, 5)?;
    remove(rt, &mut records, 5)?;
    show_places(rt, &records, &[3, 7])?;
    receive(rt, &mut records, &frame_of(5, 11, 24))?;
    remove(rt, &mut records, 5)?;
    show_places(rt, &records, &[3, 7])?;
    remove(rt, &mut records, 5)
}

// An unused record holds no id, not even 0. Both ends of the ids are admitted, and a place is taken again.
fn show_ids(rt: HostRuntime) -> io::Result<()> {
    println!(rt; "# ids 0 and 18446744073709551615")?;
    let mut records = table::unused_table();
    receive(rt, &mut records, &frame_of(0, 7, 7))?;
    admit(rt, &mut records, 0)?;
    admit(rt, &mut records, 0)?;
    admit(rt, &mut records, u64::MAX)?;
    receive(rt, &mut records, &frame_of(0, 255, 250))?;
    receive(rt, &mut records, &frame_of(u64::MAX, 8, 8))?;
    show_places(rt, &records, &[0, 1])?;
    remove(rt, &mut records, 0)?;
    admit(rt, &mut records, 6)?;
    show_places(rt, &records, &[0, 1])?;
    receive(rt, &mut records, &frame_of(0, 0, 2))
}

// Every record is in use. Those with an id of their own are the ones that are looked at.
fn full() -> [Record; 64] {
    let mut records = [stream::admitted_within(100, LARGEST_LIMIT); 64];
    records[31] = stream::admitted_within(131, LARGEST_LIMIT);
    records[63] = stream::admitted_within(163, LARGEST_LIMIT);
    records
}

fn show_full(rt: HostRuntime) -> io::Result<()> {
    println!(rt; "# a full table")?;
    let mut records = full();
    admit(rt, &mut records, 200)?;
    admit(rt, &mut records, 163)?;
    receive(rt, &mut records, &frame_of(163, 1, 1))?;
    show_places(rt, &records, &[31, 63])?;
    remove(rt, &mut records, 131)?;
    admit(rt, &mut records, 200)?;
    admit(rt, &mut records, 201)?;
    show_places(rt, &records, &[31, 63])
}

// ---- Limits

// 24, and 21 before it. A refused admission leaves the table as it was.
fn show_limits(rt: HostRuntime) -> io::Result<()> {
    println!(rt; "# limits")?;
    let mut records = table::unused_table();
    admit_within(rt, &mut records, 1, 0)?;
    admit_within(rt, &mut records, 2, 1)?;
    admit_within(rt, &mut records, 3, LARGEST_LIMIT)?;
    admit_within(rt, &mut records, 4, LARGEST_LIMIT + 1)?;
    admit_within(rt, &mut records, 4, u32::MAX)?;
    show_places(rt, &records, &[0, 1, 2, 3])?;
    admit_within(rt, &mut records, 1, LARGEST_LIMIT + 1)?;
    admit_within(rt, &mut records, 2, 0)?;
    show_places(rt, &records, &[0, 1, 2, 3])
}

// 22, and 24 before it, and 21 before both.
fn show_limits_full(rt: HostRuntime) -> io::Result<()> {
    println!(rt; "# limits and a full table")?;
    let mut records = full();
    admit_within(rt, &mut records, 200, 0)?;
    admit_within(rt, &mut records, 200, LARGEST_LIMIT + 1)?;
    admit_within(rt, &mut records, 163, u32::MAX)?;
    show_places(rt, &records, &[31, 63])
}

// A limit is kept until removal, and the next admission gives another.
fn show_limit_kept(rt: HostRuntime) -> io::Result<()> {
    println!(rt; "# a limit until removal")?;
    let mut records = table::unused_table();
    admit_within(rt, &mut records, 5, 1999)?;
    receive(rt, &mut records, &frame_of(5, 10, 20))?;
    show_record(rt, 0, &records[0])?;
    remove(rt, &mut records, 5)?;
    show_record(rt, 0, &records[0])?;
    admit_within(rt, &mut records, 5, 2000)?;
    receive(rt, &mut records, &frame_of(5, 11, 28))?;
    show_record(rt, 0, &records[0])
}

// Each stream is held to its own limit, with d 2,001, 2,000, 1,999, 1, 0 and -1.
fn show_two_limits(rt: HostRuntime) -> io::Result<()> {
    println!(rt; "# limits 2000 and 0 side by side")?;
    let mut records = table::unused_table();
    admit_within(rt, &mut records, 1, 2000)?;
    admit_within(rt, &mut records, 2, 0)?;
    for arrival_time in [999, 1000, 1001, 2999, 3000, 3001] {
        receive_at(rt, &mut records, &frame_of(1, 1, 1), arrival_time)?;
        receive_at(rt, &mut records, &frame_of(2, 1, 1), arrival_time)?;
    }
    show_places(rt, &records, &[0, 1])
}

// ---- Frames with and without a CIP header, to a record lent alone

fn judge_lent(rt: HostRuntime, lent: &mut Record, frame: &[u8]) -> io::Result<()> {
    let receipt = table::receive_record(lent, frame, 1000);
    show_receipt(rt, receipt, frame, 1000)?;
    show_flags(rt, receipt)?;
    show_record(rt, 0, lent)?;
    show_kept(rt, lent)
}

// The format flag at each change of the tag, and the count kept over two frames without one.
fn show_both_tags(rt: HostRuntime) -> io::Result<()> {
    println!(rt; "# tags 0, 1, 0, 0, 1, 1")?;
    let mut r = stream::admitted_within(5, LARGEST_LIMIT);
    judge_lent(rt, &mut r, &camera_frame(5, 255))?;
    judge_lent(rt, &mut r, &frame_of(5, 0, 250))?;
    judge_lent(rt, &mut r, &camera_frame(5, 1))?;
    judge_lent(rt, &mut r, &camera_frame(5, 2))?;
    judge_lent(rt, &mut r, &frame_of(5, 3, 2))?;
    judge_lent(rt, &mut r, &frame_of(5, 4, 10))
}

fn show_cameras_alone(rt: HostRuntime) -> io::Result<()> {
    println!(rt; "# tag 0 alone: the sequence is judged, and no count")?;
    let mut r = stream::admitted_within(5, LARGEST_LIMIT);
    for sequence in [254, 255, 0, 2] {
        judge_lent(rt, &mut r, &camera_frame(5, sequence))?;
    }
    Ok(())
}

fn show_first_count(rt: HostRuntime) -> io::Result<()> {
    println!(rt; "# tag 0, then the first count of all, then a wrong one")?;
    let mut r = stream::admitted_within(5, LARGEST_LIMIT);
    judge_lent(rt, &mut r, &camera_frame(5, 1))?;
    judge_lent(rt, &mut r, &frame_of(5, 2, 200))?;
    judge_lent(rt, &mut r, &frame_of(5, 3, 209))
}

fn show_count_kept(rt: HostRuntime) -> io::Result<()> {
    println!(rt; "# the count over a frame with tag 0: right, then wrong")?;
    let mut r = stream::admitted_within(5, LARGEST_LIMIT);
    judge_lent(rt, &mut r, &frame_of(5, 1, 10))?;
    judge_lent(rt, &mut r, &camera_frame(5, 2))?;
    judge_lent(rt, &mut r, &frame_of(5, 3, 18))?;
    judge_lent(rt, &mut r, &camera_frame(5, 4))?;
    judge_lent(rt, &mut r, &frame_of(5, 5, 25))
}

fn show_count_0(rt: HostRuntime) -> io::Result<()> {
    println!(rt; "# the count 0 is expected too")?;
    let mut r = stream::admitted_within(5, LARGEST_LIMIT);
    judge_lent(rt, &mut r, &frame_of(5, 1, 248))?;
    judge_lent(rt, &mut r, &camera_frame(5, 2))?;
    judge_lent(rt, &mut r, &frame_of(5, 3, 1))
}

// Nothing seen, and yet a count expected after tag 1. No history gives this record.
fn count_before_all() -> Record {
    Record {
        next_dbc: 9,
        tag: 1,
        dbc_expected: true,
        ..stream::admitted_within(5, LARGEST_LIMIT)
    }
}

fn show_count_before_all(rt: HostRuntime) -> io::Result<()> {
    println!(rt; "# a count expected before the first frame: tag 0 first, then tag 1")?;
    let mut r = count_before_all();
    judge_lent(rt, &mut r, &camera_frame(5, 1))?;
    judge_lent(rt, &mut r, &frame_of(5, 2, 200))?;
    println!(rt; "# the same record: tag 1 first")?;
    r = count_before_all();
    judge_lent(rt, &mut r, &frame_of(5, 1, 200))?;
    judge_lent(rt, &mut r, &frame_of(5, 2, 208))
}

// 12 and 15, each between two frames of the stream.
fn show_refused_between(rt: HostRuntime) -> io::Result<()> {
    println!(rt; "# refused frames between the tags")?;
    let mut r = stream::admitted_within(5, LARGEST_LIMIT);
    judge_lent(rt, &mut r, &frame_of(5, 1, 10))?;
    judge_lent(rt, &mut r, &frame_with(TAG_AT, TAG_2, 5, 2, 99))?;
    judge_lent(rt, &mut r, &camera_frame(6, 2))?;
    judge_lent(rt, &mut r, &camera_frame(5, 2))?;
    judge_lent(rt, &mut r, &frame_with(TAG_AT, TAG_2, 5, 3, 99))?;
    judge_lent(rt, &mut r, &frame_of(5, 3, 18))
}

// ---- The same to a table

fn judge(rt: HostRuntime, records: &mut [Record], frame: &[u8]) -> io::Result<()> {
    let receipt = table::receive(records, frame, 1000);
    show_receipt(rt, receipt, frame, 1000)?;
    show_flags(rt, receipt)
}

// Each is judged by its own record: the camera's third frame shows a loss, and the deck's a wrong count.
fn show_side_by_side(rt: HostRuntime) -> io::Result<()> {
    println!(rt; "# tag 0 and tag 1 side by side")?;
    let mut records = table::unused_table();
    admit(rt, &mut records, 1)?;
    admit(rt, &mut records, 2)?;
    for (camera, sequence, dbc) in [(1, 7, 100), (2, 8, 108), (4, 9, 117)] {
        judge(rt, &mut records, &camera_frame(1, camera))?;
        judge(rt, &mut records, &frame_of(2, sequence, dbc))?;
    }
    for i in 0..2 {
        show_record(rt, i, &records[i])?;
        show_kept(rt, &records[i])?;
    }
    Ok(())
}

// Removal forgets the tag and the count.
fn show_admitted_again(rt: HostRuntime) -> io::Result<()> {
    println!(rt; "# removed, and admitted again")?;
    let mut records = table::unused_table();
    admit(rt, &mut records, 5)?;
    judge(rt, &mut records, &frame_of(5, 1, 10))?;
    show_kept(rt, &records[0])?;
    remove(rt, &mut records, 5)?;
    show_kept(rt, &records[0])?;
    admit(rt, &mut records, 5)?;
    judge(rt, &mut records, &camera_frame(5, 9))?;
    show_kept(rt, &records[0])?;
    judge(rt, &mut records, &frame_of(5, 10, 77))?;
    show_kept(rt, &records[0])
}

fn main(rt: HostRuntime) -> io::Result<()> {
    show_too_long(rt)?;
    show_alone(rt)?;
    show_qpc_3(rt)?;
    show_unused(rt)?;
    show_twice(rt)?;
    show_ids(rt)?;
    show_full(rt)?;
    show_limit_alone(rt)?;
    show_limits(rt)?;
    show_limits_full(rt)?;
    show_limit_kept(rt)?;
    show_two_limits(rt)?;
    show_both_tags(rt)?;
    show_cameras_alone(rt)?;
    show_first_count(rt)?;
    show_count_kept(rt)?;
    show_count_0(rt)?;
    show_count_before_all(rt)?;
    show_refused_between(rt)?;
    show_side_by_side(rt)?;
    show_admitted_again(rt)
}
