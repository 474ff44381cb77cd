// Writes a capture to standard output: stream 1 is admitted, and then one sender's successive frames arrive, with payloads of no, one
// and more blocks, while sequence number and block count wrap.
#![tactic(auto)]

ghost use Rattle.std.specs.Prelude.{◌≤◌};

use std::io;
use writer::Sender;
use writer::given::{AvtpFields, CipFields, EthernetFields, Given, StreamFields};

fn given(timestamp: u32) -> Given {
    Given {
        ethernet: EthernetFields {
            destination: 0x91e0_f000_fe01,
            source: 0x0200_0000_0001,
            pcp: 3,
            vid: 2,
        },
        avtp: AvtpFields {
            mr: false,
            gv: false,
            tv: true,
            tu: false,
        },
        stream: StreamFields {
            id: 1,
            timestamp,
            gateway_info: 0,
            tag: 1,
            channel: 31,
            sy: 0,
        },
        cip: CipFields {
            sid: 63,
            dbs: 2,
            fraction_number: 0,
            qpc: 0,
            sph: false,
            fmt: 16,
            fdf: 2,
            low_half: 65535,
        },
    }
}

// Kind 2: eight id bytes in wire order.
fn put_admission(rt: HostRuntime) -> io::Result<()> {
    rt.write_all(b"\x0a\x00\x02\x00\x00\x00\x00\x00\x00\x00\x00\x01")
}

// Kind 1: a frame with this many blocks of eight bytes, due at a time and arriving at half of it.
fn send(rt: HostRuntime, sender: &mut Sender, time: u32, blocks: usize) -> io::Result<()>
    requires { blocks ≤ 15 }
{
    let n = 8 * blocks;
    let payload = [0x55; 120];
    let mut out = [0; 170];
    if writer::write(sender, given(time), &payload[..n], &mut out).is_err() {
        return Ok(());
    }
    let frame = &out[..50 + n];
    // The record's length counts the kind and the arrival time too.
    let record_length = (frame.len() + 10) as u16;
    let arrival_time = u64::from(time) / 2;
    let [low, high] = record_length.to_le_bytes();
    rt.write_all(&[low, high, 1, 0])?;
    rt.write_all(&arrival_time.to_le_bytes())?;
    rt.write_all(frame)
}

fn main(rt: HostRuntime) -> io::Result<()> {
    put_admission(rt)?;
    let mut sender = Sender {
        sequence: 240,
        dbc: 100,
    };
    for i in 0..64u32 {
        send(rt, &mut sender, 1000 * i, (i % 16) as usize)?;
    }
    Ok(())
}
