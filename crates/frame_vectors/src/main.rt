// Reads frames from standard input, each a line of hexadecimal digits, and prints what each is answered: `refused` and document 01's
// number, or `accepted` and every field, its payload's length, its blocks and the payload's first four bytes, 0 where it has
// fewer. A line that starts with `#` is printed as it stands.
#![tactic(auto)]

ghost use Rattle.std.specs.Prelude.{◌≤◌, ◌<◌, length, IfOk};

use frame::layout::{Avtp, Cip, Ethernet, Fields, Stream};
use input::Source;
use messages::noting::Noting;
use std::io;

fn show_ethernet(rt: HostRuntime, e: Ethernet) -> io::Result<()> {
    let cfi = u8::from(e.cfi);
    print!(rt;
        " destination={:012x} source={:012x} tpid={:04x}",
        e.destination, e.source, e.tpid
    )?;
    print!(rt;
        " pcp={} cfi={cfi} vid={} ethertype={:04x}",
        e.pcp, e.vid, e.ethertype
    )
}

fn show_avtp(rt: HostRuntime, a: Avtp) -> io::Result<()> {
    let [cd, sv, mr, gv, tv, tu] = [a.cd, a.sv, a.mr, a.gv, a.tv, a.tu].map(u8::from);
    print!(rt;
        " cd={cd} subtype={} sv={sv} version={} mr={mr} gv={gv} tv={tv}",
        a.subtype, a.version
    )?;
    print!(rt; " sequence={} tu={tu}", a.sequence)
}

fn show_stream(rt: HostRuntime, s: Stream) -> io::Result<()> {
    print!(rt;
        " id={:016x} timestamp={} gateway_info={:08x}",
        s.id, s.timestamp, s.gateway_info
    )?;
    print!(rt;
        " stream_data_length={} tag={} channel={} sy={}",
        s.data_length, s.tag, s.channel, s.sy
    )
}

fn show_cip(rt: HostRuntime, c: Cip) -> io::Result<()> {
    let sph = u8::from(c.sph);
    print!(rt;
        " sid={} dbs={} fn={} qpc={} sph={sph}",
        c.sid, c.dbs, c.fraction_number, c.qpc
    )?;
    print!(rt;
        " dbc={} fmt={} fdf={} low_half={:04x}",
        c.dbc, c.fmt, c.fdf, c.low_half
    )
}

fn show_payload(rt: HostRuntime, tag: u8, payload: &[u8], dbs: u8) -> io::Result<()> {
    let size = payload.len();
    let blocks = frame::blocks(tag, payload, dbs);
    let first = wire::be32(payload, 0);
    println!(rt; " payload={size} blocks={blocks} first={first:08x}")
}

fn show_fields(rt: HostRuntime, fields: Fields, payload: &[u8]) -> io::Result<()> {
    let header = fields.header;
    print!(rt; "accepted")?;
    show_ethernet(rt, header.ethernet)?;
    show_avtp(rt, header.avtp)?;
    show_stream(rt, header.stream)?;
    show_cip(rt, fields.cip)?;
    show_payload(rt, header.stream.tag, payload, fields.cip.dbs)
}

fn show(rt: HostRuntime, bytes: &[u8]) -> io::Result<()> {
    match frame::read(bytes) {
        Ok(fields) => show_fields(rt, fields, frame::payload(bytes)),
        Err(refusal) => println!(rt; "refused {}", u8::from(refusal)),
    }
}

// What is no digit counts as 0, capitals too.
fn digit(c: u8) -> u8
    ensures { result < 16 }
{
    match c {
        b'0'..=b'9' => c - b'0',
        b'a'..=b'f' => c - b'a' + 10,
        _ => 0,
    }
}

// The bytes that a line of hexadecimal digits spells, as many as there is room for; how many they are.
fn decode(line: &[u8], out: &mut [u8]) -> usize
    ensures { result ≤ length out.old }
{
    let (pairs, _) = line.as_chunks::<2>();
    let count = pairs.len().min(out.len());
    for (byte, [high, low]) in out.iter_mut().zip(pairs) {
        *byte = digit(*high) * 16 + digit(*low);
    }
    count
}

fn show_line(rt: HostRuntime, line: &[u8]) -> io::Result<()> {
    match line {
        [] => Ok(()),
        [b'#', ..] => {
            rt.write_all(line)?;
            rt.write_all(b"\n")
        }
        _ => {
            let mut bytes = [0u8; 2048];
            let n = decode(line, &mut bytes);
            show(rt, &bytes[..n])
        }
    }
}

fn main(rt: HostRuntime) -> io::Result<()> {
    let mut reader = Noting::new(rt.stdin());
    let mut text = [0u8; 65536];
    let read = input::first(&mut reader, &mut text, 65536);
    if read.source == Source::Failed {
        return Err(reader.why());
    }
    for line in text[..read.end].split(|byte| *byte == b'\n') {
        show_line(rt, line)?;
    }
    Ok(())
}
