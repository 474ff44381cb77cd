// One line for a write: its name, the number answered, the sender afterwards, the header, and how the frame reads back.
ghost use Rattle.std.specs.Prelude.{◌≡◌, ◌≤◌, length};

use crate::agree;
use std::io;
use writer::Sender;
use writer::given::Given;

// What stands in the output at first.
const BLANK: u8 = 0xee;

pub(crate) fn blank() -> [u8; 1600]
    ensures { length result ≡ 1600 }
{
    [BLANK; 1600]
}

// Are the bytes of the output from place `from` on as they were?
pub(crate) fn untouched(out: &[u8], from: usize) -> bool {
    out.get(from..)
        .is_some_and(|behind| blank().starts_with(behind))
}

// Where the payload starts.
pub(crate) fn payload_start(tag: u8) -> usize
    ensures { result ≤ 50 }
{
    if tag == 1 { 50 } else { 42 }
}

pub(crate) fn verdict(same: bool) -> &'static str {
    if same { "same" } else { "DIFFERENT" }
}

// The bytes in front of the payload.
fn header(rt: HostRuntime, out: &[u8], start: usize) -> io::Result<()> {
    print!(rt; " header ")?;
    let header = &out[..start.min(out.len())];
    let (words, rest) = header.as_chunks::<8>();
    for word in words {
        print!(rt; "{:016x}", u64::from_be_bytes(*word))?;
    }
    for byte in rest {
        print!(rt; "{byte:02x}")?;
    }
    Ok(())
}

// A frame that was written, up to place `end`: its header, and whether its fields, its payload and what stands behind it are the same.
fn sent(
    rt: HostRuntime,
    sender: Sender,
    given: Given,
    payload: &[u8],
    out: &[u8],
    end: usize,
) -> io::Result<()> {
    header(rt, out, payload_start(given.stream.tag))?;
    let Some(written) = out.get(..end) else {
        return println!(rt; " SHORT");
    };
    let Ok(fields) = frame::read(written) else {
        return println!(rt; " REFUSED");
    };
    let fields_same = verdict(agree::fields(fields, sender, given, end));
    let payload_same = verdict(frame::payload(written) == payload);
    let behind_same = verdict(untouched(out, end));
    println!(rt; " fields {fields_same} payload {payload_same} behind {behind_same}")
}

// A payload of `n` bytes and an output of `room` bytes, both at most 1,600: writes and shows, and moves the sender on.
pub(crate) fn show(
    rt: HostRuntime,
    name: &str,
    sender: &mut Sender,
    given: Given,
    n: usize,
    room: usize,
) -> io::Result<()> {
    let before = *sender;
    let bytes = [0x5a; 1600];
    let payload = &bytes[..n.min(1600)];
    let mut output = blank();
    let out = &mut output[..room.min(1600)];
    let result = writer::write(sender, given, payload, out);
    let number = match result {
        Ok(()) => 0,
        Err(refusal) => u8::from(refusal),
    };
    let Sender { sequence, dbc } = *sender;
    print!(rt; "{name}: {number} next {sequence} {dbc}")?;
    if result.is_ok() {
        let end = payload_start(given.stream.tag) + payload.len();
        return sent(rt, before, given, payload, out, end);
    }
    let same = verdict(untouched(out, 0));
    println!(rt; " output {same}")
}
