// A frame that no check refuses, and its bytes, where document 01's layout has them.
ghost use Rattle.std.specs.Prelude.{◌≡◌, ◌+◌, ◌≤◌, true, length};
ghost use Rattle.std.proofs.lemmas.List.Edits.{sets};
ghost use Rattle.writer.specs.Frames.{data_length};
ghost use Rattle.writer.specs.Writing.{fields_fit};

use crate::given::Given;
use crate::{Sender, checks, rows};
use refusal::Refusal;

// What is given of a frame, with its payload, where no check of a write refuses it: each value is within its field's bits, and the frame
// is no longer than Ethernet allows.
#[derive(Clone, Copy)]
pub(crate) struct Checked<'a> {
    given: Given,
    payload: &'a [u8],
    ghost fits: { fields_fit given ≡ true },
    ghost short: { data_length given.stream.tag (length payload.now) ≤ 1476 },
}

// Writes these bytes from place `at` on.
fn put(out: &mut [u8], at: usize, bytes: &[u8])
    requires { at + length bytes.now ≤ length out.old }
    ensures { out.new ≡ sets out.old at bytes.now }
{
    out[at..at + bytes.len()].copy_from_slice(bytes);
}

impl<'a> Checked<'a> {
    ghost use Rattle.std.specs.Prelude.{◌++◌, IfOk, drop};
    ghost use Rattle.refusal.specs.Refusals.{verdict_number};
    ghost use Rattle.writer.specs.Frames.{ethernet_bytes, avtp_bytes, stream_bytes, source_bytes, format_bytes, frame_length, frame_bytes};
    ghost use Rattle.writer.specs.Writing.{write_refusal, advanced};

    // With `room` bytes for the frame; or why a write refuses it.
    pub(crate) fn of(given: Given, payload: &'a [u8], room: usize) -> Result<Checked<'a>, Refusal>
        ensures number { verdict_number result ≡ write_refusal given (length payload.now) room }
        ensures same { IfOk result (λ checked. (checked.given ≡ given) × (checked.payload.now ≡ payload.now)) }
    {
        checks::check(given, payload.len(), room)?;
        Ok(Checked { given, payload })
    }

    // The sender after this frame.
    pub(crate) fn next(self, sender: Sender) -> Sender
        ensures { result ≡ advanced sender self.entry.given self.entry.payload.now }
    {
        let blocks = frame::blocks(self.given.stream.tag, self.payload, self.given.cip.dbs);
        Sender {
            sequence: sender.sequence.wrapping_add(1),
            dbc: sender.dbc.wrapping_add((blocks % 256) as u8),
        }
    }

    fn ethernet(self) -> [u8; 18]
        ensures { result ≡ ethernet_bytes self.entry.given.ethernet }
    {
        let ethernet = self.given.ethernet;
        let mut bytes = [0; 18];
        put(&mut bytes, 0, &ethernet.destination.to_be_bytes()[2..]);
        put(&mut bytes, 6, &ethernet.source.to_be_bytes()[2..]);
        put(&mut bytes, 12, &0x8100u16.to_be_bytes());
        put(&mut bytes, 14, &rows::vlan(ethernet).to_be_bytes());
        put(&mut bytes, 16, &0x22f0u16.to_be_bytes());
        bytes
    }

    fn avtp(self, sequence: u8) -> [u8; 4]
        ensures { result ≡ avtp_bytes sequence self.entry.given.avtp }
    {
        let avtp = self.given.avtp;
        // cd 0 and subtype 0
        [0, rows::valid(avtp), sequence, rows::uncertain(avtp)]
    }

    fn stream(self) -> [u8; 20]
        ensures { result ≡ stream_bytes self.entry.given.stream (data_length self.entry.given.stream.tag (length self.entry.payload.now)) }
    {
        let stream = self.given.stream;
        // stream_data_length counts a CIP header too
        let data_length = (self.payload.len() + checks::cip_length(stream.tag)) as u16;
        let mut bytes = [0; 20];
        put(&mut bytes, 0, &stream.id.to_be_bytes());
        put(&mut bytes, 8, &stream.timestamp.to_be_bytes());
        put(&mut bytes, 12, &stream.gateway_info.to_be_bytes());
        put(&mut bytes, 16, &data_length.to_be_bytes());
        put(&mut bytes, 18, &rows::packet(stream).to_be_bytes());
        bytes
    }

    // The first quadlet of the CIP header.
    fn source(self, dbc: u8) -> [u8; 4]
        ensures { result ≡ source_bytes self.entry.given.cip dbc }
    {
        let cip = self.given.cip;
        [rows::source(cip), cip.dbs, rows::fraction(cip), dbc]
    }

    // The second.
    fn format(self) -> [u8; 4]
        ensures { result ≡ format_bytes self.entry.given.cip }
    {
        let cip = self.given.cip;
        let [high, low] = cip.low_half.to_be_bytes();
        [rows::fmt(cip), cip.fdf, high, low]
    }

    // Writes the frame at the front of `out`, and nothing behind it.
    pub(crate) fn write(self, sender: Sender, out: &mut [u8])
        requires { frame_length self.given.stream.tag (length self.payload.now) ≤ length out.old }
        ensures { out.new ≡ frame_bytes sender self.entry.given self.entry.payload.now ++ drop (frame_length self.entry.given.stream.tag (length self.entry.payload.now)) out.old }
    {
        put(out, 0, &self.ethernet());
        put(out, 18, &self.avtp(sender.sequence));
        put(out, 22, &self.stream());
        if self.given.stream.tag != 1 {
            put(out, 42, self.payload);
            return;
        }
        put(out, 42, &self.source(sender.dbc));
        put(out, 46, &self.format());
        put(out, 50, self.payload);
    }
}
