// Ethernet frames with an AVTPDU of IEEE 1722-2011 and, with tag 1, a CIP header of IEC 61883: any bytes in, document 01's fields and
// payload or its first fitting number out.
#![tactic(auto)]

mod bytes;
pub mod checks;
pub mod layout;

ghost use Rattle.std.specs.Prelude.{◌≡◌, replicate};
ghost use Rattle.wire.specs.Parts.{StandsIn};
ghost use Rattle.frame.specs.Reading.{no_fields, reading, read_answer, data_of, DataThere, DataIsPayload, payload_of, blocks_with};
ghost use Rattle.frame.specs.Layout.{has_cip, payload_start, cip_of, no_cip, fields_of, cip_in};
ghost use Rattle.frame.specs.Checks.{refusal};
ghost use Rattle.frame.specs.Ignored.{IgnoredBits};

use bytes::Bytes;
use layout::{Cip, Fields};
use refusal::Refusal;

pub fn read(frame: &[u8]) -> Result<Fields, Refusal>
    ensures { read_answer result ≡ reading frame.now }
{
    let bytes = Bytes::of(frame)?;
    let header = bytes.header();
    checks::check_header(frame.len(), header)?;
    // Of a frame without a CIP header no more is asked.
    if header.stream.tag != 1 {
        return Ok(Fields {
            header,
            cip: Cip::default(),
        });
    }
    if header.stream.data_length < 8 {
        return Err(Refusal::NoCipHeader);
    }
    let cip = bytes.cip();
    checks::check_blocks(header.stream, cip)?;
    Ok(Fields { header, cip })
}

// The part of a frame that a tag and a stream_data_length leave to the payload; empty where the frame has no such part. For a caller that
// has read the frame already.
pub fn data(frame: &[u8], tag: u8, data_length: u16) -> &[u8]
    ensures result_value { result.now ≡ data_of frame.now tag data_length }
    ensures stands_in { StandsIn frame.entry.ref_ptr (payload_start (has_cip tag)) result.ref_ptr (DataThere frame.now tag data_length) }
{
    let end = 42 + data_length as usize;
    if frame.len() < end {
        return &frame[..0];
    }
    if tag != 1 {
        return &frame[42..end];
    }
    if data_length < 8 {
        return &frame[..0];
    }
    &frame[50..end]
}

// The part of the frame that is its payload; empty where the frame is refused.
pub fn payload(frame: &[u8]) -> &[u8]
    ensures result_value { result.now ≡ payload_of frame.now }
    ensures stands_in { StandsIn frame.entry.ref_ptr (payload_start (cip_in (fields_of frame.now))) result.ref_ptr (refusal frame.now ≡ 0) }
{
    let Ok(fields) = read(frame) else {
        return &frame[..0];
    };
    let stream = fields.header.stream;
    data(frame, stream.tag, stream.data_length)
}

// How many whole blocks a frame with this tag, payload and DBS has: none where there is no CIP header.
pub fn blocks(tag: u8, payload: &[u8], dbs: u8) -> usize
    ensures { result ≡ blocks_with tag payload.now dbs }
{
    if tag != 1 {
        return 0;
    }
    payload.len() / checks::block_bytes(dbs)
}

// For an accepted frame `data` and `payload` give the same.
fn data_is_payload()
    ensures { DataIsPayload }
{}

// The fields of a refused answer, zero or no, are those of fifty zero bytes; so are those of a CIP header that is not there.
fn refused_fields()
    ensures no_fields_value { no_fields ≡ fields_of (replicate 50 0) }
    ensures no_cip_value { no_cip ≡ cip_of (replicate 50 0) }
{}

// What a reader ignores changes no answer.
fn ignored_bits()
    ensures { IgnoredBits }
{}
