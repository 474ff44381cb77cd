// A capture's records, one at a time: what stands at the front of the bytes that remain of it.
#![tactic(auto)]

ghost use Rattle.std.specs.Prelude.{◌≡◌, ◌≤◌, length};
ghost use Rattle.wire.specs.Parts.{StandsIn};
ghost use Rattle.capture.specs.Records.{held_of, front_of, entry_of, wrong_for, limit_of, frame_in};
ghost use Rattle.capture.specs.Numbers.{RecordNumbers};
ghost use Rattle.capture.specs.Sizes.{RecordSizes};
ghost use Rattle.capture.specs.Parts.{ReadInParts};
ghost use Rattle.capture.specs.Edges.{RecordEdges};
ghost use Rattle.capture.specs.InChunks.{WalkedInChunks};
ghost use Rattle.capture.specs.Private.{kind_number, Named, held_with};

use refusal::Refusal;

// What stands at the front of a capture.
#[derive(Clone, Copy)]
pub enum Entry {
    // Nothing is left.
    End,
    // 41: the capture ends inside this record.
    Cut,
    // The size is the place of the next record. One that is refused, with 42 to 44, is skipped whole.
    Whole {
        size: usize,
        content: Result<Content, Refusal>,
    },
}

#[derive(Clone, Copy)]
pub enum Content {
    // The frame's bytes are what `frame_in` gives of the record.
    Frame { arrival_time: u64 },
    Admit { id: u64, limit: u32 },
}

// What a record is for, by the number in it.
#[derive(Clone, Copy)]
enum Kind {
    Frame,
    Admit,
    // It removed a stream: "no longer obeyed" (request #109).
    Remove,
    AdmitWithin,
}

impl TryFrom<u16> for Kind {
    type Error = Refusal;

    ghost try_from_gives = { Named };

    fn try_from(number: u16) -> Result<Kind, Refusal> {
        match number {
            1 => Ok(Kind::Frame),
            2 => Ok(Kind::Admit),
            3 => Ok(Kind::Remove),
            5 => Ok(Kind::AdmitWithin),
            _ => Err(Refusal::RecordKind),
        }
    }
}

impl Kind {
    // Is this length, of what follows in the record, wrong for the kind?
    fn has_wrong_length(self, length: u16) -> bool
        ensures { result ≡ wrong_for (kind_number self) length }
    {
        match self {
            Kind::Frame => length < 10,
            Kind::Admit | Kind::Remove => length != 10,
            Kind::AdmitWithin => length != 14,
        }
    }
}

// The limit with which kind 2 admits a stream: the largest (request #107).
const LARGEST_LIMIT: u32 = 2_147_483_647;

// The limit in a record of kind 5: the four bytes behind the id, lowest first.
fn limit_in(bytes: &[u8]) -> u32
    ensures { result ≡ limit_of bytes.now }
{
    wire::le32(bytes, 12)
}

// What a whole record holds, by the length and the number of the kind that stand in it.
#[tactic(auto, unfolding(crate::specs::Records::wrong_length, crate::specs::Records::retired_kind, crate::specs::Records::unknown_kind, refusal::specs::Refusals::first_of))]
fn content_of(bytes: &[u8], length: u16, number: u16) -> Result<Content, Refusal>
    ensures { held_of result ≡ held_with length number bytes.now }
{
    if length < 2 {
        return Err(Refusal::RecordLength);
    }
    let kind = Kind::try_from(number)?;
    if kind.has_wrong_length(length) {
        return Err(Refusal::RecordLength);
    }
    match kind {
        Kind::Frame => Ok(Content::Frame {
            arrival_time: wire::le64(bytes, 4),
        }),
        Kind::Admit => Ok(Content::Admit {
            id: wire::be64(bytes, 4),
            limit: LARGEST_LIMIT,
        }),
        Kind::Remove => Err(Refusal::RecordRetired),
        Kind::AdmitWithin => Ok(Content::Admit {
            id: wire::be64(bytes, 4),
            limit: limit_in(bytes),
        }),
    }
}

#[tactic(auto, unfolding(crate::specs::Records::entry_of, crate::specs::Records::length_of, crate::specs::Records::kind_of, refusal::specs::Refusals::first_of))]
pub fn next_record(capture: &[u8]) -> Entry
    ensures { front_of result ≡ entry_of capture.now }
{
    if capture.is_empty() {
        return Entry::End;
    }
    // Of a single byte both numbers read as 0, and it is cut.
    let length = wire::le16(capture, 0);
    let kind = wire::le16(capture, 2);
    let size = 2 + usize::from(length);
    if capture.len() < size {
        return Entry::Cut;
    }
    let content = content_of(capture, length, kind);
    Entry::Whole { size, content }
}

// The frame in a record of kind 1, the part of it behind its arrival time; where there is none, no bytes of the record.
#[tactic(auto, unfolding(crate::specs::Records::frame_in))]
pub fn frame_in(record: &[u8]) -> &[u8]
    ensures result_value { result.now ≡ frame_in «record».now }
    ensures stands_in { StandsIn «record».entry.ref_ptr 12 result.ref_ptr (12 ≤ length «record».now) }
{
    let start = record.len().min(12);
    &record[start..]
}

// A loop over records ends, and stays within the capture.
#[tactic(auto, using(crate::proofs::Fronts::sized))]
fn record_sizes()
    ensures { RecordSizes }
{}

// A record that is whole in a part of a capture is read from the part as from the whole.
#[tactic(auto, using(crate::proofs::Parts::read_in_parts))]
fn read_in_parts()
    ensures { ReadInParts }
{}

// The rules at their edges.
fn record_edges()
    ensures { RecordEdges }
{}

// What stands at the front has the first number that applies to it.
#[tactic(auto, using(crate::proofs::Fronts::numbered))]
fn record_numbers()
    ensures { RecordNumbers }
{}

// Going through a capture in any chunks is going through it whole.
#[tactic(auto, using(crate::proofs::InChunks::in_chunks))]
fn walked_in_chunks()
    ensures { WalkedInChunks }
{}
