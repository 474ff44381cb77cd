// Stream records in a table that the caller lends, and one record lent alone: admission, removal and receiving. Every call finds bad
// input itself, and what it refuses changes no record.
#![tactic(auto)]

ghost use Rattle.std.specs.Prelude.{◌≡◌, [], ◌∷◌, ltb, length, position, replicate};
ghost use Rattle.refusal.specs.Refusals.{verdict_number, ◌answers◌, first_of};
ghost use Rattle.frame.specs.Reading.{read_answer};
ghost use Rattle.presentation.specs.Presentation.{largest_limit};
ghost use Rattle.stream.specs.Records.{unused};
ghost use Rattle.table.specs.Table.{holds, is_unused, admit, remove, ChangedBy, Receives, ReceivesAlone};
ghost use Rattle.table.specs.Private.{reading_for, served, judged};

use frame::layout::Fields;
use refusal::Refusal;
use stream::{Judged, Record, Stepped};

// The record is in use and holds the id. Most records hold another, so that is asked first.
fn holds(r: &Record, id: u64) -> bool
    ensures { result ≡ holds id r.now }
{
    r.id == id && r.in_use
}

// The lowest place of a record that holds the id.
fn place_of(table: &[Record], id: u64) -> Option<usize>
    ensures { result ≡ position (holds id) table.now }
{
    table.iter().position(|r| holds(r, id))
}

// The lowest place of an unused record.
fn free_place(table: &[Record]) -> Option<usize>
    ensures { result ≡ position is_unused table.now }
{
    table.iter().position(|r| !r.in_use)
}

// A table has at most 64 records.
#[tactic(auto, unfolding(refusal::specs::Refusals::first_of))]
fn check_length(n: usize) -> Result<(), Refusal>
    ensures { verdict_number result ≡ first_of (ltb 64 n answers 20 ∷ []) }
{
    if n > 64 {
        return Err(Refusal::TableTooLong);
    }
    Ok(())
}

#[tactic(auto, unfolding(refusal::specs::Refusals::first_of))]
fn check_limit(limit: u32) -> Result<(), Refusal>
    ensures { verdict_number result ≡ first_of (ltb largest_limit limit answers 24 ∷ []) }
{
    if limit > presentation::LARGEST_LIMIT {
        return Err(Refusal::LimitTooLarge);
    }
    Ok(())
}

// A frame for a table of n records: 20 before all else, then what the reader says.
fn read_for(n: usize, frame: &[u8]) -> Result<Fields, Refusal>
    ensures { read_answer result ≡ reading_for n frame.now }
{
    check_length(n)?;
    frame::read(frame)
}

// An accepted frame that has been read, for the record of its stream.
#[tactic(auto, unfolding(crate::specs::Private::served))]
fn serve(r: &mut Record, fields: Fields, frame: &[u8], arrival_time: u64) -> Judged
    ensures answer { result ≡ judged fields (served r.old fields frame.now arrival_time) }
    ensures after { r.new ≡ (served r.old fields frame.now arrival_time).after }
{
    let header = fields.header.stream;
    let payload = frame::data(frame, header.tag, header.data_length);
    let (flags, timing) = r.step(fields, payload, arrival_time);
    Judged {
        fields,
        flags,
        timing,
    }
}

// The same for a record by value.
#[tactic(auto, unfolding(crate::specs::Private::served))]
fn serve_alone(last: Record, fields: Fields, frame: &[u8], arrival_time: u64) -> Stepped
    ensures { result ≡ served last fields frame.now arrival_time }
{
    let header = fields.header.stream;
    let payload = frame::data(frame, header.tag, header.data_length);
    stream::step(last, fields, payload, arrival_time)
}

// A frame for a record that is lent alone, as a table of one: thin over the step by value, and what that gives is stored.
pub fn receive_record(lent: &mut Record, frame: &[u8], arrival_time: u64) -> Result<Judged, Refusal>
    ensures { ReceivesAlone lent.old frame.now arrival_time result lent.new }
{
    let fields = read_for(1, frame)?;
    if !holds(lent, fields.header.stream.id) {
        return Err(Refusal::NotAdmitted);
    }
    let stepped = serve_alone(*lent, fields, frame, arrival_time);
    *lent = stepped.after;
    Ok(Judged {
        fields,
        flags: stepped.flags,
        timing: stepped.timing,
    })
}

// A frame for a table: one search, and the one record of its stream is read and stored.
pub fn receive(table: &mut [Record], frame: &[u8], arrival_time: u64) -> Result<Judged, Refusal>
    ensures { Receives table.old frame.now arrival_time result table.new }
{
    let fields = read_for(table.len(), frame)?;
    let i = place_of(table, fields.header.stream.id).ok_or(Refusal::NotAdmitted)?;
    Ok(serve(&mut table[i], fields, frame, arrival_time))
}

// The stream is admitted at the lowest unused place, with this limit and with nothing seen.
pub fn admit(table: &mut [Record], id: u64, limit: u32) -> Result<(), Refusal>
    ensures { ChangedBy (admit limit) table.old id result table.new }
{
    check_length(table.len())?;
    if place_of(table, id).is_some() {
        return Err(Refusal::AlreadyAdmitted);
    }
    check_limit(limit)?;
    let i = free_place(table).ok_or(Refusal::TableFull)?;
    table[i] = stream::admitted_within(id, limit);
    Ok(())
}

// The stream's record is unused again, with every field zero.
pub fn remove(table: &mut [Record], id: u64) -> Result<(), Refusal>
    ensures { ChangedBy remove table.old id result table.new }
{
    check_length(table.len())?;
    let i = place_of(table, id).ok_or(Refusal::NothingToRemove)?;
    table[i] = stream::unused();
    Ok(())
}

// A table with every record unused.
pub fn unused_table() -> [Record; 64]
    ensures { result ≡ replicate 64 unused }
{
    [stream::unused(); 64]
}
