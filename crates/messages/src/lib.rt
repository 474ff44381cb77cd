// What a program says on standard error, and what it writes to standard output.
#![tactic(auto)]

pub mod noting;
mod reason;

ghost use Rattle.std.specs.Prelude.{◌≡◌, [], IsOk, OnOk, replicate};
ghost use Rattle.std.specs.Io.KnownBytes.{Appends};
ghost use Rattle.text.specs.Text.{ascii};
ghost use Rattle.text.specs.InTurn.{PutInTurn};
ghost use Rattle.messages.specs.Messages.{plain, shown_byte, shown, NamesArePrintable, about, message};

use std::io;
use std::io::{Error, ErrorKind, Write};

// Does a terminal show this byte as a character, and nothing else?
fn is_plain(b: u8) -> bool
    ensures { result ≡ plain b }
{
    matches!(b, b' '..=b'~') && b != b'\\'
}

fn put_byte(out: &mut [u8], at: usize, b: u8) -> usize
    ensures { PutInTurn out.old at (shown_byte b) out.new result }
{
    if is_plain(b) {
        return text::put(out, at, &[b]);
    }
    text::put(
        out,
        at,
        &[b'\\', b'0' + b / 64, b'0' + b / 8 % 8, b'0' + b % 8],
    )
}

// A name as a message shows it.
fn put_shown(out: &mut [u8], at: usize, name: &[u8]) -> usize
    ensures { PutInTurn out.old at (shown name.now) out.new result }
{
    let mut end = at;
    for b in name {
        end = put_byte(out, end, *b);
    }
    end
}

// Whatever a name holds, nothing of it but printable characters reaches a terminal.
fn names_are_printable()
    ensures { NamesArePrintable }
{}

// What a message about a file starts with: the program's name and the file's.
fn put_about(out: &mut [u8], at: usize, program: &[u8], name: &[u8]) -> usize
    ensures { PutInTurn out.old at (about program.now name.now) out.new result }
{
    let end = text::put(out, at, program);
    let end = text::put(out, end, b": ");
    put_shown(out, end, name)
}

// A message about a file.
fn put_message(out: &mut [u8], at: usize, program: &[u8], name: &[u8], text: &[u8]) -> usize
    ensures { PutInTurn out.old at (message program.now name.now text.now) out.new result }
{
    let end = put_about(out, at, program, name);
    let end = text::put(out, end, b": ");
    let end = text::put(out, end, text);
    text::put(out, end, b"\n")
}

// Says something about a file. The message stands in the room that the caller lends, and goes from there to standard error, which is handed
// in. Answers the place after it; one that has no room is not said.
pub fn say<E: Write>(
    errors: &mut E,
    room: &mut [u8],
    program: &[u8],
    name: &[u8],
    text: &[u8],
) -> usize
    ensures { PutInTurn room.old 0 (message program.now name.now text.now) room.new result }
{
    let end = put_message(room, 0, program, name, text);
    if end <= room.len() {
        let _ = errors.write_all(&room[0..end]);
    }
    end
}

// Says why a call on a file failed: what stands in the room, and the system's reason behind it.
pub fn fail<E: Write>(
    errors: &mut E,
    room: &mut [u8],
    program: &[u8],
    name: &[u8],
    why: Error,
) -> usize
    ensures { PutInTurn room.old 0 (about program.now name.now) room.new result }
{
    let end = put_about(room, 0, program, name);
    if end <= room.len() {
        let _ = reason::write(errors, &room[0..end], why);
    }
    end
}

// Says why standard output could not be written, as `fail` does. Nothing is said where the reader of a pipe has left: it wants no more.
pub fn fail_output<E: Write>(errors: &mut E, room: &mut [u8], program: &[u8], why: Error) -> usize
    ensures { PutInTurn room.old 0 (about program.now (ascii "standard output")) room.new result }
{
    if why.kind() == ErrorKind::BrokenPipe {
        return put_about(room, 0, program, b"standard output");
    }
    fail(errors, room, program, b"standard output", why)
}

// Writes all of a text to standard output. Where it cannot, `fail_output` says why, and the reason is answered.
pub fn write<O: Write, E: Write>(
    output: &mut O,
    errors: &mut E,
    program: &[u8],
    text: &[u8],
) -> io::Result<()>
    ensures empty { text.now ≡ [] → IsOk result }
    ensures written { OnOk result (Appends (O.contents output.old) (O.contents output.new) text.now) }
{
    if text.is_empty() {
        return Ok(());
    }
    let written = output.write_all(text);
    if let Err(why) = written {
        let mut room = [0u8; 65536];
        fail_output(errors, &mut room, program, why);
    }
    written
}

// A program as it says something on standard error, or whatever stands for that: by its name, and by way of a room of its own, in which each
// message stands before it goes out.
#[derive(Drop)]
pub struct Voice<'a, E, const N: usize> {
    errors: E,
    program: &'a [u8],
    room: [u8; N],
}

impl<'a, E: Write, const N: usize> Voice<'a, E, N> {
    pub fn new(errors: E, program: &'a [u8]) -> Self
        ensures { result ≡ record { errors = errors; program = program.entry; room = replicate N 0 } }
    {
        Voice {
            errors,
            program,
            room: [0u8; N],
        }
    }

    // As `say` does.
    pub fn say(&mut self, name: &[u8], text: &[u8]) -> usize
        ensures said { PutInTurn self.old.room 0 (message self.old.program.now name.now text.now) self.new.room result }
        ensures program { self.new.program ≡ self.old.program }
    {
        say(&mut self.errors, &mut self.room, self.program, name, text)
    }

    // As `fail` does.
    pub fn fail(&mut self, name: &[u8], why: Error) -> usize
        ensures said { PutInTurn self.old.room 0 (about self.old.program.now name.now) self.new.room result }
        ensures program { self.new.program ≡ self.old.program }
    {
        fail(&mut self.errors, &mut self.room, self.program, name, why)
    }

    // As `fail_output` does.
    pub fn fail_output(&mut self, why: Error) -> usize
        ensures said { PutInTurn self.old.room 0 (about self.old.program.now (ascii "standard output")) self.new.room result }
        ensures program { self.new.program ≡ self.old.program }
    {
        fail_output(&mut self.errors, &mut self.room, self.program, why)
    }

    // As `write` does.
    pub fn write<O: Write>(&mut self, output: &mut O, text: &[u8]) -> io::Result<()>
        ensures empty { text.now ≡ [] → IsOk result }
        ensures written { OnOk result (Appends (O.contents output.old) (O.contents output.new) text.now) }
        ensures program { self.new.program ≡ self.old.program }
    {
        write(output, &mut self.errors, self.program, text)
    }
}
