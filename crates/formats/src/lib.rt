// Files that are no captures, by how they start.
#![tactic(auto)]

ghost use Rattle.std.specs.Prelude.{◌≡◌};
ghost use Rattle.text.specs.InTurn.{PutInTurn};
ghost use Rattle.formats.specs.Formats.{start_of, said_of, hint_of};

use messages::Voice;
use std::io::Write;

#[derive(Clone, Copy, PartialEq, Eq)]
pub enum Format {
    Pcap,
    Pcapng,
    Gzip,
}

// What a file with these first bytes looks like, if it looks like anything.
#[tactic(auto, unfolding(crate::specs::Formats::start_of, words::specs::Words::starts_with))]
pub fn recognise(bytes: &[u8]) -> Option<Format>
    ensures { result ≡ start_of bytes.now }
{
    match bytes {
        [0x0A, 0x0D, 0x0D, 0x0A, ..] => Some(Format::Pcapng),
        [0x1F, 0x8B, 0x08, ..] => Some(Format::Gzip),
        // times in microseconds or in nanoseconds, of either byte order
        [0xA1, 0xB2, 0xC3, 0xD4, ..]
        | [0xD4, 0xC3, 0xB2, 0xA1, ..]
        | [0xA1, 0xB2, 0x3C, 0x4D, ..]
        | [0x4D, 0x3C, 0xB2, 0xA1, ..] => Some(Format::Pcap),
        _ => None,
    }
}

// What is said of a file of a format.
pub fn said(format: Format) -> &'static [u8]
    ensures { result.now ≡ said_of format }
{
    match format {
        Format::Pcap => b"starts like a pcap file; a capture has a format of its own (see --help)",
        Format::Pcapng =>
            b"starts like a pcapng file; a capture has a format of its own (see --help)",
        Format::Gzip => b"starts like a gzip file; unpack it first",
    }
}

// Says so where a file that is read as a capture looks like something else, as `messages::say` does.
pub fn hint<E: Write>(
    errors: &mut E,
    room: &mut [u8],
    program: &[u8],
    name: &[u8],
    format: Option<Format>,
) -> usize
    ensures { PutInTurn room.old 0 (hint_of program.now name.now format) room.new result }
{
    match format {
        Some(format) => messages::say(errors, room, program, name, said(format)),
        None => 0,
    }
}

// The same by a voice, as `Voice::say` does.
#[tactic(auto, using(text::proofs::Puts::none_put))]
pub fn hint_by<E: Write, const N: usize>(
    voice: &mut Voice<'_, E, N>,
    name: &[u8],
    format: Option<Format>,
) -> usize
    ensures said { PutInTurn voice.old.room 0 (hint_of voice.old.program.now name.now format) voice.new.room result }
    ensures program { voice.new.program ≡ voice.old.program }
{
    let Some(format) = format else {
        return 0;
    };
    voice.say(name, said(format))
}
