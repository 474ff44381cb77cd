// Lists captures: the files that the arguments name, one after the other, or standard input.
#![tactic(auto)]

mod help;

ghost use Rattle.std.specs.Prelude.{◌≡◌, ◌≤◌, ltb};
ghost use Rattle.lines.specs.Lines.{start_line, ending};
ghost use Rattle.lines.specs.Placing.{line_at};

use messages::noting::Noting;
use options::Request;
use program::{Program, Speaker, Visit};
use std::io;
use std::io::{Error, ErrorKind, IsTerminal, Read, Stdout};
use turns::{Stage, State};

// Text that was put into a buffer goes out, up to a place. Where it had no room, which no buffer of this size gives, nothing is said.
fn write_lines(
    rt: HostRuntime,
    voice: &mut Speaker,
    out: &[u8],
    end: Option<usize>,
) -> io::Result<()>
    ensures { voice.new.program ≡ voice.old.program }
{
    match end {
        Some(end) if end <= out.len() => voice.write(&mut rt.stdout(), &out[..end]),
        _ => Err(Error::from(ErrorKind::WriteZero)),
    }
}

fn write_start(rt: HostRuntime, voice: &mut Speaker, out: &mut [u8]) -> io::Result<()>
    ensures line { out.new ≡ (line_at out.old 0 start_line).buffer }
    ensures program { voice.new.program ≡ voice.old.program }
{
    let end = lines::put_start(out, 0);
    write_lines(rt, voice, out, end)
}

// The bytes that are left at the end, if any, are a record that the capture ends in.
fn write_ending(
    rt: HostRuntime,
    voice: &mut Speaker,
    out: &mut [u8],
    records: u64,
    left: usize,
) -> io::Result<()>
    ensures line { out.new ≡ (line_at out.old 0 (ending (ltb 0 left) records)).buffer }
    ensures program { voice.new.program ≡ voice.old.program }
{
    let end = lines::put_ending(out, 0, left, records);
    write_lines(rt, voice, out, end)
}

// The end of a listing. After a failure there is no last line.
fn finish<R>(
    rt: HostRuntime,
    voice: &mut Speaker,
    reader: &Noting<R>,
    writer: &Noting<Stdout>,
    name: &[u8],
    out: &mut [u8],
    s: &State,
) -> io::Result<()>
    requires { s.now.from ≤ s.now.have }
    ensures { voice.new.program ≡ voice.old.program }
{
    if s.stage == Stage::AllRead {
        return write_ending(rt, voice, out, s.records, s.have - s.from);
    }
    program::tell_end(
        voice,
        reader,
        writer,
        name,
        s.stage,
        b"not listed to its end",
    )
}

#[derive(Clone, Copy)]
struct List {
    // Is a terminal told the name of each capture?
    say_name: bool,
}

impl Visit for List {
    // A whole capture, from its first line to its last. What cannot be read at all has no first line.
    fn visit<R: Read + Drop>(
        &self,
        rt: HostRuntime,
        voice: &mut Speaker,
        reader: R,
        name: &[u8],
    ) -> io::Result<()> {
        let mut reader = Noting::new(reader);
        let mut input = input::buffer();
        let Some(have) = program::first(voice, &mut reader, &mut input, name) else {
            return Ok(());
        };
        if self.say_name {
            voice.say(name, b"listing");
        }
        formats::hint_by(voice, name, formats::recognise(&input[..have]));
        let mut out = [0u8; 65536];
        write_start(rt, voice, &mut out)?;
        let mut writer = Noting::new(rt.stdout());
        let s = turns::list_records(
            rt,
            &mut reader,
            &mut writer,
            &mut input,
            have,
            &mut out,
            true,
        );
        finish(rt, voice, &reader, &writer, name, &mut out, &s)
    }
}

impl Program for List {
    // The captures that are named, by every argument but `--`. Where there are several, a terminal is told the name of each.
    fn visit_named(&self, rt: HostRuntime, voice: &mut Speaker, request: Request, names: usize) {
        let list = List {
            say_name: names > 1 && rt.stderr().is_terminal(),
        };
        for i in 1..request.count {
            let skipped = request.first.is_some_and(|(at, _)| at == i);
            if !skipped && program::argument(&list, rt, voice, i).is_err() {
                return;
            }
        }
    }
}

fn main(rt: HostRuntime) {
    program::start(&List { say_name: false }, rt, help::texts());
}
