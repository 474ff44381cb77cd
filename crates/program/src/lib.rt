// What the programs over captures have in common: the words that they are started with, how a capture is opened, and how its end is told.
#![tactic(auto)]

ghost use Rattle.std.specs.Prelude.{◌≡◌, ◌≤◌, true, false, length, IfSome, IsOk, IsErr};
ghost use Rattle.options.specs.Options.{Requested};
ghost use Rattle.turns.specs.Turns.{is_unwritten};

use input::{Source, opening};
use messages::Voice;
use messages::noting::Noting;
use options::{Request, Word};
use std::io;
use std::io::{IsTerminal, Read, Stderr, Stdout, Write};
use turns::Stage;

// What a program says of itself.
#[derive(Clone, Copy)]
pub struct Texts {
    pub name: &'static [u8],
    pub version: &'static [u8],
    pub usage: &'static [u8],
    pub help: &'static [u8],
}

// A program's messages go to standard error.
pub type Speaker = Voice<'static, Stderr, 65536>;

// What a program does with a capture.
pub trait Visit {
    // Goes through it. An error is that of standard output: no other capture is begun.
    fn visit<R: Read + Drop>(
        &self,
        rt: HostRuntime,
        voice: &mut Speaker,
        reader: R,
        name: &[u8],
    ) -> io::Result<()>
        ensures { voice.new.program ≡ voice.old.program };
}

// What a program does with the names of captures.
pub trait Program {
    // There are so many.
    fn visit_named(&self, rt: HostRuntime, voice: &mut Speaker, request: Request, names: usize)
        ensures { voice.new.program ≡ voice.old.program };
}

fn standard_input<V: Visit>(visitor: &V, rt: HostRuntime, voice: &mut Speaker) -> io::Result<()>
    ensures { voice.new.program ≡ voice.old.program }
{
    visitor.visit(rt, voice, rt.stdin(), b"standard input")
}

// Goes through the capture that the argument at a place names. One that cannot be opened stops nothing. What a visit keeps on the stack is
// large, and a run that reads standard input alone does without that of this call.
#[inline(never)]
pub fn argument<V: Visit>(
    visitor: &V,
    rt: HostRuntime,
    voice: &mut Speaker,
    i: usize,
) -> io::Result<()>
    ensures { voice.new.program ≡ voice.old.program }
{
    let mut room = [0u8; 4096];
    let n = options::argument(&rt, i, &mut room);
    let name = &room[..n];
    if options::is_dash(name) {
        return standard_input(visitor, rt, voice);
    }
    match opening::open(&rt, name) {
        Ok(file) => visitor.visit(rt, voice, file, name),
        Err(why) => {
            voice.fail(name, why);
            Ok(())
        }
    }
}

// No capture is named: standard input, unless that waits for keys.
fn unnamed<V: Visit>(visitor: &V, rt: HostRuntime, voice: &mut Speaker, usage: &[u8]) {
    let _ = if rt.stdin().is_terminal() {
        rt.stderr().write_all(usage)
    } else {
        standard_input(visitor, rt, voice)
    };
}

// The voice has a room of its own, which only a run over captures needs. None of these three is inlined: a room of one then stands on no stack of
// another.
#[inline(never)]
fn run<P: Visit + Program>(program: &P, rt: HostRuntime, texts: Texts, request: Request) {
    let mut voice = Voice::new(rt.stderr(), texts.name);
    match request.name_count() {
        0 => unnamed(program, rt, &mut voice, texts.usage),
        names => program.visit_named(rt, &mut voice, request, names),
    }
}

#[inline(never)]
fn show(rt: HostRuntime, texts: Texts, text: &[u8]) {
    let _ = messages::write(&mut rt.stdout(), &mut rt.stderr(), texts.name, text);
}

#[inline(never)]
fn refuse(rt: HostRuntime, texts: Texts, at: usize) {
    let mut room = [0u8; 65536];
    options::refuse(&rt, &mut rt.stderr(), &mut room, texts.name, at);
}

// Does what the arguments ask for, and answers what that is.
pub fn start<P: Visit + Program>(program: &P, rt: HostRuntime, texts: Texts) -> Request
    ensures { Requested result }
{
    let request = options::read_request(&rt);
    match request.first {
        Some((_, Word::Help)) => show(rt, texts, texts.help),
        Some((_, Word::Version)) => show(rt, texts, texts.version),
        Some((at, Word::Unknown)) => refuse(rt, texts, at),
        Some((_, Word::Rest)) | None => run(program, rt, texts, request),
    }
    request
}

// Reads the first bytes of a capture, by which it can be told what it looks like. None where it cannot be read at all, which is told.
pub fn first<R: Read>(
    voice: &mut Speaker,
    reader: &mut Noting<R>,
    input: &mut [u8],
    name: &[u8],
) -> Option<usize>
    ensures have { IfSome result (λ have. have ≤ length input.new) }
    ensures program { voice.new.program ≡ voice.old.program }
{
    let first = input::first(reader, input, 4);
    if first.source == Source::Failed && first.end == 0 {
        voice.fail(name, reader.why());
        return None;
    }
    Some(first.end)
}

// Tells why a capture was not gone through to its end. An error is that of standard output.
pub fn tell_end<R>(
    voice: &mut Speaker,
    reader: &Noting<R>,
    writer: &Noting<Stdout>,
    name: &[u8],
    stage: Stage,
    unfinished: &[u8],
) -> io::Result<()>
    ensures goes_on { is_unwritten stage ≡ false → IsOk result }
    ensures stops { is_unwritten stage ≡ true → IsErr result }
    ensures program { voice.new.program ≡ voice.old.program }
{
    match stage {
        Stage::AllRead => Ok(()),
        Stage::Going => {
            voice.say(name, unfinished);
            Ok(())
        }
        Stage::CannotRead => {
            voice.fail(name, reader.why());
            Ok(())
        }
        Stage::CannotWrite => {
            let why = writer.why();
            voice.fail_output(why);
            Err(why)
        }
    }
}
