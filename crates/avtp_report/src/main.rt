// The visit report of a capture: of the file that the argument names, or of standard input.
#![tactic(auto)]

mod help;

ghost use Rattle.std.specs.Prelude.{◌≡◌, ◌≤◌, length, take};
ghost use Rattle.avtp_report.specs.Reporting.{Reports};

use messages::noting::Noting;
use options::Request;
use program::{Program, Speaker, Visit};
use std::io;
use std::io::{Read, Stdout, Write};
use turns::Stage;

// A report in a buffer: where the capture stands, and the place after the text; 0 where not all could be read.
#[derive(Clone, Copy)]
struct Reported {
    stage: Stage,
    end: usize,
}

// The report of a capture of which so many bytes have been read. No line of a listing is written; the report's are those of the table that is
// left.
fn report_records<R: Read, W: Write>(
    rt: HostRuntime,
    reader: &mut R,
    writer: &mut W,
    input: &mut [u8],
    have: usize,
    out: &mut [u8],
) -> Reported
    ensures { Reports (take have input.old) out.old result out.new }
{
    let s = turns::list_records(rt, reader, writer, input, have, out, false);
    let stage = s.stage;
    if !turns::is_read(stage) {
        return Reported { stage, end: 0 };
    }
    let end = report_lines::put_table(out, &s.table);
    Reported { stage, end }
}

// The end of a run. After a failure there is no report.
fn finish<R>(
    rt: HostRuntime,
    voice: &mut Speaker,
    reader: &Noting<R>,
    writer: &Noting<Stdout>,
    name: &[u8],
    out: &[u8],
    reported: Reported,
) -> io::Result<()>
    requires { reported.end ≤ length out.now }
    ensures { voice.new.program ≡ voice.old.program }
{
    if reported.stage == Stage::AllRead {
        return voice.write(&mut rt.stdout(), &out[..reported.end]);
    }
    program::tell_end(
        voice,
        reader,
        writer,
        name,
        reported.stage,
        b"not read to its end",
    )
}

#[derive(Clone, Copy)]
struct Report;

impl Visit for Report {
    // A whole capture.
    fn visit<R: Read + Drop>(
        &self,
        rt: HostRuntime,
        voice: &mut Speaker,
        reader: R,
        name: &[u8],
    ) -> io::Result<()> {
        let mut reader = Noting::new(reader);
        let mut input = input::buffer();
        let Some(have) = program::first(voice, &mut reader, &mut input, name) else {
            return Ok(());
        };
        formats::hint_by(voice, name, formats::recognise(&input[..have]));
        let mut writer = Noting::new(rt.stdout());
        let mut out = [0u8; 65536];
        let reported = report_records(rt, &mut reader, &mut writer, &mut input, have, &mut out);
        finish(rt, voice, &reader, &writer, name, &out, reported)
    }
}

impl Program for Report {
    // More than one name is an error, since no line could part two reports. The one is the first word or, where that is `--`, the second.
    fn visit_named(&self, rt: HostRuntime, voice: &mut Speaker, request: Request, names: usize) {
        if names > 1 {
            voice.say(b"too many names", b"a report is of one capture");
            return;
        }
        let place = if request.first.is_some_and(|(at, _)| at == 1) {
            2
        } else {
            1
        };
        let _ = program::argument(self, rt, voice, place);
    }
}

fn main(rt: HostRuntime) {
    program::start(&Report, rt, help::texts());
}
