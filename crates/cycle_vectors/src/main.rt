// Answers questions about cycle time, by every call of `cycle`. A question is 64 bytes of standard input, and has a line of standard
// output; its numbers are little-endian.
//
//   byte 0   asks for                                  from
//   1        the cycle time of a nanosecond            the nanosecond at byte 2
//   2        the nanosecond and SYT of a cycle time    seconds, cycle and offset at bytes 2, 10 and 18
//   3        the judgement of a frame by its SYT       the arrival time at byte 2, the frame's length, up to 54, in byte 1, and the
//                                                      frame from byte 10 on
//
// Whatever else comes is answered `no question`. `stdin` and `stdout` beside `src/` hold the edges; the long comparison asks in the same
// way.
#![tactic(auto)]

ghost use Rattle.std.specs.Prelude.{◌<◌, ◌∷◌};
ghost use Rattle.text.specs.Putting.{Put};
ghost use Rattle.cycle.specs.Kinds.{cycle_kind_name};

use cycle::judgement::{CycleKind, CycleTiming};
use cycle::{CycleTime, Nanoseconds};
use input::Source;
use messages::noting::Noting;
use refusal::Refusal;
use std::io;

fn put_number(out: &mut [u8], at: usize, name: &[u8], n: u64) -> usize {
    let end = text::put(out, at, name);
    text::put_decimal(out, end, n)
}

fn put_refusal(out: &mut [u8], at: usize, refusal: Refusal) -> usize {
    put_number(out, at, b" refused ", u64::from(u8::from(refusal)))
}

fn put_cycle_time(out: &mut [u8], at: usize, time: CycleTime) -> usize {
    let seconds = put_number(out, at, b"seconds=", time.seconds);
    let cycle = put_number(out, seconds, b" cycle=", time.cycle);
    put_number(out, cycle, b" offset=", time.offset)
}

// What a cycle time stands for, or why it does not.
fn put_answered(out: &mut [u8], at: usize, name: &[u8], answered: Result<u64, Refusal>) -> usize {
    let named = text::put(out, at, name);
    match answered {
        Ok(n) => put_number(out, named, b"=", n),
        Err(refusal) => put_refusal(out, named, refusal),
    }
}

fn put_nanoseconds(out: &mut [u8], at: usize, time: CycleTime) -> usize {
    put_answered(out, at, b" ns", cycle::to_nanoseconds(time).map(|n| n.0))
}

fn put_syt(out: &mut [u8], at: usize, time: CycleTime) -> usize {
    put_answered(out, at, b" syt", cycle::to_syt(time).map(u64::from))
}

fn put_kind(out: &mut [u8], at: usize, kind: CycleKind) -> usize
    ensures { Put out.old at (32 ∷ cycle_kind_name kind) out.new result }
{
    match kind {
        CycleKind::None => text::put(out, at, b" none"),
        CycleKind::Late => text::put(out, at, b" late"),
        CycleKind::Ahead => text::put(out, at, b" ahead"),
    }
}

fn put_judged(out: &mut [u8], at: usize, judged: Result<CycleTiming, Refusal>) -> usize {
    match judged {
        Ok(timing) => {
            let named = put_kind(out, at, timing.kind);
            let offset = text::put(out, named, b" offset=");
            text::put_signed(out, offset, timing.offset.0)
        }
        Err(refusal) => put_refusal(out, at, refusal),
    }
}

// The digit of a number below 16.
fn hex_digit(n: u8) -> u8
    requires { n < 16 }
{
    if n < 10 { b'0' + n } else { b'a' + (n - 10) }
}

// A number's sixteen hexadecimal digits.
fn hex(n: u64) -> [u8; 16] {
    let bytes = n.to_be_bytes();
    let mut digits = [0; 16];
    for i in 0..8 {
        digits[2 * i] = hex_digit(bytes[i] / 16);
        digits[2 * i + 1] = hex_digit(bytes[i] % 16);
    }
    digits
}

fn put_no_question(out: &mut [u8]) -> usize {
    text::put(out, 0, b"no question")
}

fn answer_nanosecond(out: &mut [u8], question: &[u8]) -> usize {
    let n = wire::le64(question, 2);
    let time = cycle::to_cycle_time(Nanoseconds(n));
    let named = put_number(out, 0, b"ns=", n);
    let space = text::put(out, named, b" ");
    let parts = put_cycle_time(out, space, time);
    let ticks = put_number(out, parts, b" ticks=", cycle::to_ticks(Nanoseconds(n)).0);
    put_syt(out, ticks, time)
}

fn answer_cycle_time(out: &mut [u8], question: &[u8]) -> usize {
    let time = CycleTime {
        seconds: wire::le64(question, 2),
        cycle: wire::le64(question, 10),
        offset: wire::le64(question, 18),
    };
    let parts = put_cycle_time(out, 0, time);
    let back = put_nanoseconds(out, parts, time);
    put_syt(out, back, time)
}

// The CIP header is shown in hexadecimal; zeros where the frame ends before it does.
fn answer_judgement(out: &mut [u8], question: &[u8]) -> usize {
    let end = 10 + wire::byte(question, 1) as usize;
    if question.len() < end {
        return put_no_question(out);
    }
    let frame = &question[10..end];
    let arrival_time = wire::le64(question, 2);
    let arrived = put_number(out, 0, b"L=", arrival_time);
    let size = put_number(out, arrived, b" frame=", frame.len() as u64);
    let named = text::put(out, size, b" cip=");
    let cip = text::put(out, named, &hex(wire::be64(frame, 42)));
    put_judged(
        out,
        cip,
        cycle::judgement::judge(frame, Nanoseconds(arrival_time)),
    )
}

// A question's line in `out`, without its line feed: the place after it.
fn answer(out: &mut [u8], question: &[u8; 64]) -> usize {
    match question[0] {
        1 => answer_nanosecond(out, question),
        2 => answer_cycle_time(out, question),
        3 => answer_judgement(out, question),
        _ => put_no_question(out),
    }
}

// A line goes out at once. No line is longer than the buffer.
fn write_line(rt: HostRuntime, out: &mut [u8; 256], line: usize) -> io::Result<()> {
    let end = text::put(out, line, b"\n");
    if end <= out.len() {
        rt.write_all(&out[..end])?;
    }
    Ok(())
}

// The last question may be cut short.
fn answer_all(rt: HostRuntime, questions: &[u8]) -> io::Result<()> {
    let mut out = [0u8; 256];
    let (whole, rest) = questions.as_chunks::<64>();
    for question in whole {
        let line = answer(&mut out, question);
        write_line(rt, &mut out, line)?;
    }
    if !rest.is_empty() {
        let line = put_no_question(&mut out);
        write_line(rt, &mut out, line)?;
    }
    Ok(())
}

// The buffer holds whole questions.
fn main(rt: HostRuntime) -> io::Result<()> {
    let mut reader = Noting::new(rt.stdin());
    let mut questions = [0u8; 65536];
    // More turns than any input needs: a loop has to end.
    for _ in 0..u64::MAX {
        let read = input::first(&mut reader, &mut questions, 65536);
        if read.source == Source::Failed {
            return Err(reader.why());
        }
        if read.end == 0 {
            return Ok(());
        }
        answer_all(rt, &questions[..read.end])?;
    }
    Ok(())
}
