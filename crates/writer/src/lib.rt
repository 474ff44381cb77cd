// Sending: frames written for one sender, with the next sequence number and block count.
#![tactic(auto)]

mod checked;
mod checks;
pub mod given;
mod rows;

ghost use Rattle.std.specs.Prelude.{◌≡◌, length};
ghost use Rattle.writer.specs.Writing.{write_answer, writing, output};

use checked::Checked;
use given::Given;
use refusal::Refusal;

// The next sequence number and block count.
#[derive(Clone, Copy, Debug, PartialEq, Eq)]
pub struct Sender {
    pub sequence: u8,
    pub dbc: u8,
}

// Writes a frame at the front of `out` and moves the sender on; or refuses, and changes nothing.
pub fn write(
    sender: &mut Sender,
    given: Given,
    payload: &[u8],
    out: &mut [u8],
) -> Result<(), Refusal>
    ensures result_value { write_answer result sender.new ≡ writing sender.old given payload.now (length out.old) }
    ensures out_after { out.new ≡ output sender.old given payload.now out.old }
{
    let checked = Checked::of(given, payload, out.len())?;
    checked.write(*sender, out);
    *sender = checked.next(*sender);
    Ok(())
}
