// A frame is written, read, and what was read is written again.
use crate::agree::{given_of, sender_of};
use crate::show::{blank, payload_start, untouched, verdict};
use std::io;
use writer::Sender;
use writer::given::Given;

// Is the frame written again the same, and what is behind it as it was?
fn same_again(frame: &[u8]) -> bool {
    let Ok(read) = frame::read(frame) else {
        return false;
    };
    // With tag 0 any block count will do.
    let mut sender = sender_of(read, 77);
    let mut out = blank();
    writer::write(&mut sender, given_of(read), frame::payload(frame), &mut out).is_ok()
        && out.starts_with(frame)
        && untouched(&out, frame.len())
}

// The same of a payload of `n` bytes, at most 1,476.
pub(crate) fn again(
    rt: HostRuntime,
    name: &str,
    sender: Sender,
    given: Given,
    n: usize,
) -> io::Result<()> {
    let mut sender = sender;
    let n = n.min(1476);
    let payload = [0x5a; 1476];
    let mut out = blank();
    let end = payload_start(given.stream.tag) + n;
    match writer::write(&mut sender, given, &payload[..n], &mut out) {
        Ok(()) => {
            let same = verdict(same_again(&out[..end]));
            println!(rt; "{name}: {same}")
        }
        Err(_) => println!(rt; "{name}: REFUSED"),
    }
}
