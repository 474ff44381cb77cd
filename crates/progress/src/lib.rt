// How far a long run has come, shown on standard error about once a second. Only where that is a terminal, and standard output is a file:
// what goes to a terminal tells by itself how far it has come, and a pipe may end at the same terminal.
#![tactic(auto)]

ghost use Rattle.std.specs.Prelude.{◌≡◌};
ghost use Rattle.progress.specs.declared.Shown.TheVariants.{Unticked};
ghost use Rattle.progress.specs.Progress.{ticked, Told, hidden};

use std::fs;
use std::io::IsTerminal;
use std::os::unix::fs::FileTypeExt;
use std::time::{SystemTime, UNIX_EPOCH};

// What stands on the terminal. The first tick may come at once, so that progress is shown from the second on.
#[derive(Clone, Copy, PartialEq, Eq)]
enum Shown {
    // nothing: the clock has not ticked since the start
    Unticked,
    // nothing yet, or no more: it is shown at the next tick
    Ticked,
    // the progress
    Visible,
}

#[derive(Clone, Copy)]
pub struct Progress {
    // Is it to be shown at all?
    wanted: bool,
    // The second that the clock showed last.
    second: u64,
    shown: Shown,
}

// The clock's second, and 0 where it has none.
fn clock(rt: HostRuntime) -> u64 {
    let Ok(now) = SystemTime::now(&rt) else {
        return 0;
    };
    now.duration_since(UNIX_EPOCH)
        .map_or(0, |since| since.as_secs())
}

// Has standard output a place to write at, which no terminal and no pipe has?
fn is_file(rt: HostRuntime) -> bool {
    !rt.stdout().is_terminal()
        && fs::metadata(&rt, "/dev/stdout").is_ok_and(|metadata| {
            let kind = metadata.file_type();
            !kind.is_fifo() && !kind.is_socket()
        })
}

// A run begins.
pub fn start(rt: HostRuntime) -> Progress
    ensures { result.shown ≡ Unticked }
{
    Progress {
        wanted: rt.stderr().is_terminal() && is_file(rt),
        second: clock(rt),
        shown: Shown::Unticked,
    }
}

// The clock shows this second.
fn tick(p: Progress, second: u64) -> Progress
    ensures { result ≡ ticked p second }
{
    if p.second == second {
        return p;
    }
    let shown = match p.shown {
        Shown::Unticked => Shown::Ticked,
        Shown::Ticked | Shown::Visible => Shown::Visible,
    };
    Progress { second, shown, ..p }
}

fn show(rt: HostRuntime, records: u64) {
    let _ = eprint!(rt; "\r{records} records");
}

// The run has come so far.
pub fn tell(rt: HostRuntime, p: Progress, records: u64) -> Progress
    ensures { Told p result }
{
    if !p.wanted {
        return p;
    }
    let next = tick(p, clock(rt));
    if next.shown == Shown::Visible && next.second != p.second {
        show(rt, records);
    }
    next
}

// The run is over. Only what was shown is wiped.
pub fn hide(rt: HostRuntime, p: Progress) -> Progress
    ensures { result ≡ hidden p }
{
    match p.shown {
        Shown::Unticked | Shown::Ticked => p,
        Shown::Visible => {
            let _ = eprint!(rt; "\r                            \r");
            Progress {
                shown: Shown::Ticked,
                ..p
            }
        }
    }
}
