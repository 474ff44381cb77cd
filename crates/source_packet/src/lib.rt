// Source packets and the blocks that carry them: which block of a frame opens one (request #102; IEC 61883-1).
#![tactic(auto)]

ghost use Rattle.std.specs.Prelude.{◌≡◌, ◌<◌};
ghost use Rattle.source_packet.specs.Blocks.{Earliest, IsFirstStart, first_start};

use frame::layout::Cip;

// How many blocks come before the first that opens a source packet, in a frame that goes on for long enough.
fn blocks_before_start(cip: Cip) -> usize
    ensures earliest { Earliest cip result }
    ensures upper_bound { result < 256 }
{
    let left = 256 - cip.dbc as usize;
    let fraction_number = cip.fraction_number;
    // A count has eight bits: more of them than that are zero where all eight are.
    if 8 <= fraction_number {
        return left % 256;
    }
    left % (1usize << fraction_number)
}

// The first block of a payload that opens a source packet, counted from 0; none where no block does. SPH is not asked.
pub fn first_start(cip: Cip, payload: &[u8]) -> Option<usize>
    ensures value { result ≡ first_start cip payload.now }
    ensures first_start { IsFirstStart cip payload.now result }
{
    let before = blocks_before_start(cip);
    // Where the block ends. To count the blocks of the payload instead would take a division.
    let end = (before + 1) * frame::checks::block_bytes(cip.dbs);
    if payload.len() < end {
        return None;
    }
    Some(before)
}
