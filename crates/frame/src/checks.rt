// Document 01's checks of a received frame, a function for each group of them.
ghost use Rattle.std.specs.Prelude.{◌≡◌, ◌≤◌};
ghost use Rattle.refusal.specs.Refusals.{verdict_number, first_of};
ghost use Rattle.frame.specs.Checks.{length_checks, ethernet_checks, avtp_checks, misaddressed, address_checks, stream_checks, block_bytes, partial_block, block_checks, header_checks};

use crate::layout::{Avtp, Cip, Ethernet, Header, Stream};
use refusal::Refusal;

#[tactic(auto, unfolding(refusal::specs::Refusals::first_of, crate::specs::Checks::length_checks))]
pub(crate) fn check_length(n: usize) -> Result<(), Refusal>
    ensures { verdict_number result ≡ first_of (length_checks n) }
{
    if n < 42 {
        return Err(Refusal::FrameTooShort);
    }
    if 1518 < n {
        return Err(Refusal::FrameTooLong);
    }
    Ok(())
}

#[tactic(auto, unfolding(refusal::specs::Refusals::first_of, crate::specs::Checks::ethernet_checks))]
fn check_ethernet(e: Ethernet) -> Result<(), Refusal>
    ensures { verdict_number result ≡ first_of (ethernet_checks e) }
{
    if e.tpid != 0x8100 {
        return Err(Refusal::WrongTpid);
    }
    if e.cfi {
        return Err(Refusal::CfiSet);
    }
    if e.ethertype != 0x22f0 {
        return Err(Refusal::WrongEthertype);
    }
    Ok(())
}

#[tactic(auto, unfolding(refusal::specs::Refusals::first_of, crate::specs::Checks::avtp_checks))]
fn check_avtp(a: Avtp) -> Result<(), Refusal>
    ensures { verdict_number result ≡ first_of (avtp_checks a) }
{
    if a.cd {
        return Err(Refusal::ControlAvtpdu);
    }
    if a.subtype != 0 {
        return Err(Refusal::WrongSubtype);
    }
    if a.version != 0 {
        return Err(Refusal::WrongVersion);
    }
    if !a.sv {
        return Err(Refusal::NoStreamId);
    }
    Ok(())
}

// The destination is not a group address, or the source is one. Both readers and writers refuse that.
pub fn misaddressed(destination: u64, source: u64) -> bool
    ensures { result ≡ misaddressed destination source }
{
    !((destination >> 40) & 0x1 == 1) | ((source >> 40) & 0x1 == 1)
}

#[tactic(auto, unfolding(refusal::specs::Refusals::first_of, crate::specs::Checks::address_checks))]
fn check_addresses(e: Ethernet) -> Result<(), Refusal>
    ensures { verdict_number result ≡ first_of (address_checks e) }
{
    if misaddressed(e.destination, e.source) {
        return Err(Refusal::WrongAddress);
    }
    Ok(())
}

#[tactic(auto, unfolding(refusal::specs::Refusals::first_of, crate::specs::Checks::stream_checks))]
fn check_stream(n: usize, s: Stream) -> Result<(), Refusal>
    ensures { verdict_number result ≡ first_of (stream_checks n s) }
{
    if n.saturating_sub(42) < s.data_length as usize {
        return Err(Refusal::DataBeyondFrame);
    }
    if 1 < s.tag {
        return Err(Refusal::WrongTag);
    }
    Ok(())
}

// How many bytes a block has. DBS 0 stands for 256 quadlets.
pub fn block_bytes(dbs: u8) -> usize
    ensures { result ≡ block_bytes dbs }
{
    if dbs == 0 {
        return 1024;
    }
    4 * (dbs as usize)
}

// Are `n` bytes of payload not a whole number of blocks?
pub fn partial_block(n: usize, dbs: u8) -> bool
    ensures { result ≡ partial_block n dbs }
{
    n % block_bytes(dbs) != 0
}

#[tactic(auto, unfolding(refusal::specs::Refusals::first_of, crate::specs::Checks::block_checks))]
pub(crate) fn check_blocks(s: Stream, c: Cip) -> Result<(), Refusal>
    requires { 8 ≤ s.data_length }
    ensures { verdict_number result ≡ first_of (block_checks s c) }
{
    // Zero for all types of IEC 61883 (IEEE 1722-2011, 6.2.6.4).
    if c.qpc != 0 {
        return Err(Refusal::WrongQpc);
    }
    let data_length = s.data_length;
    if partial_block((data_length - 8) as usize, c.dbs) {
        return Err(Refusal::PartialBlock);
    }
    Ok(())
}

pub(crate) fn check_header(n: usize, h: Header) -> Result<(), Refusal>
    ensures { verdict_number result ≡ first_of (header_checks n h) }
{
    check_ethernet(h.ethernet)?;
    check_avtp(h.avtp)?;
    check_addresses(h.ethernet)?;
    check_stream(n, h.stream)
}
