// Document 01's checks of a write, in their order.
ghost use Rattle.std.specs.Prelude.{◌≡◌, ◌≤◌, true, false};
ghost use Rattle.frame.specs.Layout.{has_cip, cip_length};
ghost use Rattle.writer.specs.Writing.{ethernet_fits, stream_fits, cip_fits, fields_fit, write_refusal};
ghost use Rattle.refusal.specs.Refusals.{verdict_number};

use crate::given::{CipFields, EthernetFields, Given, StreamFields};
use refusal::Refusal;

#[tactic(auto, unfolding(crate::specs::Writing::ethernet_fits), using(crate::proofs::Fits::conjoined))]
fn ethernet_fits(a: EthernetFields) -> bool
    ensures { result ≡ ethernet_fits a }
{
    (a.destination < 0x1_0000_0000_0000)
        & (a.source < 0x1_0000_0000_0000)
        & (a.pcp < 8)
        & (a.vid < 4096)
}

#[tactic(auto, unfolding(crate::specs::Writing::stream_fits), using(crate::proofs::Fits::conjoined))]
fn stream_fits(o: StreamFields) -> bool
    ensures { result ≡ stream_fits o }
{
    (o.tag < 2) & (o.channel < 64) & (o.sy < 16)
}

// With tag 1 each field has its bits.
#[tactic(auto, unfolding(crate::specs::Writing::cip_fits), using(crate::proofs::Fits::conjoined))]
fn cip_header_fits(f: CipFields) -> bool
    ensures { result ≡ cip_fits true f }
{
    (f.sid < 64) & (f.fraction_number < 4) & (f.qpc == 0) & (f.fmt < 64)
}

// With tag 0 none has any.
#[tactic(auto, unfolding(crate::specs::Writing::cip_fits), using(crate::proofs::Fits::conjoined))]
fn cip_all_zero(f: CipFields) -> bool
    ensures { result ≡ cip_fits false f }
{
    (f.sid == 0)
        & (f.dbs == 0)
        & (f.fraction_number == 0)
        & (f.qpc == 0)
        & !f.sph
        & (f.fmt == 0)
        & (f.fdf == 0)
        & (f.low_half == 0)
}

fn cip_fits(tag: u8, f: CipFields) -> bool
    ensures { result ≡ cip_fits (has_cip tag) f }
{
    if tag == 1 {
        return cip_header_fits(f);
    }
    cip_all_zero(f)
}

#[tactic(auto, unfolding(crate::specs::Writing::fields_fit))]
fn fits(given: Given) -> bool
    ensures { result ≡ fields_fit given }
{
    ethernet_fits(given.ethernet)
        & stream_fits(given.stream)
        & cip_fits(given.stream.tag, given.cip)
}

// How many bytes the CIP header has in a frame with this tag.
pub(crate) fn cip_length(tag: u8) -> usize
    ensures { (result ≡ cip_length (has_cip tag)) × (result ≤ 8) }
{
    if tag == 1 { 8 } else { 0 }
}

// May a frame with these fields and `n` bytes of payload be written into `room` bytes?
#[tactic(auto, unfolding(refusal::specs::Refusals::first_of, crate::specs::Writing::write_checks, crate::specs::Writing::write_refusal))]
pub(crate) fn check(given: Given, n: usize, room: usize) -> Result<(), Refusal>
    ensures { verdict_number result ≡ write_refusal given n room }
{
    if frame::checks::misaddressed(given.ethernet.destination, given.ethernet.source) {
        return Err(Refusal::WriteWrongAddress);
    }
    if !fits(given) {
        return Err(Refusal::WriteFieldTooWide);
    }
    let tag = given.stream.tag;
    if (tag == 1) & frame::checks::partial_block(n, given.cip.dbs) {
        return Err(Refusal::WritePartialBlock);
    }
    let cip = cip_length(tag);
    if 1476 - cip < n {
        return Err(Refusal::WritePayloadTooLong);
    }
    if room < 42 + cip + n {
        return Err(Refusal::WriteOutputTooShort);
    }
    Ok(())
}
