// A frame's bytes, and each field taken from where document 01's layout puts it.
ghost use Rattle.std.specs.Prelude.{◌≤◌, length};

use crate::checks;
use crate::layout::{Avtp, Cip, Ethernet, Header, Stream};
use refusal::Refusal;

// A frame's bytes, which hold the 42 with which every frame starts.
#[derive(Clone, Copy)]
pub(crate) struct Bytes<'a> {
    frame: &'a [u8],
    ghost header_there: { 42 ≤ length frame.now },
}

impl<'a> Bytes<'a> {
    ghost use Rattle.std.specs.Prelude.{◌≡◌, IfOk};
    ghost use Rattle.refusal.specs.Refusals.{verdict_number, first_of};
    ghost use Rattle.frame.specs.Checks.{length_checks};
    ghost use Rattle.frame.specs.Layout.{ethernet_of, avtp_of, stream_of, header_of, cip_of};

    // A frame whose length is refused has none.
    pub(crate) fn of(frame: &'a [u8]) -> Result<Bytes<'a>, Refusal>
        ensures number { verdict_number result ≡ first_of (length_checks (length frame.now)) }
        ensures same { IfOk result (λ bytes. bytes.frame.now ≡ frame.now) }
    {
        checks::check_length(frame.len())?;
        Ok(Bytes { frame })
    }

    fn ethernet(self) -> Ethernet
        ensures { result ≡ ethernet_of self.entry.frame.now }
    {
        let vlan = wire::be16(self.frame, 14);
        Ethernet {
            destination: wire::be48(self.frame, 0),
            source: wire::be48(self.frame, 6),
            tpid: wire::be16(self.frame, 12),
            pcp: ((vlan >> 13) & 0x7) as u8,
            cfi: (vlan >> 12) & 0x1 == 1,
            vid: vlan & 0xfff,
            ethertype: wire::be16(self.frame, 16),
        }
    }

    fn avtp(self) -> Avtp
        ensures { result ≡ avtp_of self.entry.frame.now }
    {
        let subtype = wire::byte(self.frame, 18);
        let valid = wire::byte(self.frame, 19);
        Avtp {
            cd: (subtype >> 7) & 0x1 == 1,
            subtype: subtype & 0x7f,
            sv: (valid >> 7) & 0x1 == 1,
            version: (valid >> 4) & 0x7,
            mr: (valid >> 3) & 0x1 == 1,
            gv: (valid >> 1) & 0x1 == 1,
            tv: valid & 0x1 == 1,
            sequence: wire::byte(self.frame, 20),
            tu: wire::byte(self.frame, 21) & 0x1 == 1,
        }
    }

    fn stream(self) -> Stream
        ensures { result ≡ stream_of self.entry.frame.now }
    {
        let packet = wire::be16(self.frame, 40);
        Stream {
            id: wire::be64(self.frame, 22),
            timestamp: wire::be32(self.frame, 30),
            gateway_info: wire::be32(self.frame, 34),
            data_length: wire::be16(self.frame, 38),
            tag: ((packet >> 14) & 0x3) as u8,
            channel: ((packet >> 8) & 0x3f) as u8,
            sy: (packet & 0xf) as u8,
        }
    }

    pub(crate) fn header(self) -> Header
        ensures { result ≡ header_of self.entry.frame.now }
    {
        Header {
            ethernet: self.ethernet(),
            avtp: self.avtp(),
            stream: self.stream(),
        }
    }

    pub(crate) fn cip(self) -> Cip
        requires { 50 ≤ length self.frame.now }
        ensures { result ≡ cip_of self.entry.frame.now }
    {
        let fraction = wire::byte(self.frame, 44);
        Cip {
            sid: wire::byte(self.frame, 42) & 0x3f,
            dbs: wire::byte(self.frame, 43),
            fraction_number: (fraction >> 6) & 0x3,
            qpc: (fraction >> 3) & 0x7,
            sph: (fraction >> 2) & 0x1 == 1,
            dbc: wire::byte(self.frame, 45),
            fmt: wire::byte(self.frame, 46) & 0x3f,
            fdf: wire::byte(self.frame, 47),
            low_half: wire::be16(self.frame, 48),
        }
    }
}
