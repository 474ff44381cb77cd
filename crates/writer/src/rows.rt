// The fields of a frame put together, row by row, by shifts and ors.
ghost use Rattle.std.specs.Prelude.{◌≡◌, ◌+◌, ◌*◌, ◌^◌, ◌<◌};
ghost use Rattle.wire.specs.Bits.{pack, Fit};
ghost use Rattle.frame.specs.Layout.{vlan_row, valid_row, uncertain_row, packet_row, source_row, fraction_row, format_row};
ghost use Rattle.writer.specs.Frames.{vlan_values, valid_values, uncertain_values, packet_values, source_values, fraction_values, format_values};

use crate::given::{AvtpFields, CipFields, EthernetFields, StreamFields};

// `hi` above the `width` bits of `lo`.
fn join(hi: u16, width: u32, lo: u16) -> u16
    requires { (width < 16) × (lo < 2 ^ width) × (hi * 2 ^ width < 2 ^ 16) }
    ensures { result ≡ hi * 2 ^ width + lo }
{
    hi << width | lo
}

pub(crate) fn vlan(ethernet: EthernetFields) -> u16
    requires { Fit vlan_row (vlan_values ethernet) }
    ensures { result ≡ pack vlan_row (vlan_values ethernet) }
{
    join(join(ethernet.pcp as u16, 1, 0), 12, ethernet.vid)
}

pub(crate) fn valid(avtp: AvtpFields) -> u8
    ensures { result ≡ pack valid_row (valid_values avtp) }
{
    let clock = join(join(1, 3, 0), 1, avtp.mr as u16);
    join(
        join(join(clock, 1, 0), 1, avtp.gv as u16),
        1,
        avtp.tv as u16,
    ) as u8
}

pub(crate) fn uncertain(avtp: AvtpFields) -> u8
    ensures { result ≡ pack uncertain_row (uncertain_values avtp) }
{
    // what is reserved above it is 0
    avtp.tu as u8
}

pub(crate) fn packet(stream: StreamFields) -> u16
    requires { Fit packet_row (packet_values stream) }
    ensures { result ≡ pack packet_row (packet_values stream) }
{
    join(
        join(join(stream.tag as u16, 6, stream.channel as u16), 4, 10),
        4,
        stream.sy as u16,
    )
}

pub(crate) fn source(cip: CipFields) -> u8
    requires { Fit source_row (source_values cip) }
    ensures { result ≡ pack source_row (source_values cip) }
{
    // the indicator above it is 0
    cip.sid
}

pub(crate) fn fraction(cip: CipFields) -> u8
    requires { Fit fraction_row (fraction_values cip) }
    ensures { result ≡ pack fraction_row (fraction_values cip) }
{
    let number = join(cip.fraction_number as u16, 3, cip.qpc as u16);
    join(join(number, 1, cip.sph as u16), 2, 0) as u8
}

pub(crate) fn fmt(cip: CipFields) -> u8
    requires { Fit format_row (format_values cip) }
    ensures { result ≡ pack format_row (format_values cip) }
{
    join(2, 6, cip.fmt as u16) as u8
}
