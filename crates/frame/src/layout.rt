// The fields of a frame, in the order of document 01's layout.

// Bytes 0 to 17: the Ethernet header with its VLAN tag. Addresses are 48-bit numbers.
#[derive(Clone, Copy)]
pub struct Ethernet {
    pub destination: u64,
    pub source: u64,
    pub tpid: u16,
    pub pcp: u8,
    pub cfi: bool,
    pub vid: u16,
    pub ethertype: u16,
}

// Bytes 18 to 21: what every AVTPDU of a stream starts with.
#[derive(Clone, Copy)]
pub struct Avtp {
    pub cd: bool,
    pub subtype: u8,
    pub sv: bool,
    pub version: u8,
    pub mr: bool,
    pub gv: bool,
    pub tv: bool,
    pub sequence: u8,
    pub tu: bool,
}

// Bytes 22 to 41: the stream, its AVTP timestamp, and the header of an IEEE 1394 packet.
#[derive(Clone, Copy)]
pub struct Stream {
    pub id: u64,
    pub timestamp: u32,
    pub gateway_info: u32,
    // stream_data_length: the CIP header, where there is one, and the payload
    pub data_length: u16,
    // 1 where a CIP header follows, 0 where there is none
    pub tag: u8,
    pub channel: u8,
    pub sy: u8,
}

// Bytes 42 to 49: the CIP header. Where there is none every field is 0 or no, as by default.
#[derive(Clone, Copy, Default)]
pub struct Cip {
    pub sid: u8,
    pub dbs: u8,
    pub fraction_number: u8,
    // 0 in every accepted frame
    pub qpc: u8,
    pub sph: bool,
    pub dbc: u8,
    pub fmt: u8,
    pub fdf: u8,
    // SYT where SPH is 0; the lower 16 bits of a 24-bit FDF where SPH is 1
    pub low_half: u16,
}

// What stands in the first 42 bytes, whatever the stream carries.
#[derive(Clone, Copy)]
pub struct Header {
    pub ethernet: Ethernet,
    pub avtp: Avtp,
    pub stream: Stream,
}

#[derive(Clone, Copy)]
pub struct Fields {
    pub header: Header,
    pub cip: Cip,
}
