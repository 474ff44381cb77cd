// What a caller gives of a frame: every field of the layout but those that a writer sets.

// The Ethernet header. Addresses are 48-bit numbers.
#[derive(Clone, Copy, Debug, PartialEq, Eq)]
pub struct EthernetFields {
    pub destination: u64,
    pub source: u64,
    pub pcp: u8,
    pub vid: u16,
}

// Media clock restart, gateway info valid, timestamp valid, timestamp uncertain.
#[derive(Clone, Copy, Debug, PartialEq, Eq)]
pub struct AvtpFields {
    pub mr: bool,
    pub gv: bool,
    pub tv: bool,
    pub tu: bool,
}

// The stream, its AVTP timestamp, and what is left open of the header of an IEEE 1394 packet.
#[derive(Clone, Copy, Debug, PartialEq, Eq)]
pub struct StreamFields {
    pub id: u64,
    pub timestamp: u32,
    pub gateway_info: u32,
    // 1: with a CIP header, 0: without
    pub tag: u8,
    pub channel: u8,
    pub sy: u8,
}

// The CIP header, without its block count. Every field is 0 or no with tag 0.
#[derive(Clone, Copy, Debug, PartialEq, Eq)]
pub struct CipFields {
    pub sid: u8,
    pub dbs: u8,
    pub fraction_number: u8,
    // 0: a writer takes no other
    pub qpc: u8,
    pub sph: bool,
    pub fmt: u8,
    pub fdf: u8,
    // SYT where SPH is 0; the lower 16 bits of a 24-bit FDF where SPH is 1
    pub low_half: u16,
}

#[derive(Clone, Copy, Debug, PartialEq, Eq)]
pub struct Given {
    pub ethernet: EthernetFields,
    pub avtp: AvtpFields,
    pub stream: StreamFields,
    pub cip: CipFields,
}
