// Does a frame that was read back hold what was given?
use frame::layout::{Fields, Header};
use writer::Sender;
use writer::given::{AvtpFields, CipFields, EthernetFields, Given, StreamFields};

// Of the fields that were read, those that a caller gives.
pub(crate) fn given_of(read: Fields) -> Given {
    let Header {
        ethernet,
        avtp,
        stream,
    } = read.header;
    let cip = read.cip;
    Given {
        ethernet: EthernetFields {
            destination: ethernet.destination,
            source: ethernet.source,
            pcp: ethernet.pcp,
            vid: ethernet.vid,
        },
        avtp: AvtpFields {
            mr: avtp.mr,
            gv: avtp.gv,
            tv: avtp.tv,
            tu: avtp.tu,
        },
        stream: StreamFields {
            id: stream.id,
            timestamp: stream.timestamp,
            gateway_info: stream.gateway_info,
            tag: stream.tag,
            channel: stream.channel,
            sy: stream.sy,
        },
        cip: CipFields {
            sid: cip.sid,
            dbs: cip.dbs,
            fraction_number: cip.fraction_number,
            qpc: cip.qpc,
            sph: cip.sph,
            fmt: cip.fmt,
            fdf: cip.fdf,
            low_half: cip.low_half,
        },
    }
}

// And the sender's numbers. With tag 0 there is no block count in the frame, and `unread` stands for it.
pub(crate) fn sender_of(read: Fields, unread: u8) -> Sender {
    let dbc = if read.header.stream.tag == 1 {
        read.cip.dbc
    } else {
        unread
    };
    Sender {
        sequence: read.header.avtp.sequence,
        dbc,
    }
}

// What a writer sets in the header of a frame that ends at place `end`. stream_data_length counts from byte 42 on.
fn set(header: Header, end: usize) -> bool {
    let Header {
        ethernet,
        avtp,
        stream,
    } = header;
    ethernet.tpid == 0x8100
        && !ethernet.cfi
        && ethernet.ethertype == 0x22f0
        && !avtp.cd
        && avtp.subtype == 0
        && avtp.sv
        && avtp.version == 0
        && 42 + usize::from(stream.data_length) == end
}

// Without a CIP header its block count is read as 0.
fn block_count(read: Fields) -> bool {
    read.header.stream.tag == 1 || read.cip.dbc == 0
}

pub(crate) fn fields(read: Fields, sender: Sender, given: Given, end: usize) -> bool {
    given_of(read) == given
        && sender_of(read, sender.dbc) == sender
        && set(read.header, end)
        && block_count(read)
}
