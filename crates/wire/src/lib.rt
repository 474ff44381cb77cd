// Numbers on the wire, most significant byte first. Each reader answers 0 where the slice ends before the number does.
#![tactic(auto)]

ghost use Rattle.std.specs.Prelude.{◌≡◌, ◌+◌, cond, leb, length, replicate};
ghost use Rattle.wire.specs.Numbers.{number_or_0, little_endian_or_0, part};
ghost use Rattle.wire.specs.RoundTrips.{RoundTrips};

// The K bytes from place `at` on, or zeros where the slice ends before they do.
fn array<const K: usize>(s: &[u8], at: usize) -> [u8; K]
    ensures { result ≡ cond (leb (at + K) (length s.now)) (part at K s.now) (replicate K 0) }
{
    if let Some(rest) = s.get(at..)
        && let Some(there) = rest.first_chunk()
    {
        return *there;
    }
    [0; K]
}

pub fn byte(s: &[u8], at: usize) -> u8
    ensures { result ≡ number_or_0 at 1 s.now }
{
    u8::from_be_bytes(array(s, at))
}

pub fn be16(s: &[u8], at: usize) -> u16
    ensures { result ≡ number_or_0 at 2 s.now }
{
    u16::from_be_bytes(array(s, at))
}

// A number of four bytes and more is two of fewer, joined: one fact over the width and both orders of bytes (proofs/Halves.antt).
pub fn be32(s: &[u8], at: usize) -> u32
    ensures { result ≡ number_or_0 at 4 s.now }
{
    let bytes = array::<4>(s, at);
    ((be16(&bytes, 0) as u32) << 16) | (be16(&bytes, 2) as u32)
}

pub fn be48(s: &[u8], at: usize) -> u64
    ensures { result ≡ number_or_0 at 6 s.now }
{
    let bytes = array::<6>(s, at);
    ((be16(&bytes, 0) as u64) << 32) | (be32(&bytes, 2) as u64)
}

// Stream ids are read here, those of frames and those of captures: two halves of four bytes, joined.
pub fn be64(s: &[u8], at: usize) -> u64
    ensures { result ≡ number_or_0 at 8 s.now }
{
    let bytes = array::<8>(s, at);
    // The low half first: in this order the compiler makes one load of both.
    let low = be32(&bytes, 4) as u64;
    ((be32(&bytes, 0) as u64) << 32) | low
}

// A capture's own numbers have the least significant byte first.
pub fn le16(s: &[u8], at: usize) -> u16
    ensures { result ≡ little_endian_or_0 at 2 s.now }
{
    u16::from_le_bytes(array(s, at))
}

pub fn le32(s: &[u8], at: usize) -> u32
    ensures { result ≡ little_endian_or_0 at 4 s.now }
{
    let bytes = array::<4>(s, at);
    ((le16(&bytes, 2) as u32) << 16) | (le16(&bytes, 0) as u32)
}

pub fn le64(s: &[u8], at: usize) -> u64
    ensures { result ≡ little_endian_or_0 at 8 s.now }
{
    let bytes = array::<8>(s, at);
    ((le32(&bytes, 4) as u64) << 32) | (le32(&bytes, 0) as u64)
}

// Reading and writing undo each other: the writer's and the reader's claims rest on this.
fn round_trips()
    ensures { RoundTrips }
{}
