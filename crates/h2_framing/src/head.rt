ghost use Rattle.std.specs.Prelude.{◌≡◌, ◌≤◌, length};
ghost use Rattle.h2_framing.specs.Frames.{head_of};

use byteorder::{BigEndian, ByteOrder};

/// How many octets the head of a frame has (RFC 9113 4.1).
pub(crate) const HEAD_OCTETS: usize = 9;

/// The greatest length of a payload (RFC 9113 4.2), as it stands until a setting changes it.
pub(crate) const LENGTH_LIMIT: u32 = 16_384;

/// The head of a frame (RFC 9113 4.1).
#[derive(Clone, Copy, Debug, PartialEq, Eq, Hash)]
pub struct Head {
    /// How many octets the payload has: 24 bits on the wire.
    pub length: u32,
    /// The frame's type.
    pub kind: u8,
    /// The flags of that type.
    pub flags: u8,
    /// The stream: 31 bits on the wire, behind a reserved bit that isn't read.
    pub stream: u32,
}

/// The head that the first nine octets give.
pub(crate) fn read_head(octets: &[u8]) -> Head
    requires { 9 ≤ length octets.now }
    ensures { result ≡ head_of octets.now }
{
    Head {
        length: BigEndian::read_u24(octets),
        kind: octets[3],
        flags: octets[4],
        stream: BigEndian::read_u32(&octets[5..]) % 2_147_483_648,
    }
}
