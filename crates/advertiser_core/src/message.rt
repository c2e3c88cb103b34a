use alt_base::Bytes;
use h2_framing::Head;

/// A frame that the server has made: its head (RFC 9113 4.1) and its payload, which has as many octets as the head says.
#[derive(Debug, PartialEq, Eq, Hash, Drop)]
pub struct Message {
    pub head: Head,
    pub payload: Bytes,
}
