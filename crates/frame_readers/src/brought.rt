use h2_framing::Frames;

/// What the octets of a connection brought.
#[derive(Debug, Drop)]
pub struct Brought {
    /// The frames that end in them, in order.
    pub frames: Frames,
    /// The length that a head behind those frames gives, in octets, where it is above 16,384 (RFC 9113 4.2).
    pub too_large: Option<u32>,
}
