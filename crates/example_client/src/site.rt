use origin_values::Proto;

/// What a server is made of: where it stands, which protocol and certificate it has, and how it behaves.
#[derive(Clone, Copy)]
pub(crate) struct Site {
    /// The host that a client looks up.
    pub host: &'static [u8],
    pub addr: [u8; 4],
    pub port: u16,
    pub proto: Proto,
    /// The names of the certificate, as event lines have them.
    pub names: &'static [u8],
    /// The octets that it sends first on each connection.
    pub first: &'static [u8],
    /// Which origins it serves; where it announces them, an ORIGIN frame comes behind the first octets.
    pub serves: &'static [&'static [u8]],
    pub announces: bool,
    /// The alternatives that an ALTSVC frame then brings for the first of them, or nothing.
    pub offers: &'static [u8],
    /// Which origins it doesn't serve any more, and answers by 421.
    pub moved: &'static [&'static [u8]],
    /// The Alt-Svc of its responses, or nothing.
    pub altsvc: &'static [u8],
    /// Whether it ends the connection in place of an answer.
    pub ends: bool,
}
