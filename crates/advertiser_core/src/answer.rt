/// What the server answers to a request of an origin (RFC 9110 15.5.20).
#[derive(Clone, Copy, Debug, PartialEq, Eq)]
pub enum Answer {
    /// The origin is served.
    Serve,
    /// It isn't: the request has come to the wrong server, which is status 421.
    Misdirected,
}
