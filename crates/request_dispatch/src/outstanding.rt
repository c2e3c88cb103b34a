use route_events::{Request, Routes};

/// A request that is outstanding: the connection that it was sent on, its stream where that is one of HTTP/2 (RFC 9113
/// 5.1.1), and the routes on which an attempt for its origin has ended since it arrived.
#[derive(Debug, Drop)]
pub struct Outstanding {
    pub request: Request,
    pub conn: u64,
    pub stream: Option<u32>,
    pub tried: Routes,
}
