use route_events::{Request, Routes};

/// A request that waits, and the routes on which an attempt for its origin has ended since it arrived.
#[derive(Debug, Drop)]
pub struct Waiting {
    pub request: Request,
    pub tried: Routes,
}
