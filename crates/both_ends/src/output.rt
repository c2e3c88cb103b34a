use advertiser_core::Answer;
use route_events::Actions;

/// What the server gives for an event.
#[derive(Clone, Copy, Debug, PartialEq, Eq)]
pub enum ServerOutput {
    /// Nothing.
    Nothing,
    /// The number of the message that was made.
    Made(u32),
    /// What a request is answered.
    Answered { request: u32, answer: Answer },
}

/// What both ends give for an event: what the server does, and the client's actions.
#[derive(Debug, Drop)]
pub struct Output {
    pub server: ServerOutput,
    pub actions: Actions,
}
