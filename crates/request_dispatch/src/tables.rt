use crate::attempts::Attempts;
use crate::connections::Connections;
use crate::requests::Requests;

/// What the client keeps of attempts, requests and connections.
#[derive(Drop)]
pub struct Tables {
    pub attempts: Attempts,
    pub requests: Requests,
    pub connections: Connections,
}
