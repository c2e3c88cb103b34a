use crate::tables::Tables;
use route_events::Actions;

/// How far a step has come: the tables, and the actions so far, in order.
#[derive(Drop)]
pub struct StepState {
    pub tables: Tables,
    pub actions: Actions,
}
