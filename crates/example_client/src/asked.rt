use origin_values::Origin;

/// A request that isn't over: its number, its origin, and whether it is asked again. The router keeps the origin while the
/// request is outstanding, and not behind that; who may want to ask again keeps it too.
#[derive(Drop)]
pub(crate) struct Asked {
    pub number: u32,
    pub origin: Origin,
    pub again: bool,
}
