/// What the parameters of an alternative give (RFC 7838 3.1): for how many seconds it is fresh, and whether it stays
/// when the network changes.
#[derive(Clone, Copy, Debug, PartialEq, Eq)]
pub(crate) struct Terms {
    pub(crate) ma: u32,
    pub(crate) persist: bool,
}
