use crate::AltKey;
use crate::terms::Terms;

/// An element of a value: `clear`, or an alternative.
#[derive(Debug, Drop)]
pub(crate) enum Element {
    Clear,
    Alternative(AltKey, Terms),
}
