use alt_base::Bytes;

/// What a value's string stands for: its bytes, and whether no backslash stands in it.
#[derive(Debug, PartialEq, Eq, Drop)]
pub struct Unescaped {
    pub bytes: Bytes,
    pub plain: bool,
}
