use alt_base::Bytes;

/// What a command that reads its whole input writes for it: what is asked for, or the line of a refusal.
#[derive(Drop)]
pub enum Given {
    Shown(Bytes),
    Refused(Bytes),
}
