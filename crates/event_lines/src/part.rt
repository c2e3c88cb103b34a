use std::marker::Model;

/// A part of a line, and the place where it begins.
#[derive(Drop)]
pub(crate) struct Part<'a> {
    pub text: &'a [u8],
    pub place: u32,
}

impl<'a> Model for Part<'a> {
    ghost use Rattle.std.specs.Prelude.{◌+◌, ◌<◌, ◌^◌, length};
    ghost use Rattle.event_lines.specs.Parts.{Part};

    ghost Value = { Part };

    ghost view = { λ part. record { text = part.text.now; place = part.place } };

    ghost invariant = { λ part. part.place + length part.text.now < 2 ^ 32 };
}
