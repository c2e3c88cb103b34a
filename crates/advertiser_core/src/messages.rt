ghost use Rattle.std.specs.Prelude.{◌≤◌, length};

use crate::Message;
use alt_base::{Bytes, ListOf, NoMemory};
use h2_framing::Head;
use std::alloc::Global;

/// The most messages that are kept.
const MOST_MESSAGES: usize = 16_777_215;

/// The messages that were made, the oldest first.
#[derive(Debug, Drop)]
pub(crate) struct Messages {
    made: ListOf<Message>,
    ghost few: { length made ≤ 16777215 },
}

impl Messages {
    ghost use Rattle.std.specs.Prelude.{◌≡◌, ◌+◌, [], ◌∷◌, ◌++◌, nat_eq, false, IfOk, OnOk, OnErr};
    ghost use Rattle.std.specs.Option.{option_copied};
    ghost use Rattle.origin_frame.specs.PayloadWritten.{frame_limit};
    ghost use Rattle.advertiser_core.specs.Messages.{framed, numbered};
    ghost use Rattle.advertiser_core.specs.Refusals.{most_messages};

    // None.
    pub(crate) fn new(alloc: Global) -> Messages
        ensures { result.made ≡ [] }
    {
        Messages {
            made: ListOf::new(alloc),
        }
    }

    // Whether as many are kept as may be.
    pub(crate) fn is_full(&self) -> bool
        ensures { result ≡ nat_eq (length self.now.made) most_messages }
    {
        self.made.len() == MOST_MESSAGES
    }

    // Adds the frame of a kind with a payload, without flags, on stream 0, and gives its number.
    pub(crate) fn add(&mut self, kind: u8, payload: Bytes) -> Result<u32, NoMemory>
        requires room { nat_eq (length self.old.made) most_messages ≡ false }
        requires within { length payload ≤ frame_limit }
        ensures added { OnOk result (self.new.made ≡ self.old.made ++ framed kind payload ∷ []) }
        ensures number { IfOk result (λ n. n ≡ length self.old.made + 1) }
        ensures err { OnErr result (self.new.made ≡ self.old.made) }
    {
        let head = Head {
            length: payload.len() as u32,
            kind,
            flags: 0,
            stream: 0,
        };
        let number = self.made.len() as u32 + 1;
        self.made.push(Message { head, payload })?;
        Ok(number)
    }

    // The message of a number, from 1.
    pub(crate) fn get(&self, number: u32) -> Option<&Message>
        ensures { option_copied result ≡ numbered self.now.made number }
    {
        if number == 0 {
            return None;
        }
        self.made.get(number as usize - 1)
    }
}
