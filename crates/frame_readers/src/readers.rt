ghost use Rattle.std.specs.Prelude.{◌≡◌, ◌≤◌, ◌+◌, ◌*◌, ◌++◌, [], ℕ, List, false, None, Some, nat_eq, length, IfOk, OnOk};
ghost use Rattle.std.specs.List.{All, position_from};
ghost use Rattle.std.specs.Option.{option_copied};
ghost use Rattle.h2_framing.specs.Reading.{Brings, buffer_of};
ghost use Rattle.frame_readers.specs.Readers.{is_of, reader_among, other_readers, held_of, skipped_of, Reads, Fits};

use crate::Brought;
use alt_base::NoMemory;
use h2_framing::{Fed, FrameReader};
use std::alloc::Global;
use std::marker::Model;

/// The reader of the frames of a connection.
#[derive(Debug, Drop)]
pub struct ReaderOf {
    /// The connection's number.
    pub conn: u64,
    pub reader: FrameReader,
}

/// The readers of the connections on which octets came; a connection without one has an unfinished frame of no octets.
#[derive(Debug, Drop)]
pub struct Readers {
    alloc: Global,
    readers: Vec<ReaderOf>,
}

impl Model for Readers {
    ghost use Rattle.std.specs.Prelude.{List};
    ghost use Rattle.std.specs.List.{All};
    ghost use Rattle.frame_readers.specs.declared.readers.ReaderOf.{ReaderOf};
    ghost use Rattle.frame_readers.specs.Readers.{Stands};

    ghost Value = { List ReaderOf };

    ghost view = { λ table. table.readers.items };

    ghost invariant = { λ table. All Stands table.readers.items };
}

impl Readers {
    /// A table with no reader. It takes no memory.
    pub fn new(alloc: Global) -> Readers
        ensures { result ≡ [] }
    {
        Readers {
            alloc,
            readers: Vec::new(alloc),
        }
    }

    /// Takes the next octets of a connection: the frames that end in them, in order, and the length of a head that is
    /// above 16,384, behind which nothing is read (RFC 9113 4.2): the connection is to be closed; it has
    /// no reader then, and what is fed of it from then on is read as another stream. NoMemory comes only where memory isn't found; the reader of that
    /// connection may be gone then, and the table may not be used further.
    pub fn feed(&mut self, conn: u64, piece: &[u8]) -> Result<Brought, NoMemory>
        ensures brings { IfOk result (λ brought. (x : List ℕ) → Reads self.old conn x → Brings x piece.now brought.frames brought.too_large) }
        ensures reads { IfOk result (λ brought. (x : List ℕ) → Reads self.old conn x → brought.too_large ≡ None → Reads self.new conn (x ++ piece.now)) }
        ensures ended { IfOk result (λ brought. (length : ℕ) → brought.too_large ≡ Some length → reader_among self.new conn ≡ None) }
        ensures others { OnOk result ((n : ℕ) → nat_eq conn n ≡ false → reader_among self.new n ≡ reader_among self.old n) }
        ensures few { IfOk result (λ brought. 9 * length brought.frames ≤ length piece.now + 16392) }
        ensures fit { IfOk result (λ brought. All Fits brought.frames) }
    {
        let reader = take_reader(self.alloc, &mut self.readers, conn);
        drop_reader(&mut self.readers, conn);
        match reader.feed(piece)? {
            Fed::Going { reader, frames } => {
                self.readers.push(ReaderOf { conn, reader })?;
                Ok(Brought {
                    frames,
                    too_large: None,
                })
            }
            Fed::TooLarge { frames, length } => {
                let too_large = Some(length);
                Ok(Brought { frames, too_large })
            }
        }
    }

    /// Drops the reader of a connection, with what it holds. It takes no memory.
    pub fn forget(&mut self, conn: u64)
        ensures { self.new ≡ other_readers self.old conn }
    {
        drop_reader(&mut self.readers, conn);
    }

    /// How many octets are in the buffer of a connection's reader, at most 16,392; 0 where it has none. It takes no
    /// memory.
    pub fn held(&self, conn: u64) -> u32
        ensures buffer { result ≡ length (held_of (reader_among self.now conn)) }
        ensures at_most { result ≤ 16392 }
    {
        match reader_among(self.readers.as_slice(), conn) {
            Some(one) => one.reader.held(),
            None => 0,
        }
    }
}

// The first reader of a connection.
fn reader_among(readers: &[ReaderOf], conn: u64) -> Option<&ReaderOf>
    ensures { option_copied result ≡ reader_among readers.now conn }
{
    readers.iter().find(|one| one.conn == conn)
}

// Its place.
fn place_of(readers: &[ReaderOf], conn: u64) -> Option<usize>
    ensures { result ≡ position_from (is_of conn) 0 readers.now }
{
    readers.iter().position(|one| one.conn == conn)
}

fn drop_reader(readers: &mut Vec<ReaderOf>, conn: u64)
    ensures { readers.new.items ≡ other_readers readers.old.items conn }
{
    readers.retain(|one| one.conn != conn);
}

// Takes the first reader of a connection out of the table, or makes a new one where there is none.
fn take_reader(alloc: Global, readers: &mut Vec<ReaderOf>, conn: u64) -> FrameReader
    ensures held { buffer_of result ≡ held_of (reader_among readers.old.items conn) }
    ensures skipped { result.skipped ≡ skipped_of (reader_among readers.old.items conn) }
    ensures left { other_readers readers.new.items conn ≡ other_readers readers.old.items conn }
{
    match place_of(readers.as_slice(), conn) {
        None => FrameReader::new(alloc),
        Some(place) => readers.remove(place).reader,
    }
}
