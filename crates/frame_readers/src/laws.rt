ghost use Rattle.std.specs.Prelude.{◌≡◌, [], ℕ, List, false, nat_eq};
ghost use Rattle.frame_readers.specs.declared.readers.ReaderOf.{ReaderOf};
ghost use Rattle.frame_readers.specs.Readers.{reader_among, other_readers, Reads};

/// A table without readers reads the empty stream of every connection, and so does one that forgot a connection, of
/// that connection; of any other it leaves what there was.
pub fn fresh_readers_stand()
    ensures fresh { (conn : ℕ) → Reads [] conn [] }
    ensures forgotten { (rs : List ReaderOf) (conn : ℕ) → Reads (other_readers rs conn) conn [] }
    ensures others { (rs : List ReaderOf) (conn n : ℕ) → nat_eq conn n ≡ false → reader_among (other_readers rs conn) n ≡ reader_among rs n }
{}
