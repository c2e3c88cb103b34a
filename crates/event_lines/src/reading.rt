ghost use Rattle.std.specs.Prelude.{◌≡◌, ◌≤◌, length, IfOk};
ghost use Rattle.event_lines.specs.LineReading.{is_skipped, line_reading};
ghost use Rattle.event_lines.specs.Reads.{IsRead};
ghost use Rattle.event_lines.specs.Valid.{IsEvent, IsShort};

use crate::kinds::read_kind;
use crate::line_reader::LineReader;
use crate::{Event, LineRefusal};
use alt_base::{Moment, Refused};
use std::alloc::Global;

/// The moment and the event that a line says, without its newline. An empty line and one that begins with `#` are
/// skipped, at the moment 0. Else the line is a moment, a kind and the kind's fields, with one space before each but
/// the first:
///
/// - `request Q ORIGIN`: request Q arrives for an origin;
/// - `opened A PROTO ADDR PORT NAMES`: attempt A ended with a connection, of protocol `h2`, `h3`, `http/1.1` or `other`,
///   to an address without brackets and a port, with a certificate of these names, `-` for none;
/// - `failed A`: attempt A ended without a connection;
/// - `closed C`: connection C ended;
/// - `response Q STATUS`: the final response to request Q came, with a status of three digits from 200 to 599.
///   At most 64 of its fields follow, each behind one tab: a name, a colon, and a value of the bytes 20 to 7E and 80 to FF,
///   whose spaces at both ends are dropped (RFC 9110 5). The seconds of the first Age field (RFC 9111 5.1) and the values
///   of the Alt-Svc fields (RFC 7838 3), joined by a comma and a space, are kept, and no other field;
/// - `input C HEX`: octets of the server came on connection C, two hex digits of either case for each, at least one octet;
/// - `answer NAME a TTL`, `answer NAME aaaa TTL` or `answer NAME https TTL`: a DNS answer came for a name, and is in force for
///   so many seconds, at most 2^31 - 1. Behind it stands what it brings, each behind one space: addresses of IPv4, addresses of
///   IPv6, or the octets of HTTPS records, two hex digits for each, at least one octet;
/// - `network`: the network changed;
/// - `tick`: nothing but that time has come so far;
/// - `who ORIGIN`: which connections are authoritative for an origin is asked;
/// - `stats`: how much of each there is, is asked;
/// - `serve ORIGIN`: the server serves an origin from now on;
/// - `unserve ORIGIN`: it doesn't any more;
/// - `offer ORIGIN VALUE`: alternatives are advertised for an origin. VALUE is all that is left of the line, a value of Alt-Svc
///   (RFC 7838 3) other than `clear`;
/// - `withdraw ORIGIN`: all alternatives of an origin are taken back;
/// - `announce`: the served origins are announced (RFC 8336);
/// - `deliver N C`: message N of the server reaches connection C;
/// - `ask Q`: the server answers request Q.
///
/// A number has no leading zero. Moments and numbers of requests and messages have 32 bits, those of attempts and connections 64. No
/// line says that a frame came whole: the rules make it of octets, of which a line has at most 65,536, as has each record.
///
/// Refused, with the fields tried from left to right: `BadMoment` at 0 where what stands before the first space is no
/// moment; `UnknownKind` at the kind, or at the length where it is missing; `BadField` at the first field that isn't of
/// its form, or at the length where it is missing, and at the 65th field of a response; `ExtraField` behind the space that
/// follows the last field, or the status of a response. What an answer brings ends at the line's end, so that a space there is
/// `BadField` at the length. A VALUE that is none, or `clear`, is `BadField` at its first byte, whatever is wrong in it, and
/// nothing can follow it.
pub fn read_line(alloc: Global, line: &[u8]) -> Result<(Moment, Event), Refused<LineRefusal>>
    requires { length line.now ≤ 65536 }
    ensures reading { IsRead result (line_reading line.now) }
    ensures valid { IfOk result (λ read. IsEvent read.0.0 read.1) }
    ensures short { IfOk result (λ read. IsShort read.1) }
{
    if is_skipped(line) {
        return Ok((Moment(0), Event::Skip));
    }
    let mut reader = LineReader::new(line);
    let moment = reader.moment()?;
    let kind = reader.next_word(LineRefusal::UnknownKind)?;
    let event = read_kind(alloc, &kind, &mut reader)?;
    reader.end()?;
    Ok((Moment(moment), event))
}

// Whether a line is empty or begins with `#`.
fn is_skipped(line: &[u8]) -> bool
    ensures { result ≡ is_skipped line.now }
{
    match line {
        [] => true,
        [first, ..] => *first == b'#',
    }
}
