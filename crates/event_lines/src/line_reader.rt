ghost use Rattle.std.specs.Prelude.{◌≡◌, ◌≤◌, ◌<◌, ◌^◌, length};
ghost use Rattle.event_lines.specs.Parts.{before_space, first_word, behind_word, next_word, field};
ghost use Rattle.event_lines.specs.Fields.{number_of, port_of, proto_of, origin_of, names_of, octets_of, dns_name_of, answer_kind_of};
ghost use Rattle.event_lines.specs.AnswerReading.{items_reading};
ghost use Rattle.event_lines.specs.Limits.{most_short, most_long, most_ttl};
ghost use Rattle.event_lines.specs.LineReading.{moment_reading, end_reading};
ghost use Rattle.event_lines.specs.Reads.{Reads, MayRead};
ghost use Rattle.event_lines.specs.ResponseGrammar.{is_word_byte};
ghost use Rattle.event_lines.specs.ResponseReading.{short_word, behind_short_word, next_short_word, status_reading, reply_reading};
ghost use Rattle.event_lines.specs.ServerReading.{alts_reading};
ghost use Rattle.field_text.specs.Runs.{run_of};
ghost use Rattle.origin_values.specs.HostReading.{read_addr};

use crate::LineRefusal;
use crate::answer_items::read_items;
use crate::answer_kind::AnswerKind;
use crate::fields::{
    alts_of, answer_kind_of, dns_name_of, names_of, octets_of, origin_of, port_of, proto_of,
    status_of,
};
use crate::number::number_of;
use crate::part::Part;
use crate::response::{Reply, read_fields};
use alt_base::{At, Bytes, Refused};
use altsvc_grammar::Alts;
use coalescing::CertNames;
use dns_names::Name;
use origin_values::{Addr, Origin, Proto};
use route_events::AnswerBody;
use std::alloc::Global;
use std::marker::Model;

/// The greatest moment, and the greatest number of a request.
const MOST_SHORT: u64 = 4_294_967_295;
/// The greatest number of an attempt or a connection.
const MOST_LONG: u64 = 18_446_744_073_709_551_615;
/// The greatest TTL (RFC 2181 8).
const MOST_TTL: u64 = 2_147_483_647;

/// Reads a line from left to right. To a contract it is what is left of the line, and the place where that begins.
#[derive(Drop)]
pub(crate) struct LineReader<'a> {
    rest: &'a [u8],
    place: u32,
}

impl<'a> Model for LineReader<'a> {
    ghost use Rattle.std.specs.Prelude.{◌+◌, ◌<◌, ◌^◌, length};
    ghost use Rattle.event_lines.specs.Parts.{Part};

    ghost Value = { Part };

    ghost view = { λ reader. record { text = reader.rest.now; place = reader.place } };

    ghost invariant = { λ reader. reader.place + length reader.rest.now < 2 ^ 32 };
}

impl<'a> LineReader<'a> {
    pub(crate) fn new(line: &'a [u8]) -> LineReader<'a>
        requires { length line.now < 2 ^ 32 }
        ensures { result ≡ record { text = line.now; place = 0 } }
    {
        LineReader {
            rest: line,
            place: 0,
        }
    }

    // The word in front: what stands before the first space or the end.
    fn first_word(&mut self) -> Part<'a>
        ensures word { result ≡ first_word self.old }
        ensures behind { self.new ≡ behind_word self.old }
    {
        let place = self.place;
        let count = word_length(self.rest);
        let text = &self.rest[..count];
        self.rest = &self.rest[count..];
        self.place += count as u32;
        Part { text, place }
    }

    // The next word, behind a space. Where none is left, it is refused for this reason, at the line's length.
    pub(crate) fn next_word(&mut self, missing: LineRefusal) -> Result<Part<'a>, At<LineRefusal>>
        ensures { Reads result self.new (next_word missing self.old) }
    {
        match self.rest {
            [] => Err(At {
                place: self.place,
                reason: missing,
            }),
            [_, text @ ..] => {
                self.rest = text;
                self.place += 1;
                Ok(self.first_word())
            }
        }
    }

    // The moment in front.
    pub(crate) fn moment(&mut self) -> Result<u32, At<LineRefusal>>
        ensures { Reads result self.new (moment_reading self.old) }
    {
        let word = self.first_word();
        match number_of(word.text, MOST_SHORT) {
            Some(moment) => Ok(moment as u32),
            None => Err(At {
                place: word.place,
                reason: LineRefusal::BadMoment,
            }),
        }
    }

    // A number of 32 bits.
    pub(crate) fn short_number(&mut self) -> Result<u32, At<LineRefusal>>
        ensures { Reads result self.new (field (number_of most_short) self.old) }
    {
        let word = self.next_word(LineRefusal::BadField)?;
        match number_of(word.text, MOST_SHORT) {
            Some(number) => Ok(number as u32),
            None => Err(bad_field(word.place)),
        }
    }

    // A number of 64 bits.
    pub(crate) fn long_number(&mut self) -> Result<u64, At<LineRefusal>>
        ensures { Reads result self.new (field (number_of most_long) self.old) }
    {
        let word = self.next_word(LineRefusal::BadField)?;
        number_of(word.text, MOST_LONG).ok_or(bad_field(word.place))
    }

    pub(crate) fn port(&mut self) -> Result<u16, At<LineRefusal>>
        ensures { Reads result self.new (field port_of self.old) }
    {
        let word = self.next_word(LineRefusal::BadField)?;
        port_of(word.text).ok_or(bad_field(word.place))
    }

    pub(crate) fn proto(&mut self) -> Result<Proto, At<LineRefusal>>
        ensures { Reads result self.new (field proto_of self.old) }
    {
        let word = self.next_word(LineRefusal::BadField)?;
        proto_of(word.text).ok_or(bad_field(word.place))
    }

    pub(crate) fn addr(&mut self) -> Result<Addr, At<LineRefusal>>
        ensures { Reads result self.new (field read_addr self.old) }
    {
        let word = self.next_word(LineRefusal::BadField)?;
        Addr::parse(word.text).ok_or(bad_field(word.place))
    }

    pub(crate) fn origin(&mut self, alloc: Global) -> Result<Origin, Refused<LineRefusal>>
        ensures { MayRead result self.new (field origin_of self.old) }
    {
        let word = self.next_word(LineRefusal::BadField)?;
        match origin_of(alloc, word.text)? {
            Some(origin) => Ok(origin),
            None => Err(Refused::from(bad_field(word.place))),
        }
    }

    pub(crate) fn names(&mut self, alloc: Global) -> Result<CertNames, Refused<LineRefusal>>
        ensures { MayRead result self.new (field names_of self.old) }
    {
        let word = self.next_word(LineRefusal::BadField)?;
        match names_of(alloc, word.text)? {
            Some(names) => Ok(names),
            None => Err(Refused::from(bad_field(word.place))),
        }
    }

    // Octets in hex.
    pub(crate) fn octets(&mut self, alloc: Global) -> Result<Bytes, Refused<LineRefusal>>
        ensures { MayRead result self.new (field octets_of self.old) }
    {
        let word = self.next_word(LineRefusal::BadField)?;
        match octets_of(alloc, word.text)? {
            Some(octets) => Ok(octets),
            None => Err(Refused::from(bad_field(word.place))),
        }
    }

    // A name of DNS.
    pub(crate) fn dns_name(&mut self, alloc: Global) -> Result<Name, Refused<LineRefusal>>
        ensures { MayRead result self.new (field dns_name_of self.old) }
    {
        let word = self.next_word(LineRefusal::BadField)?;
        match dns_name_of(alloc, word.text)? {
            Some(name) => Ok(name),
            None => Err(Refused::from(bad_field(word.place))),
        }
    }

    pub(crate) fn answer_kind(&mut self) -> Result<AnswerKind, At<LineRefusal>>
        ensures { Reads result self.new (field answer_kind_of self.old) }
    {
        let word = self.next_word(LineRefusal::BadField)?;
        answer_kind_of(word.text).ok_or(bad_field(word.place))
    }

    // The TTL of an answer.
    pub(crate) fn ttl(&mut self) -> Result<u32, At<LineRefusal>>
        ensures { Reads result self.new (field (number_of most_ttl) self.old) }
    {
        let word = self.next_word(LineRefusal::BadField)?;
        match number_of(word.text, MOST_TTL) {
            Some(number) => Ok(number as u32),
            None => Err(bad_field(word.place)),
        }
    }

    // What an answer of a kind brings: all words that are left.
    pub(crate) fn items(
        &mut self,
        alloc: Global,
        kind: AnswerKind,
    ) -> Result<AnswerBody, Refused<LineRefusal>>
        ensures { MayRead result self.new (items_reading kind self.old) }
    {
        let text = self.rest;
        let place = self.place;
        self.rest = &text[text.len()..];
        self.place += text.len() as u32;
        read_items(alloc, kind, text, place)
    }

    // Alternatives: a value of Alt-Svc other than `clear`, which is all that is left behind a space.
    pub(crate) fn alts(&mut self, alloc: Global) -> Result<Alts, Refused<LineRefusal>>
        ensures { MayRead result self.new (alts_reading self.old) }
    {
        match self.rest {
            [] => Err(Refused::from(bad_field(self.place))),
            [_, text @ ..] => {
                let place = self.place + 1;
                self.rest = &text[text.len()..];
                self.place += 1 + text.len() as u32;
                match alts_of(alloc, text)? {
                    Some(alts) => Ok(alts),
                    None => Err(Refused::from(bad_field(place))),
                }
            }
        }
    }

    // The word in front: what stands before the first space or tab, or the end.
    fn short_word(&mut self) -> Part<'a>
        ensures word { result ≡ short_word self.old }
        ensures behind { self.new ≡ behind_short_word self.old }
    {
        let place = self.place;
        let count = short_word_length(self.rest);
        let text = &self.rest[..count];
        self.rest = &self.rest[count..];
        self.place += count as u32;
        Part { text, place }
    }

    // The next word, behind a space, up to a space, a tab or the end.
    fn next_short_word(&mut self) -> Result<Part<'a>, At<LineRefusal>>
        ensures { Reads result self.new (next_short_word self.old) }
    {
        match self.rest {
            [] => Err(bad_field(self.place)),
            [_, text @ ..] => {
                self.rest = text;
                self.place += 1;
                Ok(self.short_word())
            }
        }
    }

    // The status of a response.
    pub(crate) fn status(&mut self) -> Result<u16, At<LineRefusal>>
        ensures { Reads result self.new (status_reading self.old) }
    {
        let word = self.next_short_word()?;
        status_of(word.text).ok_or(bad_field(word.place))
    }

    // What the fields of a response say, if what is left begins with a tab.
    pub(crate) fn reply(&mut self, alloc: Global) -> Result<Reply, Refused<LineRefusal>>
        ensures { MayRead result self.new (reply_reading self.old) }
    {
        match self.rest {
            [b'\t', text @ ..] => {
                let place = self.place + 1;
                self.rest = &text[text.len()..];
                self.place += 1 + text.len() as u32;
                read_fields(alloc, text, place)
            }
            _ => Ok(Reply::empty()),
        }
    }

    // Nothing is left.
    pub(crate) fn end(&self) -> Result<(), At<LineRefusal>>
        ensures { result ≡ end_reading self.now }
    {
        if self.rest.is_empty() {
            Ok(())
        } else {
            Err(At {
                place: self.place + 1,
                reason: LineRefusal::ExtraField,
            })
        }
    }
}

pub(crate) fn bad_field(place: u32) -> At<LineRefusal>
    ensures { result ≡ record { place = place; reason = LineRefusal.BadField } }
{
    At {
        place,
        reason: LineRefusal::BadField,
    }
}

// How many bytes stand before the first space, or the end.
pub(crate) fn word_length(text: &[u8]) -> usize
    ensures value { result ≡ length (before_space text.now) }
    ensures within { result ≤ length text.now }
{
    for (i, b) in text.iter().enumerate() {
        if *b == b' ' {
            return i;
        }
    }
    text.len()
}

// How many bytes stand before the first space or tab, or the end.
fn short_word_length(text: &[u8]) -> usize
    ensures value { result ≡ length (run_of is_word_byte text.now) }
    ensures within { result ≤ length text.now }
{
    for (i, b) in text.iter().enumerate() {
        if *b == b' ' || *b == b'\t' {
            return i;
        }
    }
    text.len()
}
