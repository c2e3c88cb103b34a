ghost use Rattle.std.specs.Prelude.{◌≡◌, ◌≤◌, ◌<◌, ◌^◌, ◌+◌, length, drop, IfOk, IfSome};
ghost use Rattle.std.specs.Result.{result_ok};
ghost use Rattle.std.specs.Cmp.{partial_equiv_from_equiv};
ghost use Rattle.std.specs.Cmp.Lexicographic.{lists_equiv, nat_list_eq_equiv, bytes_decides};
ghost use Rattle.std.specs.Hash.{items_Alike, same_Alike};
ghost use Rattle.std.specs.Hash as fed;
ghost use Rattle.alt_base.specs.Answers.{Answers, IfRefused};
ghost use Rattle.dns_names.specs.Names.{name_eq, wire_form, IsName};
ghost use Rattle.dns_names.specs.TextGrammar.{SpellsText, TextRefusedAt};
ghost use Rattle.dns_names.specs.TextParts.{text_form};
ghost use Rattle.dns_names.specs.TextReading.{read_text};
ghost use Rattle.dns_names.specs.WireGrammar.{SpellsUpTo, WireRefusedAt};
ghost use Rattle.dns_names.specs.WireReading.{read_wire};

use crate::{NameRefusal, text, text_writer, wire};
use alt_base::{Bytes, Duplicate, ListOf, NoMemory, Refused, Text};
use std::alloc::Global;
use std::hash::{Hash, Hasher};
use std::marker::Model;

/// A text that spells a name has at most four bytes for each of 254 octets.
const MOST_TEXT: usize = 1016;

/// A name of the domain name system: labels of 1 to 63 bytes, without upper-case ASCII letters, at most 255 octets on
/// the wire. To a contract it is the list of its labels, each a list of bytes; the root has none.
#[derive(Debug, Drop)]
pub struct Name {
    labels: ListOf<Bytes>,
}

impl Model for Name {
    ghost use Rattle.std.specs.Prelude.{List, ℕ};
    ghost use Rattle.dns_names.specs.Names.{IsName};

    ghost Value = { List (List ℕ) };

    ghost view = { λ name. name.labels };

    ghost invariant = { λ name. IsName name.labels };
}

impl Name {
    /// The labels, from the first to the last.
    pub fn labels(&self) -> &[Bytes]
        ensures labels { result.now ≡ self.now }
        ensures name { IsName self.now }
    {
        self.labels.as_slice()
    }

    /// The name at a place of some octets (RFC 1035 3.1), its letters in lower case, and the place after it. The place
    /// is at most the length, which is below 2^32; places of refusals count from the front of the octets.
    ///
    /// From left to right: `Short` at the length where the octets end first; at a length octet `Compressed` from 192,
    /// `LabelTooLong` from 64, `NameTooLong` where the name with this label and the final 0 would pass 255 octets; at
    /// one octet in that order, and then `Short` for a label that is cut off.
    pub fn from_wire(
        alloc: Global,
        input: &[u8],
        place: u32,
    ) -> Result<(Name, u32), Refused<NameRefusal>>
        requires within { place ≤ length input.now }
        requires small { length input.now < 2 ^ 32 }
        ensures reading { Answers result (read_wire place (drop place input.now)) }
        ensures spelled { IfOk result (λ answer. SpellsUpTo place (drop place input.now) answer.0 answer.1) }
        ensures refused { IfRefused result (WireRefusedAt place (drop place input.now)) }
        ensures name { IfOk result (λ answer. IsName answer.0) }
        ensures after { IfOk result (λ answer. (place < answer.1) × (answer.1 ≤ length input.now)) }
        ensures refused_within { IfRefused result (λ at reason. at ≤ length input.now) }
    {
        let (labels, end) = wire::read_labels(alloc, &input[place as usize..], place)?;
        Ok((Name { labels }, end))
    }

    /// The wire form (RFC 1035 3.1), without compression.
    pub fn to_wire(&self, alloc: Global) -> Result<Bytes, NoMemory>
        ensures written { IfOk result (λ octets. octets ≡ wire_form self.now) }
        ensures sized { IfOk result (λ octets. length octets ≤ 255) }
        ensures read_back { IfOk result (λ octets. read_wire 0 octets ≡ Ok (self.now, length octets)) }
        ensures name { IsName self.now }
    {
        Ok(ListOf::from_vec(wire::write_labels(alloc, self.labels.as_slice())?))
    }

    /// The name that a whole text spells (RFC 1035 5.1), its letters in lower case: a dot alone is the root, else labels
    /// joined by dots, with a final dot or without. The text has fewer than 2^32 bytes.
    ///
    /// From left to right: `BadEscape` at a backslash that neither three digits of a byte's value follow nor a byte 0x21
    /// to 0x7E that is no digit; `BadByte` at a raw byte outside 0x21 to 0x7E; at the end of a label `EmptyLabel`,
    /// `LabelTooLong` or `NameTooLong`, in that order, at the place of the label's first byte. The empty text is
    /// `EmptyLabel` at 0.
    pub fn from_text(alloc: Global, text: &[u8]) -> Result<Name, Refused<NameRefusal>>
        requires { length text.now < 2 ^ 32 }
        ensures reading { Answers result (read_text text.now) }
        ensures spelled { IfOk result (SpellsText text.now) }
        ensures refused { IfRefused result (TextRefusedAt text.now) }
        ensures name { IfOk result IsName }
        ensures refused_within { IfRefused result (λ at reason. at ≤ length text.now) }
    {
        let labels = text::read_labels(alloc, text)?;
        Ok(Name { labels })
    }

    /// The name that a whole text spells (RFC 1035 5.1), whatever its length; None exactly where it spells none.
    #[tactic(auto, using(crate::proofs::Bounds::none_longer))]
    pub fn spelled_by(alloc: Global, text: &[u8]) -> Result<Option<Name>, NoMemory>
        ensures reading { IfOk result (λ name. name ≡ result_ok (read_text text.now)) }
        ensures name { IfOk result (λ name. IfSome name IsName) }
    {
        if text.len() > MOST_TEXT {
            return Ok(None);
        }
        match Name::from_text(alloc, text) {
            Ok(name) => Ok(Some(name)),
            Err(Refused::NoMemory) => Err(NoMemory),
            Err(Refused::At { .. }) => Ok(None),
        }
    }

    /// The text with its final dot (RFC 1035 5.1): shown bytes stand raw, the special ones behind a backslash, all others
    /// as a backslash and three digits.
    pub fn to_text(&self, alloc: Global) -> Result<Text, NoMemory>
        ensures written { IfOk result (λ text. text ≡ text_form self.now) }
        ensures sized { IfOk result (λ text. length text ≤ 1016) }
        ensures read_back { IfOk result (λ text. read_text text ≡ Ok self.now) }
        ensures name { IsName self.now }
    {
        Ok(ListOf::from_vec(text_writer::write_labels(alloc, self.labels.as_slice())?))
    }
}

impl PartialEq for Name {
    ghost eq = { name_eq };

    ghost laws = { partial_equiv_from_equiv (lists_equiv nat_list_eq_equiv) };

    fn eq(&self, other: &Self) -> bool {
        self.labels == other.labels
    }
}

impl Eq for Name {
    ghost laws = { lists_equiv nat_list_eq_equiv };
}

impl Hash for Name {
    ghost hash_input = { fed.slice (fed.slice fed.u8) };

    ghost respects_eq = { (items_Alike (same_Alike (fed.slice fed.u8) bytes_decides)).fed };

    fn hash<H: Hasher>(&self, state: &mut H) {
        self.labels.hash(state);
    }
}

impl Duplicate for Name {
    fn copy(&self, alloc: Global) -> Result<Self, NoMemory> {
        Ok(Name {
            labels: self.labels.copy(alloc)?,
        })
    }
}
