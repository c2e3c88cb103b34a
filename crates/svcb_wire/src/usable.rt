ghost use Rattle.std.specs.Prelude.{◌≡◌, ◌≤◌, length, take, ◌&&◌, ◌||◌, not, nat_eq, codes};
ghost use Rattle.std.specs.List.{list_any, list_all};
ghost use Rattle.std.specs.Cmp.Lexicographic.{pointwise};
ghost use Rattle.svcb_wire.specs.Octets.{key_of};
ghost use Rattle.svcb_wire.specs.Usable.{has_key, stands_among, is_consistent, names_id, has_id, protos_of, is_some_proto, is_known_key, is_usable, is_compatible};

use crate::{Param, Svcb, param_key};
use alt_base::Bytes;
use origin_values::Protos;

fn has_key(params: &[Param], key: u16) -> bool
    ensures { result ≡ has_key key params.now }
{
    params.iter().any(|param| param_key(param) == key)
}

// How many parameters at the front have keys below this one.
fn below(params: &[Param], key: u16) -> usize
    ensures { result ≤ length params.now }
{
    for (i, param) in params.iter().enumerate() {
        if param_key(param) >= key {
            return i;
        }
    }
    params.len()
}

// Whether the first of these parameters has this key.
fn begins_with(params: &[Param], key: u16) -> bool
    ensures { result ≡ has_key key (take 1 params.now) }
{
    match params.first() {
        Some(param) => param_key(param) == key,
        None => false,
    }
}

// Whether each of these keys is present. Where the parameters and the keys both rise, as in each record that was read, it
// goes through either list once; only the first key that isn't found that way is sought among all parameters.
fn all_present(params: &[Param], keys: &[u16]) -> bool
    ensures { result ≡ list_all (λ key. has_key key params.now) keys.now }
{
    let mut at = 0;
    for key in keys {
        at += below(&params[at..], *key);
        if !begins_with(&params[at..], *key) && !has_key(params, *key) {
            return false;
        }
    }
    true
}

// Whether the other parameters have what this one needs.
fn stands_among(params: &[Param], param: &Param) -> bool
    ensures { result ≡ stands_among params.now param.now }
{
    match param {
        Param::Mandatory(keys) => all_present(params, keys.as_slice()),
        Param::NoDefaultAlpn => has_key(params, 1),
        _ => true,
    }
}

fn all_stand(params: &[Param]) -> bool
    ensures { result ≡ list_all (stands_among params.now) params.now }
{
    params.iter().all(|param| stands_among(params, param))
}

/// Whether each key that mandatory lists is present (RFC 9460 8), and no-default-alpn stands only beside alpn (RFC 9460
/// 7.1.1). It takes no memory, and where the keys rise, as [`crate::parse`] gives them, one pass over each list.
pub fn consistent(value: &Svcb) -> bool
    ensures { result ≡ is_consistent value.now }
{
    all_stand(value.params.as_slice())
}

fn is_id(one: &Bytes, id: &[u8]) -> bool
    ensures { result ≡ pointwise nat_eq one.now id.now }
{
    one.as_slice() == id
}

fn lists_id(ids: &[Bytes], id: &[u8]) -> bool
    ensures { result ≡ list_any (λ one. pointwise nat_eq one id.now) ids.now }
{
    ids.iter().any(|one| is_id(one, id))
}

fn names_id(param: &Param, id: &[u8]) -> bool
    ensures { result ≡ names_id id.now param.now }
{
    match param {
        Param::Alpn(ids) => lists_id(ids.as_slice(), id),
        _ => false,
    }
}

fn has_id(params: &[Param], id: &[u8]) -> bool
    ensures { result ≡ has_id id.now params.now }
{
    params.iter().any(|param| names_id(param, id))
}

/// The protocols of an endpoint with these parameters (RFC 9460 7.1.2): the supported ones among the protocol ids, and
/// HTTP/1.1 unless no-default-alpn stands. It takes no memory.
pub fn protocols(params: &[Param], supported: &Protos) -> Protos
    ensures { result ≡ protos_of supported.now params.now }
{
    let h2 = has_id(params, b"h2");
    let h3 = has_id(params, b"h3");
    let http11 = has_id(params, b"http/1.1");
    let without_default = has_key(params, 2);
    Protos {
        h2: supported.h2 && h2,
        h3: supported.h3 && h3,
        http11: (supported.http11 && http11) || !without_default,
    }
}

fn is_known_key(key: u16) -> bool
    ensures { result ≡ is_known_key key }
{
    key == 1 || key == 2 || key == 3 || key == 4 || key == 6
}

fn all_known(keys: &[u16]) -> bool
    ensures { result ≡ list_all is_known_key keys.now }
{
    keys.iter().all(|key| is_known_key(*key))
}

fn is_usable(param: &Param) -> bool
    ensures { result ≡ is_usable param.now }
{
    match param {
        Param::Mandatory(keys) => all_known(keys.as_slice()),
        Param::Port(port) => *port != 0,
        _ => true,
    }
}

fn all_usable(params: &[Param]) -> bool
    ensures { result ≡ list_all is_usable params.now }
{
    params.iter().all(|param| is_usable(param))
}

/// Whether mandatory lists no keys but 1, 2, 3, 4 and 6 (RFC 9460 8), the port isn't 0, and the protocols that
/// [`protocols`] answers aren't none. It takes no memory.
pub fn compatible(value: &Svcb, supported: &Protos) -> bool
    ensures { result ≡ is_compatible supported.now value.now }
{
    let params = value.params.as_slice();
    let protos = protocols(params, supported);
    let some = protos.h2 || protos.h3 || protos.http11;
    all_usable(params) && some
}
