ghost use Rattle.std.specs.Prelude.{◌≡◌, map, option_map};
ghost use Rattle.std.specs.Char.{to_ascii_lowercase};
ghost use Rattle.std.specs.List.{list_any};
ghost use Rattle.std.specs.Str.{bytes_eq, chars};
ghost use Rattle.perm_model.specs.Addresses.{allows_maybe, allows_address, is_secure, path_fits};
ghost use Rattle.perm_model.specs.Addresses.{path_of, authority_fits, authority_of, host_fits};
ghost use Rattle.perm_model.specs.Addresses.{behind_star, from_dot, text_or_nothing};
ghost use Rattle.perm_model.specs.Texts.{is_nothing, ends_behind_some, ends_of};
ghost use Rattle.perm_match.specs.Pieces.{joined};

use crate::fitting::fits;
use crate::pieces::{Pieces, is_end, next, one_piece};
use gtm_base::{Address, Text};
use itoa::Buffer;
use perm_model::AddressPattern;

pub(crate) fn allows_address(pattern: &AddressPattern, address: &Option<Address>) -> bool
    ensures { result ≡ allows_maybe pattern.now address.now }
{
    match address {
        Some(address) => allows_well_formed(pattern, address),
        None => false,
    }
}

fn allows_well_formed(pattern: &AddressPattern, address: &Address) -> bool
    ensures { result ≡ allows_address pattern.now address.now }
{
    match pattern {
        AddressPattern::Any => is_secure(address),
        AddressPattern::Pattern { authority, path } => {
            is_secure(address)
                && is_nothing(&address.password)
                && authority_fits(authority, address)
                && path_fits(path, address)
        },
    }
}

fn is_secure(address: &Address) -> bool
    ensures { result ≡ is_secure address.now }
{
    address.scheme.is_word("https") && is_nothing(&address.username)
}

fn is_nothing(text: &Text) -> bool
    ensures { result ≡ is_nothing text.now }
{
    is_end(one_piece(text.as_str()))
}

fn path_fits(pattern: &Option<Text>, address: &Address) -> bool
    ensures { result ≡ path_fits pattern.now (path_of address.now) }
{
    match pattern {
        Some(pattern) => fits(one_piece(pattern.as_str()), path_of(address)),
        None => true,
    }
}

fn path_of(address: &Address) -> Pieces
    ensures { joined result ≡ path_of address.now }
{
    match &address.query {
        Some(query) => Pieces {
            first: address.path.as_str(),
            second: "?",
            third: query.as_str(),
        },
        None => one_piece(address.path.as_str()),
    }
}

fn authority_fits(pattern: &Text, address: &Address) -> bool
    ensures { result ≡ authority_fits pattern.now (authority_of address.now) }
{
    let host = text_or_nothing(&address.host);
    match address.port {
        Some(port) => {
            let mut digits = Buffer::new();
            let authority = Pieces {
                first: host,
                second: ":",
                third: digits.format(port),
            };
            fits_authority(pattern, authority)
        },
        None => fits_authority(pattern, one_piece(host)),
    }
}

fn text_or_nothing(text: &Option<Text>) -> &str
    ensures { chars result.now ≡ text_or_nothing text.now }
{
    match text {
        Some(text) => text.as_str(),
        None => "",
    }
}

fn fits_authority(pattern: &Text, authority: Pieces) -> bool
    ensures { result ≡ authority_fits pattern.now (joined authority.entry) }
{
    if pattern.is_word("*") {
        return true;
    }
    let pattern = one_piece(pattern.as_str());
    match behind_star(pattern) {
        Some(end) => ends_behind_some(end, authority),
        None => is_lowered(pattern, authority),
    }
}

// The `.host` of the pattern `*.host`.
fn behind_star(pattern: Pieces) -> Option<Pieces>
    ensures { option_map joined result ≡ behind_star (joined pattern.entry) }
{
    let (star, rest) = next(pattern)?;
    if star == '*' { from_dot(rest) } else { None }
}

// The text itself, where a dot stands first.
fn from_dot(text: Pieces) -> Option<Pieces>
    ensures { option_map joined result ≡ from_dot (joined text.entry) }
{
    let (dot, _) = next(text)?;
    if dot == '.' { Some(text) } else { None }
}

// Whether a text ends in these characters, with something before them.
fn ends_behind_some(end: Pieces, text: Pieces) -> bool
    ensures { result ≡ ends_behind_some (joined end.entry) (joined text.entry) }
{
    match next(text) {
        Some((_, rest)) => is_an_end(end, rest),
        None => is_same(end, text),
    }
}

fn is_an_end(end: Pieces, text: Pieces) -> bool
    ensures { result ≡ list_any (bytes_eq (joined end.entry)) (ends_of (joined text.entry)) }
{
    let mut here = text;
    'ends: loop {
        if is_same(end, here) {
            return true;
        }
        match next(here) {
            Some((_, rest)) => here = rest,
            None => return false,
        }
    }
}

fn is_same(some: Pieces, other: Pieces) -> bool
    ensures { result ≡ bytes_eq (joined some.entry) (joined other.entry) }
{
    let mut left = some;
    let mut right = other;
    while let Some((c, rest)) = next(left) {
        match next(right) {
            Some((d, behind)) => {
                if c != d {
                    return false;
                }
                left = rest;
                right = behind;
            },
            None => return false,
        }
    }
    is_end(right)
}

// Whether a text is the pattern with its ASCII letters lower-cased.
fn is_lowered(pattern: Pieces, text: Pieces) -> bool
    ensures { result ≡ bytes_eq (map to_ascii_lowercase (joined pattern.entry))
        (joined text.entry) }
{
    let mut left = pattern;
    let mut right = text;
    while let Some((c, rest)) = next(left) {
        match next(right) {
            Some((d, behind)) => {
                if c.to_ascii_lowercase() != d {
                    return false;
                }
                left = rest;
                right = behind;
            },
            None => return false,
        }
    }
    is_end(right)
}
