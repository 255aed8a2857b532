ghost use Rattle.std.specs.Prelude.{◌≡◌, [], IfOk, encode_utf8_all, unwrap_or};
ghost use Rattle.std.specs.Str.{chars};
ghost use Rattle.address_parts.specs.Parts.{extension_of, fragment_of, host_of, path_of, port_of};
ghost use Rattle.address_parts.specs.Parts.{implied_port, last_segment, protocol_of, query_of};
ghost use Rattle.address_parts.specs.Parts.{without_www};
ghost use Rattle.address_parts.specs.Parts as spec;

use crate::fronts::{before, behind_front, behind_last};
use gtm_base::{Address, OutOfMemory, Text};
use std::alloc::Global;

/// A copy of the url up to its first `#`.
pub fn without_fragment(alloc: Global, url: &str) -> Result<Text, OutOfMemory>
    ensures { IfOk result (λ made. made ≡ spec.without_fragment (chars url.now)) }
{
    before(alloc, url, '#')
}

/// The scheme, without its `:`. Takes no memory.
pub fn protocol(address: &Address) -> &str
    ensures { chars result.now ≡ protocol_of address.now }
{
    address.scheme.as_str()
}

/// The host, and the empty text where there is none; without a leading `www.` where `strip_www`.
/// Takes no memory.
pub fn host(address: &Address, strip_www: bool) -> &str
    ensures { chars result.now ≡ host_of strip_www address.now }
{
    let host = told(&address.host);
    if strip_www { without_www(host) } else { host }
}

// The host without a leading `www.`.
fn without_www(host: &str) -> &str
    ensures { chars result.now ≡ without_www (chars host.now) }
{
    match behind_front("www.", host) {
        Some(rest) => rest,
        None => host,
    }
}

/// The digits of the port; where none is written, of the one that `https` and `http` imply, and the
/// empty text for any other scheme.
pub fn port(alloc: Global, address: &Address) -> Result<Text, OutOfMemory>
    ensures { IfOk result (λ made. made ≡ port_of address.now) }
{
    match address.port {
        Some(number) => {
            let mut digits = Text::new(alloc);
            digits.push_unsigned(number as u64)?;
            Ok(digits)
        },
        None => implied_port(alloc, &address.scheme),
    }
}

// The port that a scheme has where none is written.
fn implied_port(alloc: Global, scheme: &Text) -> Result<Text, OutOfMemory>
    ensures { IfOk result (λ made. made ≡ implied_port scheme.now) }
{
    let mut digits = Text::new(alloc);
    if scheme.is_word("https") {
        digits.push_word("443")?;
    } else if scheme.is_word("http") {
        digits.push_word("80")?;
    }
    Ok(digits)
}

/// The path. Takes no memory.
pub fn path(address: &Address) -> &str
    ensures { chars result.now ≡ path_of address.now }
{
    address.path.as_str()
}

/// What stands behind the last dot of the last segment of the path, and the empty text where there
/// is no dot. Takes no memory.
pub fn extension(address: &Address) -> &str
    ensures { chars result.now ≡ extension_of address.now }
{
    match behind_last(last_segment(address.path.as_str()), '.') {
        Some(extension) => extension,
        None => "",
    }
}

// What stands behind the last `/` of a path.
fn last_segment(path: &str) -> &str
    ensures { chars result.now ≡ last_segment (chars path.now) }
{
    match behind_last(path, '/') {
        Some(segment) => segment,
        None => path,
    }
}

/// The query, without its `?`, and the empty text where there is none. Takes no memory.
pub fn query(address: &Address) -> &str
    ensures chars { chars result.now ≡ query_of address.now }
    ensures bytes { result.now ≡ encode_utf8_all (query_of address.now) }
{
    told(&address.query)
}

/// The fragment, without its `#`, and the empty text where there is none. Takes no memory.
pub fn fragment(address: &Address) -> &str
    ensures { chars result.now ≡ fragment_of address.now }
{
    told(&address.fragment)
}

// The text, and the empty one where there is none.
fn told(text: &Option<Text>) -> &str
    ensures chars { chars result.now ≡ unwrap_or text.now [] }
    ensures bytes { result.now ≡ encode_utf8_all (unwrap_or text.now []) }
{
    match text {
        Some(text) => text.as_str(),
        None => "",
    }
}
