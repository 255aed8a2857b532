ghost use Rattle.std.specs.Prelude.{◌≡◌, IfOk, IfSome, option_map};
ghost use Rattle.std.specs.Str.{chars};
ghost use Rattle.std.specs.Option.{option_copied};
ghost use Rattle.gtm_base.specs.Engines.{address_from, address_of};

use gtm_base::{Address, OutOfMemory, Text};
use std::alloc::Global;
use url::{ParseError, Url, quirks};

/// The parts of the address that the text is; the outer `None` where `url` refuses to make it,
/// since it would be too long, and the inner one where it is malformed.
pub fn read_address(alloc: Global, text: &str) -> Result<Option<Option<Address>>, OutOfMemory>
    ensures { IfOk result (λ answer. IfSome answer
        (λ address. address ≡ address_of text.now)) }
{
    match Url::parse(alloc, text) {
        Ok(url) => Ok(Some(Some(parts_of(alloc, &url)?))),
        Err(ParseError::OutOfMemory) => Err(OutOfMemory),
        Err(ParseError::Overflow) => Ok(None),
        Err(_) => Ok(Some(None)),
    }
}

fn parts_of(alloc: Global, url: &Url) -> Result<Address, OutOfMemory>
    ensures { IfOk result (λ parts. parts ≡ address_from url.now) }
{
    Ok(Address {
        href: Text::from_str(alloc, url.as_str())?,
        scheme: Text::from_str(alloc, url.scheme())?,
        username: Text::from_str(alloc, url.username())?,
        password: Text::from_str(alloc, quirks::password(url))?,
        host: copied(alloc, url.host_str())?,
        port: url.port(),
        path: Text::from_str(alloc, url.path())?,
        query: copied(alloc, url.query())?,
        fragment: copied(alloc, url.fragment())?,
    })
}

fn copied(alloc: Global, text: Option<&str>) -> Result<Option<Text>, OutOfMemory>
    ensures { IfOk result (λ copied. copied ≡ option_map chars (option_copied text.entry)) }
{
    match text {
        Some(text) => Ok(Some(Text::from_str(alloc, text)?)),
        None => Ok(None),
    }
}
