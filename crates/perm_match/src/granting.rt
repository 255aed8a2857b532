ghost use Rattle.std.specs.Prelude.{◌≡◌};
ghost use Rattle.perm_model.specs.Allowed.{allows};

use crate::addresses::allows_address;
use crate::keys::{allows_key, allows_text};
use crate::parts::allows_ask;
use gtm_base::Text;
use perm_model::{AddressParts, AddressPattern, Grant, KeyPattern, Need};

// Whether a grant allows a need.
pub(crate) fn allows(grant: &Grant, need: &Need) -> bool
    ensures { result ≡ allows grant.now need.now }
{
    match grant {
        Grant::Consent { kind, read, write } => consent(kind, *read, *write, need),
        Grant::Global {
            key,
            read,
            write,
            execute,
        } => global(key, *read, *write, *execute, need),
        Grant::Local { key, read, write } => local(key, *read, *write, need),
        Grant::TemplateStorage => template_storage(need),
        Grant::AnyCookie => any_cookie(need),
        Grant::Cookie { name } => cookie(name, need),
        Grant::CookieWrite { name, domain, path } => cookie_write(name, domain, path, need),
        Grant::Url(parts) => url(parts, need),
        Grant::Referrer(parts) => referrer(parts, need),
        Grant::SendPixel(pattern) => send_pixel(pattern, need),
        Grant::InjectScript(pattern) => inject_script(pattern, need),
        Grant::InjectHiddenIframe(pattern) => inject_hidden_iframe(pattern, need),
        Grant::Logging => logging(need),
        Grant::LayerRead(pattern) => layer_read(pattern, need),
        Grant::LayerWrite(pattern) => layer_write(pattern, need),
        Grant::CharacterSet => character_set(need),
        Grant::ContainerData => container_data(need),
        Grant::EventMetadata => event_metadata(need),
        Grant::Title => title(need),
    }
}

fn consent(kind: &Text, read: bool, write: bool, need: &Need) -> bool
    ensures { result ≡ allows (Grant.Consent kind.now read write) need.now }
{
    match need {
        Need::ConsentRead { kind: wanted } => read && kind == wanted,
        Need::ConsentWrite { kind: wanted } => write && kind == wanted,
        _ => false,
    }
}

// To ask whether a key is there, one needs to be allowed to write it.
fn global(key: &Text, read: bool, write: bool, execute: bool, need: &Need) -> bool
    ensures { result ≡ allows (Grant.Global key.now read write execute) need.now }
{
    match need {
        Need::GlobalRead { key: wanted } => read && key == wanted,
        Need::GlobalWrite { key: wanted } => write && key == wanted,
        Need::GlobalExecute { key: wanted } => execute && key == wanted,
        Need::GlobalExists { key: wanted } => write && key == wanted,
        _ => false,
    }
}

fn local(key: &Text, read: bool, write: bool, need: &Need) -> bool
    ensures { result ≡ allows (Grant.Local key.now read write) need.now }
{
    match need {
        Need::LocalRead { key: wanted } => read && key == wanted,
        Need::LocalWrite { key: wanted } => write && key == wanted,
        _ => false,
    }
}

fn template_storage(need: &Need) -> bool
    ensures { result ≡ allows Grant.TemplateStorage need.now }
{
    match need {
        Need::TemplateStorage => true,
        _ => false,
    }
}

fn any_cookie(need: &Need) -> bool
    ensures { result ≡ allows Grant.AnyCookie need.now }
{
    match need {
        Need::CookieRead { .. } => true,
        _ => false,
    }
}

fn cookie(name: &Text, need: &Need) -> bool
    ensures { result ≡ allows (Grant.Cookie name.now) need.now }
{
    match need {
        Need::CookieRead { name: wanted } => name == wanted,
        _ => false,
    }
}

fn cookie_write(name: &Text, domain: &Text, path: &Text, need: &Need) -> bool
    ensures { result ≡ allows (Grant.CookieWrite name.now domain.now path.now) need.now }
{
    match need {
        Need::CookieWrite {
            name: wanted_name,
            domain: wanted_domain,
            path: wanted_path,
        } => {
            allows_text(name, wanted_name)
                && allows_text(domain, wanted_domain)
                && allows_text(path, wanted_path)
        },
        _ => false,
    }
}

fn url(parts: &AddressParts, need: &Need) -> bool
    ensures { result ≡ allows (Grant.Url parts.now) need.now }
{
    match need {
        Need::Url(ask) => allows_ask(parts, ask),
        _ => false,
    }
}

fn referrer(parts: &AddressParts, need: &Need) -> bool
    ensures { result ≡ allows (Grant.Referrer parts.now) need.now }
{
    match need {
        Need::Referrer(ask) => allows_ask(parts, ask),
        _ => false,
    }
}

fn send_pixel(pattern: &AddressPattern, need: &Need) -> bool
    ensures { result ≡ allows (Grant.SendPixel pattern.now) need.now }
{
    match need {
        Need::SendPixel(address) => allows_address(pattern, address),
        _ => false,
    }
}

fn inject_script(pattern: &AddressPattern, need: &Need) -> bool
    ensures { result ≡ allows (Grant.InjectScript pattern.now) need.now }
{
    match need {
        Need::InjectScript(address) => allows_address(pattern, address),
        _ => false,
    }
}

fn inject_hidden_iframe(pattern: &AddressPattern, need: &Need) -> bool
    ensures { result ≡ allows (Grant.InjectHiddenIframe pattern.now) need.now }
{
    match need {
        Need::InjectHiddenIframe(address) => allows_address(pattern, address),
        _ => false,
    }
}

fn logging(need: &Need) -> bool
    ensures { result ≡ allows Grant.Logging need.now }
{
    match need {
        Need::Logging => true,
        _ => false,
    }
}

fn layer_read(pattern: &KeyPattern, need: &Need) -> bool
    ensures { result ≡ allows (Grant.LayerRead pattern.now) need.now }
{
    match need {
        Need::LayerRead { key } => allows_key(pattern, key),
        _ => false,
    }
}

fn layer_write(pattern: &KeyPattern, need: &Need) -> bool
    ensures { result ≡ allows (Grant.LayerWrite pattern.now) need.now }
{
    match need {
        Need::LayerWrite { key } => allows_key(pattern, key),
        _ => false,
    }
}

fn character_set(need: &Need) -> bool
    ensures { result ≡ allows Grant.CharacterSet need.now }
{
    match need {
        Need::CharacterSet => true,
        _ => false,
    }
}

fn container_data(need: &Need) -> bool
    ensures { result ≡ allows Grant.ContainerData need.now }
{
    match need {
        Need::ContainerData => true,
        _ => false,
    }
}

fn event_metadata(need: &Need) -> bool
    ensures { result ≡ allows Grant.EventMetadata need.now }
{
    match need {
        Need::EventMetadata => true,
        _ => false,
    }
}

fn title(need: &Need) -> bool
    ensures { result ≡ allows Grant.Title need.now }
{
    match need {
        Need::Title => true,
        _ => false,
    }
}
