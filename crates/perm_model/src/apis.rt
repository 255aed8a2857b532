ghost use Rattle.std.specs.Prelude.{◌≡◌, ◌<◌, length, IfSome};
ghost use Rattle.perm_model.specs.Apis.{api_named, api_name, is_callback_place};
ghost use Rattle.perm_model.specs.Apis.{row_named, row_at, is_place_of};
ghost use Rattle.perm_model.specs.Rows.{rows_of};

use std::marker::Model;

/// The calls that a script can ask for, in their order: the name, and which of its arguments,
/// counted from 0, is a function that may be called back.
pub const APIS: [(&str, &[u32]); 44] = [
    ("addConsentListener", &[1]),
    ("addEventCallback", &[0]),
    ("aliasInWindow", &[]),
    ("callInWindow", &[]),
    ("callLater", &[0]),
    ("copyFromDataLayer", &[]),
    ("copyFromWindow", &[]),
    ("createArgumentsQueue", &[]),
    ("createQueue", &[]),
    ("decodeUri", &[]),
    ("decodeUriComponent", &[]),
    ("encodeUri", &[]),
    ("encodeUriComponent", &[]),
    ("fromBase64", &[]),
    ("generateRandom", &[]),
    ("getContainerVersion", &[]),
    ("getCookieValues", &[]),
    ("getQueryParameters", &[]),
    ("getReferrerQueryParameters", &[]),
    ("getReferrerUrl", &[]),
    ("getTimestampMillis", &[]),
    ("getUrl", &[]),
    ("gtagSet", &[]),
    ("injectHiddenIframe", &[1]),
    ("injectScript", &[1, 2]),
    ("isConsentGranted", &[]),
    ("localStorage.getItem", &[]),
    ("localStorage.removeItem", &[]),
    ("localStorage.setItem", &[]),
    ("logToConsole", &[]),
    ("parseUrl", &[]),
    ("readCharacterSet", &[]),
    ("readTitle", &[]),
    ("sendPixel", &[1, 2]),
    ("setCookie", &[]),
    ("setDefaultConsentState", &[]),
    ("setInWindow", &[]),
    ("sha256", &[1, 2]),
    ("templateStorage.clear", &[]),
    ("templateStorage.getItem", &[]),
    ("templateStorage.removeItem", &[]),
    ("templateStorage.setItem", &[]),
    ("toBase64", &[]),
    ("updateConsentState", &[]),
];

/// One of `APIS`, by its place there.
#[derive(Clone, Copy, Debug, PartialEq, Eq)]
pub struct ApiId(pub u8);

impl Model for ApiId {
    ghost use Rattle.std.specs.Prelude.{ℕ, ◌<◌};

    ghost Value = { ℕ };

    ghost view = { λ id. id.0 };

    ghost invariant = { λ id. id.0 < 44 };

    ghost inverse = { λ number. record { 0 = number } };
}

/// The call that has this name, or `None` where none has it. Takes no memory.
pub fn api_named(name: &str) -> Option<ApiId>
    ensures { result ≡ api_named name.now }
{
    let at = row_named(&APIS, name)?;
    Some(ApiId(at as u8))
}

/// The name of a call. Takes no memory.
pub fn api_name(api: ApiId) -> &'static str
    ensures { result.now ≡ api_name api }
{
    name_in(&APIS, usize::from(api.0))
}

/// Whether this argument of the call, counted from 0, is a function that may be called back. Takes
/// no memory.
pub fn callback_place(api: ApiId, index: u32) -> bool
    ensures { result ≡ is_callback_place api index }
{
    is_place_in(&APIS, usize::from(api.0), index)
}

// The place of the first row with this name.
fn row_named(table: &[(&str, &[u32])], name: &str) -> Option<usize>
    ensures value { result ≡ row_named (rows_of table.now) name.now }
    ensures within { IfSome result (λ at. at < length table.now) }
{
    for (at, row) in table.iter().enumerate() {
        if row.0 == name {
            return Some(at);
        }
    }
    None
}

fn name_in<'a>(table: &[(&'a str, &[u32])], at: usize) -> &'a str
    requires { at < length table.now }
    ensures { result.now ≡ (row_at (rows_of table.now) at).0 }
{
    table[at].0
}

fn is_place_in(table: &[(&str, &[u32])], at: usize, index: u32) -> bool
    requires { at < length table.now }
    ensures { result ≡ is_place_of (row_at (rows_of table.now) at) index }
{
    table[at].1.contains(&index)
}
