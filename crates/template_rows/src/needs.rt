use crate::editor_cookies::{COOKIES, URLS};
use crate::editor_reading::{CONSENT, GLOBALS, LOGGING};
use crate::editor_urls::LAYER;
use crate::editor_words::{ANY, STORAGE};
use crate::telling::policy;
use gtm_base::{OutOfMemory, Text};
use perm_match::{allowed, first_denied, permission_of};
use perm_model::{
    Ask, Need, Needs, Part, Permission, api_name, api_named, callback_place, permission_named,
};
use std::alloc::Global;
use std::process::Abort;
use std::test::Fail;

// A need by its kind and its text, and whether it is allowed.
type Row = (&'static str, &'static str, bool);

const OF_GLOBALS: &[Row] = &[
    ("read", "dataLayer", true),
    ("write", "dataLayer", true),
    ("execute", "dataLayer", false),
    ("exists", "dataLayer", true),
    ("execute", "fbq", true),
    ("read", "fbq", false),
    ("exists", "fbq", false),
    ("read", "dataLayer.push", false),
];

const OF_CONSENT: &[Row] = &[
    ("consent read", "ad_storage", true),
    ("consent write", "ad_storage", false),
    ("consent write", "analytics_storage", true),
];

const OF_STORAGE: &[Row] = &[
    ("local read", "old", true),
    ("local write", "old", false),
    ("local write", "seen", true),
    ("storage", "", true),
    ("log", "", false),
    ("time", "", true),
];

const OF_LOGGING: &[Row] = &[("storage", "", false), ("log", "", true)];

const OF_COOKIES: &[Row] = &[
    ("cookie", "_ga", true),
    ("cookie", "_fbp", false),
    ("set _x", "/any", true),
    ("set _y", "/", false),
];

const OF_ANY: &[Row] = &[
    ("cookie", "_fbp", true),
    ("whole", "", true),
    ("query", "", true),
    ("key", "fbclid", true),
    ("layer read", "user", true),
];

const OF_URLS: &[Row] = &[
    ("whole", "", false),
    ("host", "", true),
    ("port", "", false),
    ("query", "", false),
    ("key", "gclid", true),
    ("key", "fbclid", false),
];

const OF_LAYER: &[Row] = &[
    ("layer read", "ecommerce.items", true),
    ("layer write", "user.id", true),
    ("layer write", "user.id.x", false),
    ("layer write", "cart.total", true),
    ("layer write", "car", false),
];

fn need(alloc: Global, kind: &str, text: &str) -> Result<Need, OutOfMemory> {
    let key = Text::from_str(alloc, text)?;
    if kind == "read" {
        return Ok(Need::GlobalRead { key });
    }
    if kind == "write" {
        return Ok(Need::GlobalWrite { key });
    }
    if kind == "execute" {
        return Ok(Need::GlobalExecute { key });
    }
    if kind == "exists" {
        return Ok(Need::GlobalExists { key });
    }
    if kind == "consent read" {
        return Ok(Need::ConsentRead { kind: key });
    }
    if kind == "consent write" {
        return Ok(Need::ConsentWrite { kind: key });
    }
    if kind == "local read" {
        return Ok(Need::LocalRead { key });
    }
    if kind == "local write" {
        return Ok(Need::LocalWrite { key });
    }
    other_need(alloc, kind, key)
}

fn other_need(alloc: Global, kind: &str, key: Text) -> Result<Need, OutOfMemory> {
    if kind == "storage" {
        return Ok(Need::TemplateStorage);
    }
    if kind == "cookie" {
        return Ok(Need::CookieRead { name: key });
    }
    if kind == "set _x" || kind == "set _y" {
        return Ok(Need::CookieWrite {
            name: Text::from_str(alloc, if kind == "set _x" { "_x" } else { "_y" })?,
            domain: Text::from_str(alloc, "a.example")?,
            path: key,
        });
    }
    if kind == "layer read" {
        return Ok(Need::LayerRead { key });
    }
    if kind == "layer write" {
        return Ok(Need::LayerWrite { key });
    }
    if kind == "log" {
        return Ok(Need::Logging);
    }
    if kind == "time" {
        return Ok(Need::Time);
    }
    Ok(Need::Url(ask(kind, key)))
}

fn ask(kind: &str, key: Text) -> Ask {
    if kind == "host" {
        return Ask::Part(Part::Host);
    }
    if kind == "port" {
        return Ask::Part(Part::Port);
    }
    if kind == "query" {
        return Ask::Part(Part::Query);
    }
    if kind == "key" {
        return Ask::Key(key);
    }
    Ask::Whole
}

// The permissions of a text allow the needs of these rows, or do not, as each says.
fn hold(rt: &impl Abort, alloc: Global, text: &str, rows: &[Row]) -> Result<(), Fail> {
    let policy = policy(alloc, text)?;
    for row in rows {
        let need = need(alloc, row.0, row.1)?;
        assert_eq!(rt; allowed(&policy, &need), row.2, "{} {}", row.0, row.1);
    }
    Ok(())
}

#[test]
fn needs_of_the_page(rt: HostRuntime) -> Result<(), Fail> {
    let alloc = rt.alloc();
    hold(&rt, alloc, GLOBALS, OF_GLOBALS)?;
    hold(&rt, alloc, CONSENT, OF_CONSENT)?;
    hold(&rt, alloc, STORAGE, OF_STORAGE)?;
    hold(&rt, alloc, LOGGING, OF_LOGGING)?;
    Ok(())
}

#[test]
fn other_needs(rt: HostRuntime) -> Result<(), Fail> {
    let alloc = rt.alloc();
    hold(&rt, alloc, COOKIES, OF_COOKIES)?;
    hold(&rt, alloc, ANY, OF_ANY)?;
    hold(&rt, alloc, URLS, OF_URLS)?;
    hold(&rt, alloc, LAYER, OF_LAYER)?;
    Ok(())
}

#[test]
fn denials(rt: HostRuntime) -> Result<(), Fail> {
    let alloc = rt.alloc();
    let policy = policy(alloc, GLOBALS)?;
    let mut needs = Needs::new(alloc);
    needs.push(need(alloc, "read", "dataLayer")?)?;
    needs.push(Need::Random)?;
    assert_eq!(rt; first_denied(&policy, needs.as_slice()), None);
    needs.push(need(alloc, "cookie", "a")?)?;
    needs.push(need(alloc, "read", "fbq")?)?;
    assert_eq!(rt; first_denied(&policy, needs.as_slice()), Some(2));
    assert_eq!(rt; permission_of(&Need::Random), None);
    let denied = permission_of(&need(alloc, "cookie", "a")?);
    assert_eq!(rt; denied, Some(Permission::GetCookies));
    Ok(())
}

// A permission and a call by their names, and which arguments of a call are functions.
#[test]
fn tables(rt: HostRuntime) -> Result<(), Fail> {
    assert_eq!(rt; permission_named("send_pixel"), Some(Permission::SendPixel));
    assert_eq!(rt; permission_named("process_xml"), None);
    assert_eq!(rt; Permission::ReadTitle.name(), "read_title");
    assert!(rt; api_named("sendpixel").is_none());
    let first = api_named("addConsentListener").ok_or("no first call")?;
    let pixel = api_named("sendPixel").ok_or("no pixel")?;
    let last = api_named("updateConsentState").ok_or("no last call")?;
    assert_eq!(rt; first.0, 0);
    assert_eq!(rt; pixel.0, 33);
    assert_eq!(rt; last.0, 43);
    assert_eq!(rt; api_name(pixel), "sendPixel");
    assert!(rt; !callback_place(pixel, 0));
    assert!(rt; callback_place(pixel, 1));
    assert!(rt; callback_place(pixel, 2));
    assert!(rt; !callback_place(pixel, 3));
    Ok(())
}
