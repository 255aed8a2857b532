use address_parts::{
    extension, fragment, host, path, port, protocol, query, query_value, without_fragment,
};
use engine_forms::PackEngines;
use gtm_base::{Address, Engines, Text};
use std::alloc::Global;
use std::test::Fail;

// An address and its parts.
struct Row {
    text: &'static str,
    protocol: &'static str,
    host: &'static str,
    without_www: &'static str,
    port: &'static str,
    path: &'static str,
    extension: &'static str,
    query: &'static str,
    fragment: &'static str,
}

const ROWS: &[Row] = &[
    Row {
        text: "https://www.shop.example/a/b.html?x=1#f",
        protocol: "https",
        host: "www.shop.example",
        without_www: "shop.example",
        port: "443",
        path: "/a/b.html",
        extension: "html",
        query: "x=1",
        fragment: "f",
    },
    Row {
        text: "http://wwwx.example",
        protocol: "http",
        host: "wwwx.example",
        without_www: "wwwx.example",
        port: "80",
        path: "/",
        extension: "",
        query: "",
        fragment: "",
    },
    Row {
        text: "http://a.example:8080/x.tar.gz/?#",
        protocol: "http",
        host: "a.example",
        without_www: "a.example",
        port: "8080",
        path: "/x.tar.gz/",
        extension: "",
        query: "",
        fragment: "",
    },
    Row {
        text: "https://[2001:db8::1]/d.e/.well-known",
        protocol: "https",
        host: "[2001:db8::1]",
        without_www: "[2001:db8::1]",
        port: "443",
        path: "/d.e/.well-known",
        extension: "well-known",
        query: "",
        fragment: "",
    },
    Row {
        text: "mailto:a@b.example",
        protocol: "mailto",
        host: "",
        without_www: "",
        port: "",
        path: "a@b.example",
        extension: "example",
        query: "",
        fragment: "",
    },
    Row {
        text: "ftp://a.example/x.",
        protocol: "ftp",
        host: "a.example",
        without_www: "a.example",
        port: "",
        path: "/x.",
        extension: "",
        query: "",
        fragment: "",
    },
];

fn address(alloc: Global, text: &str) -> Result<Address, Fail> {
    match PackEngines::new(alloc).address(alloc, text) {
        Ok(Some(address)) => Ok(address),
        _ => Err(Fail::from("no address")),
    }
}

#[test]
fn addresses_have_these_parts(rt: HostRuntime) -> Result<(), Fail> {
    let alloc = rt.alloc();
    for row in ROWS {
        let address = address(alloc, row.text)?;
        let text = row.text;
        assert_eq!(rt; protocol(&address), row.protocol, "{text}");
        assert_eq!(rt; host(&address, false), row.host, "{text}");
        assert_eq!(rt; host(&address, true), row.without_www, "{text}");
        assert_eq!(rt; port(alloc, &address)?.as_str(), row.port, "{text}");
        assert_eq!(rt; path(&address), row.path, "{text}");
        assert_eq!(rt; extension(&address), row.extension, "{text}");
        assert_eq!(rt; query(&address), row.query, "{text}");
        assert_eq!(rt; fragment(&address), row.fragment, "{text}");
    }
    Ok(())
}

// Keys, and their first values in the query below.
const VALUES: &[(&str, &str)] = &[
    ("q", "a b"),
    ("e", ""),
    ("bare", ""),
    ("x\u{fffd}", "1"),
    ("k k", "\u{e4}"),
    ("z", "none"),
];

#[test]
fn queries_have_these_values(rt: HostRuntime) -> Result<(), Fail> {
    let alloc = rt.alloc();
    let address = address(
        alloc,
        "https://a.example/?%71=a+b&q=2&e=&bare&x%ff=1&k+k=%C3%A4",
    )?;
    for (key, value) in VALUES {
        let key = Text::from_str(alloc, key)?;
        let found = query_value(alloc, &address, &key)?;
        assert_eq!(rt; told(&found), *value);
    }
    Ok(())
}

fn told(value: &Option<Text>) -> &str {
    match value {
        Some(value) => value.as_str(),
        None => "none",
    }
}

#[test]
fn urls_end_before_their_first_fragment(rt: HostRuntime) -> Result<(), Fail> {
    let alloc = rt.alloc();
    for (url, whole) in [
        ("https://A.example/#a#b", "https://A.example/"),
        ("#", ""),
        ("abc", "abc"),
    ] {
        assert_eq!(rt; without_fragment(alloc, url)?.as_str(), whole);
    }
    Ok(())
}
