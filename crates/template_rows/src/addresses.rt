use crate::telling::policy;
use gtm_base::{Address, OutOfMemory, Text};
use perm_match::allowed;
use perm_model::Need;
use std::alloc::Global;
use std::test::Fail;

// A pattern, the parts of an address, and whether the pattern allows it.
type Row = (
    &'static str,
    &'static str,
    &'static str,
    u16,
    &'static str,
    bool,
);

// The second column is the scheme, and behind it a user name and, behind a colon, a password; the
// fourth is the port, or 0 where there is none; the fifth is the path and the query.
const ROWS: &[Row] = &[
    (
        "https://*.example.com/*",
        "https",
        "badexample.com",
        0,
        "/",
        false,
    ),
    (
        "https://*.example.com/*",
        "https",
        "a.example.com",
        0,
        "/?q=1",
        true,
    ),
    (
        "https://a.example/p",
        "https",
        "a.example",
        0,
        "/p?v=1",
        false,
    ),
    (
        "https://a.example/p*",
        "https",
        "a.example",
        0,
        "/p?v=1",
        true,
    ),
    ("https://a.example", "https", "a.example", 8443, "/", false),
    ("https://*", "http", "a.example", 0, "/", false),
    (
        "https://a.example:8443",
        "https",
        "a.example",
        8443,
        "/",
        true,
    ),
    (
        "https://a.example:8443/",
        "https",
        "a.example",
        0,
        "/",
        false,
    ),
    (
        "https://a.example:443/",
        "https",
        "a.example",
        0,
        "/",
        false,
    ),
    (
        "https://*.example:8443/x",
        "https",
        "b.example",
        8443,
        "/x",
        true,
    ),
    (
        "https://*.example/x",
        "https",
        "b.example",
        8443,
        "/x",
        false,
    ),
    ("https://*:8443/", "https", "a.example", 8443, "/", false),
    ("https://*", "https", "a.example", 8443, "/x", true),
    ("https://A.Example/p", "https", "a.example", 0, "/p", true),
    (
        "https://*.Example.com/",
        "https",
        "a.example.com",
        0,
        "/",
        false,
    ),
    ("https://a.example/P", "https", "a.example", 0, "/p", false),
    ("https://a.example/p", "https", "a.example", 0, "/P", false),
    ("HTTPS://a.example/", "https", "a.example", 0, "/", false),
    ("https://a.example/", "https u", "a.example", 0, "/", false),
    ("https://a.example/", "https :w", "a.example", 0, "/", false),
    ("https://*", "https u", "a.example", 0, "/", false),
    ("https://[::1]/", "https", "[::1]", 0, "/", true),
    ("https://[::1]:8443/x", "https", "[::1]", 8443, "/x", true),
    ("https://[::1]", "https", "[::1]", 8443, "/", false),
    ("https://a.example", "https", "a.example", 0, "/x/y?q", true),
    ("https://a.example", "https", "a.example", 0, "", true),
    ("https://a.example/", "https", "a.example", 0, "", false),
    ("https://a.example/*", "https", "a.example", 0, "/", true),
    (
        "https://a.example/**",
        "https",
        "a.example",
        0,
        "/x/y",
        true,
    ),
    (
        "https://a.example/*a*b",
        "https",
        "a.example",
        0,
        "/xaxb",
        true,
    ),
    (
        "https://a.example/*a*b",
        "https",
        "a.example",
        0,
        "/xbxa",
        false,
    ),
    (
        "https://a.example/*aa",
        "https",
        "a.example",
        0,
        "/aaa",
        true,
    ),
    (
        "https://a.example/*ab",
        "https",
        "a.example",
        0,
        "/aabab",
        true,
    ),
    (
        "https://a.example/*ab*",
        "https",
        "a.example",
        0,
        "/ab",
        true,
    ),
    (
        "https://a.example/a*a",
        "https",
        "a.example",
        0,
        "/a",
        false,
    ),
    (
        "https://a.example/a*a",
        "https",
        "a.example",
        0,
        "/aa",
        true,
    ),
    (
        "https://a.example/*ab*ab",
        "https",
        "a.example",
        0,
        "/ab",
        false,
    ),
    ("https://a.example/é*", "https", "a.example", 0, "/éé", true),
    (
        "https://a.example/p?v=*",
        "https",
        "a.example",
        0,
        "/p?v=1",
        true,
    ),
    (
        "https://a.example/p?v=1",
        "https",
        "a.example",
        0,
        "/p?v=1",
        true,
    ),
    (
        "https://a.example/p?v=1",
        "https",
        "a.example",
        0,
        "/p",
        false,
    ),
    ("https://a.example/p", "https", "a.example", 0, "/p?", false),
    ("https://a.example/p?", "https", "a.example", 0, "/p?", true),
    (
        "https://a.example/*?q=1",
        "https",
        "a.example",
        0,
        "/x?q=1",
        true,
    ),
    ("https://*/p", "https", "any.example", 99, "/p", true),
    ("https://*.a.example/", "https", "a.example", 0, "/", false),
    ("https://*.a.example/", "https", ".a.example", 0, "/", false),
    (
        "https://*.a.example/",
        "https",
        "c.b.a.example",
        0,
        "/",
        true,
    ),
    ("https://a*.example/", "https", "ab.example", 0, "/", false),
    (
        "https://*.*.example/",
        "https",
        "a.b.example",
        0,
        "/",
        false,
    ),
    ("http://a.example/", "https", "a.example", 0, "/", false),
    ("https://", "https", "a.example", 0, "/", false),
    ("https:///p", "https", "a.example", 0, "/p", false),
    ("a.example/", "https", "a.example", 0, "/", false),
    ("*", "https", "a.example", 0, "/", false),
];

fn address(alloc: Global, row: &Row) -> Result<Address, OutOfMemory> {
    let (scheme, user) = row.1.split_once(' ').unwrap_or((row.1, ""));
    let (username, password) = user.split_once(':').unwrap_or((user, ""));
    let (path, query) = match row.4.split_once('?') {
        Some((path, query)) => (path, Some(Text::from_str(alloc, query)?)),
        None => (row.4, None),
    };
    Ok(Address {
        href: Text::new(alloc),
        scheme: Text::from_str(alloc, scheme)?,
        username: Text::from_str(alloc, username)?,
        password: Text::from_str(alloc, password)?,
        host: Some(Text::from_str(alloc, row.2)?),
        port: if row.3 == 0 { None } else { Some(row.3) },
        path: Text::from_str(alloc, path)?,
        query,
        fragment: None,
    })
}

// The permissions to load pixels from the addresses of one pattern.
fn permissions(alloc: Global, pattern: &str) -> Result<Text, OutOfMemory> {
    let mut out = Text::new(alloc);
    out.push_str(
        r#"[{"instance":{"key":{"publicId":"send_pixel"},"param":[{"key":"urls","value":"#,
    )?;
    out.push_str(r#"{"type":2,"listItem":[{"type":1,"string":""#)?;
    out.push_str(pattern)?;
    out.push_str(r#""}]}}]}}]"#)?;
    Ok(out)
}

#[test]
fn patterns(rt: HostRuntime) -> Result<(), Fail> {
    let alloc = rt.alloc();
    for row in ROWS {
        let text = permissions(alloc, row.0)?;
        let policy = policy(alloc, text.as_str())?;
        let need = Need::SendPixel(Some(address(alloc, row)?));
        assert_eq!(rt;
            allowed(&policy, &need),
            row.5,
            "{} {}{}",
            row.0,
            row.2,
            row.4
        );
    }
    Ok(())
}

// A pattern of many runs against a long path takes at most as many steps as the product of the two.
#[test]
fn a_long_path(rt: HostRuntime) -> Result<(), Fail> {
    let alloc = rt.alloc();
    let text = permissions(alloc, "https://a.example/*a*a*a*a*a*a*a*a*a*a*b")?;
    let policy = policy(alloc, text.as_str())?;
    let mut long = address(alloc, &("", "https", "a.example", 0, "/", false))?;
    for _ in 0..100_000 {
        long.path.push('a')?;
    }
    let need = Need::SendPixel(Some(long));
    assert!(rt; !allowed(&policy, &need));
    Ok(())
}
