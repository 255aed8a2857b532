use engine_forms::PackEngines;
use gtm_base::{Address, EngineEnd, Engines, Text};
use std::test::Fail;

#[test]
fn patterns_find_texts(rt: HostRuntime) -> Result<(), Fail> {
    let alloc = rt.alloc();
    let mut pack = PackEngines::new(alloc);
    assert_eq!(rt; pack.finds(alloc, "(?i)B+", "abba"), Ok(true));
    assert_eq!(rt; pack.finds(alloc, "^b", "abba"), Ok(false));
    assert_eq!(rt; pack.finds(alloc, "^/a/", "/a/b.html"), Ok(true));
    assert_eq!(rt; pack.finds(alloc, "", ""), Ok(true));
    assert_eq!(rt; pack.refusals(), 0);
    assert_eq!(rt; pack.refused(), "");
    Ok(())
}

#[test]
fn texts_that_are_no_patterns_are_refused(rt: HostRuntime) -> Result<(), Fail> {
    let alloc = rt.alloc();
    let mut pack = PackEngines::new(alloc);
    // An open bracket, a look-ahead, a back reference, and a pattern of over 10 MiB compiled.
    let refused = [
        (1u64, "("),
        (2, "a(?=b)"),
        (3, "(a)\\1"),
        (4, "(\\w{100}){1000}"),
    ];
    for (count, pattern) in refused {
        assert_eq!(rt; pack.finds(alloc, pattern, "abba"), Err(EngineEnd::Refused));
        assert_eq!(rt; pack.refusals(), count);
        assert_eq!(rt; pack.refused(), pattern);
    }
    assert_eq!(rt; pack.finds(alloc, "a", "abba"), Ok(true));
    assert_eq!(rt; pack.refusals(), 4);
    Ok(())
}

#[test]
fn addresses_have_their_parts(rt: HostRuntime) -> Result<(), Fail> {
    let alloc = rt.alloc();
    let mut pack = PackEngines::new(alloc);
    let read = pack.address(alloc, " HTTPS://u:p@Example.com:8443/a b?q=1#f");
    let Ok(Some(address)) = read else {
        return Err(Fail::from("no address"));
    };
    assert_eq!(rt;
        address.href.as_str(),
        "https://u:p@example.com:8443/a%20b?q=1#f"
    );
    assert_eq!(rt; address.scheme.as_str(), "https");
    assert_eq!(rt; address.username.as_str(), "u");
    assert_eq!(rt; address.password.as_str(), "p");
    assert_eq!(rt; told(&address.host), "example.com");
    assert_eq!(rt; address.port, Some(8443));
    assert_eq!(rt; address.path.as_str(), "/a%20b");
    assert_eq!(rt; told(&address.query), "q=1");
    assert_eq!(rt; told(&address.fragment), "f");
    Ok(())
}

#[test]
fn parts_that_are_not_there(rt: HostRuntime) -> Result<(), Fail> {
    let alloc = rt.alloc();
    let mut pack = PackEngines::new(alloc);
    let Ok(
        Some(
            Address {
                host,
                port,
                query,
                fragment,
                ..
            },
        ),
    ) = pack.address(alloc, "http://a.example:80/?")
    else {
        return Err(Fail::from("no address"));
    };
    assert_eq!(rt; told(&host), "a.example");
    assert_eq!(rt; port, None);
    assert_eq!(rt; told(&query), "");
    assert_eq!(rt; told(&fragment), "none");
    Ok(())
}

#[test]
fn malformed_addresses_are_none(rt: HostRuntime) -> Result<(), Fail> {
    let alloc = rt.alloc();
    let mut pack = PackEngines::new(alloc);
    for text in [
        "",
        "no address",
        "https://",
        "https://a b/",
        "http://a:99999/",
    ] {
        assert!(rt; matches!(pack.address(alloc, text), Ok(None)), "{text}");
    }
    assert_eq!(rt; pack.refusals(), 0);
    Ok(())
}

fn told(part: &Option<Text>) -> &str {
    match part {
        Some(text) => text.as_str(),
        None => "none",
    }
}
