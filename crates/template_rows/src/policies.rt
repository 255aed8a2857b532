use crate::editor_cookies::{COOKIES, URLS};
use crate::editor_reading::{CONSENT, GLOBALS, LOGGING};
use crate::editor_urls::{LAYER, PIXELS};
use crate::editor_words::{ANY, STORAGE, UNKNOWN};
use crate::telling::told_policy;
use std::test::Fail;

// Permissions, with their grants in order and, each behind `!`, their warnings.
const ROWS: &[(&str, &str)] = &[
    (LOGGING, "logging; title; character set"),
    (GLOBALS, "global dataLayer rw; global fbq x"),
    (
        CONSENT,
        "consent ad_storage r; consent analytics_storage rw; container data",
    ),
    (COOKIES, "cookie _ga; cookie _gid; cookie write _x * *"),
    (
        URLS,
        "url host path query keys gclid utm_source; referrer any queries any",
    ),
    (
        PIXELS,
        "pixel px.example.com /*; pixel *.Example.com; pixel * /p; \
         script cdn.example.com /lib.js; iframe f.example:8443 /! http://a.example/",
    ),
    (
        LAYER,
        "layer read ecommerce. and on; layer read = event; layer read  and on; \
         layer read = a*b; layer write = user.id; layer write cart and on",
    ),
    (
        STORAGE,
        "local seen rw; local old r; template storage; event metadata",
    ),
    (
        ANY,
        "any cookie; pixel any; layer read any; url any queries any",
    ),
    (
        UNKNOWN,
        "url host keys q! process_xml! some! \
         {\"mapKey\":[{\"string\":\"key\",\"type\":1},{\"string\":\"read\",\"type\":1}],\
         \"mapValue\":[{\"string\":\"k\",\"type\":1}],\"type\":3}! \
         {\"boolean\":true,\"type\":8}! https://a*.example/! most",
    ),
];

// What has not the form of a list of permissions.
const BAD: &[&str] = &[
    "{}",
    "[5]",
    "[{}]",
    r#"[{"instance":{"key":{"publicId":5}}}]"#,
    r#"[{"instance":{"key":{"publicId":"logging"},"param":null}}]"#,
    r#"[{"instance":{"key":{"publicId":"logging"},"param":[{"key":1}]}}]"#,
    r#"[{"instance":{"key":{"publicId":"logging"},"param":["key"]}}]"#,
];

#[test]
fn policies(rt: HostRuntime) -> Result<(), Fail> {
    let alloc = rt.alloc();
    for row in ROWS {
        assert_eq!(rt; told_policy(alloc, row.0)?.as_str(), row.1);
    }
    for text in BAD {
        assert_eq!(rt; told_policy(alloc, text)?.as_str(), "form", "{text}");
    }
    assert_eq!(rt; told_policy(alloc, "[]")?.as_str(), "");
    Ok(())
}
