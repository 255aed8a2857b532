use crate::telling::told;
use std::test::Fail;

// A line, and the least rule that it breaks.
struct Bad {
    name: &'static str,
    line: &'static [u8],
    says: &'static str,
}

// Bad lines. In those that say so two rules are broken at once.
const BAD: &[Bad] = &[
    Bad {
        name: "half of an object",
        line: br#"{"push":{"a":1}"#,
        says: "bad 2",
    },
    Bad {
        name: "two values",
        line: br#"{"time":0}{"time":0}"#,
        says: "bad 2",
    },
    Bad {
        name: "a comma too many",
        line: br#"{"time":0,}"#,
        says: "bad 2",
    },
    Bad {
        name: "a word",
        line: b"push",
        says: "bad 2",
    },
    Bad {
        name: "a number with a fraction",
        line: br#"{"push":{"a":1.5}}"#,
        says: "bad 3",
    },
    Bad {
        name: "a number out of range",
        line: br#"{"push":9007199254740992}"#,
        says: "bad 3",
    },
    Bad {
        name: "a number with a fraction in another form",
        line: br#"{"load":1.5,"ok":true}"#,
        says: "bad 3",
    },
    Bad {
        name: "a negative number out of range",
        line: br#"{"time":-9007199254740992}"#,
        says: "bad 3",
    },
    Bad {
        name: "a List with 64 above it",
        line: br#"{"push":[[[[[[[[[[[[[[[[[[[[[[[[[[[[[[[[[[[[[[[[[[[[[[[[[[[[[[[[[[[[[[[[]]]]]]]]]]]]]]]]]]]]]]]]]]]]]]]]]]]]]]]]]]]]]]]]]]]]]]]]]]]]]]]]}"#,
        says: "bad 4",
    },
    Bad {
        name: "arguments with 64 above them",
        line: br#"{"args":[[[[[[[[[[[[[[[[[[[[[[[[[[[[[[[[[[[[[[[[[[[[[[[[[[[[[[[[[[[[[[[[]]]]]]]]]]]]]]]]]]]]]]]]]]]]]]]]]]]]]]]]]]]]]]]]]]]]]]]]]]]]]]]]}"#,
        says: "bad 4",
    },
    // Rules 4 and 5.
    Bad {
        name: "another form that is too deep",
        line: br#"{"foo":[[[[[[[[[[[[[[[[[[[[[[[[[[[[[[[[[[[[[[[[[[[[[[[[[[[[[[[[[[[[[[[[]]]]]]]]]]]]]]]]]]]]]]]]]]]]]]]]]]]]]]]]]]]]]]]]]]]]]]]]]]]]]]]]}"#,
        says: "bad 4",
    },
    // Rules 3 and 4.
    Bad {
        name: "a fraction that is too deep",
        line: br#"{"push":[[[[[[[[[[[[[[[[[[[[[[[[[[[[[[[[[[[[[[[[[[[[[[[[[[[[[[[[[[[[[[[[0.5]]]]]]]]]]]]]]]]]]]]]]]]]]]]]]]]]]]]]]]]]]]]]]]]]]]]]]]]]]]]]]]]}"#,
        says: "bad 3",
    },
    // Rules 3 and 5.
    Bad {
        name: "a fraction in another form",
        line: br#"{"foo":0.5}"#,
        says: "bad 3",
    },
    // Rules 3 and 6.
    Bad {
        name: "a fraction in a member of another kind",
        line: br#"{"args":0.5}"#,
        says: "bad 3",
    },
    // Rules 4 and 6.
    Bad {
        name: "a page that is too deep",
        line: br#"{"page":{"url":[[[[[[[[[[[[[[[[[[[[[[[[[[[[[[[[[[[[[[[[[[[[[[[[[[[[[[[[[[[[[[[]]]]]]]]]]]]]]]]]]]]]]]]]]]]]]]]]]]]]]]]]]]]]]]]]]]]]]]]]]]]]]]}}"#,
        says: "bad 4",
    },
    Bad {
        name: "an empty object",
        line: b"{}",
        says: "bad 5",
    },
    Bad {
        name: "a list",
        line: br#"[{"time":0}]"#,
        says: "bad 5",
    },
    Bad {
        name: "a text",
        line: br#""push""#,
        says: "bad 5",
    },
    Bad {
        name: "null",
        line: b"null",
        says: "bad 5",
    },
    Bad {
        name: "an unknown member",
        line: br#"{"foo":1}"#,
        says: "bad 5",
    },
    Bad {
        name: "two forms",
        line: br#"{"push":1,"time":0}"#,
        says: "bad 5",
    },
    Bad {
        name: "a load without its outcome",
        line: br#"{"load":1}"#,
        says: "bad 5",
    },
    Bad {
        name: "a cookie with a value",
        line: br#"{"cookie":"c","value":"a"}"#,
        says: "bad 5",
    },
    Bad {
        name: "a global with both",
        line: br#"{"global":"g","value":1,"returns":2}"#,
        says: "bad 5",
    },
    Bad {
        name: "a word in capitals",
        line: br#"{"Push":1}"#,
        says: "bad 5",
    },
    Bad {
        name: "a page with a member that is not listed",
        line: br#"{"page":{"lang":"de"}}"#,
        says: "bad 5",
    },
    // Rules 5 and 6.
    Bad {
        name: "a page with a member that is not listed, and one that is no text",
        line: br#"{"page":{"lang":"de","url":1}}"#,
        says: "bad 5",
    },
    // Rules 5 and 6.
    Bad {
        name: "a page with a member that is no text before one that is not listed",
        line: br#"{"page":{"charset":1,"lang":"de"}}"#,
        says: "bad 5",
    },
    Bad {
        name: "a page that is a text",
        line: br#"{"page":"https://a.example/"}"#,
        says: "bad 6",
    },
    Bad {
        name: "a page with null",
        line: br#"{"page":{"url":null}}"#,
        says: "bad 6",
    },
    Bad {
        name: "arguments that are an object",
        line: br#"{"args":{"0":"consent"}}"#,
        says: "bad 6",
    },
    Bad {
        name: "the load 0",
        line: br#"{"load":0,"ok":true}"#,
        says: "bad 6",
    },
    Bad {
        name: "a negative load",
        line: br#"{"load":-1,"ok":true}"#,
        says: "bad 6",
    },
    Bad {
        name: "a load as a text",
        line: br#"{"load":"1","ok":true}"#,
        says: "bad 6",
    },
    Bad {
        name: "an outcome as a text",
        line: br#"{"load":1,"ok":"true"}"#,
        says: "bad 6",
    },
    Bad {
        name: "the vendor 0",
        line: br#"{"vendor":0,"ok":false}"#,
        says: "bad 6",
    },
    Bad {
        name: "a cookie whose name is a number",
        line: br#"{"cookie":1,"values":[]}"#,
        says: "bad 6",
    },
    Bad {
        name: "a cookie with a value that is no text",
        line: br#"{"cookie":"c","values":["a",1]}"#,
        says: "bad 6",
    },
    Bad {
        name: "values that are a text",
        line: br#"{"cookie":"c","values":"a"}"#,
        says: "bad 6",
    },
    Bad {
        name: "a global whose key is a list",
        line: br#"{"global":["a"],"value":1}"#,
        says: "bad 6",
    },
    Bad {
        name: "a function whose key is null",
        line: br#"{"global":null,"returns":1}"#,
        says: "bad 6",
    },
    Bad {
        name: "a negative time",
        line: br#"{"time":-1}"#,
        says: "bad 6",
    },
    // Rules 3 and 6.
    Bad {
        name: "a negative fraction as a time",
        line: br#"{"time":-0.5}"#,
        says: "bad 3",
    },
    Bad {
        name: "a time as a text",
        line: br#"{"time":"0"}"#,
        says: "bad 6",
    },
    Bad {
        name: "a default of consent for regions",
        line: br#"{"args":["consent","default",{"ad_storage":"denied","region":["US"]}]}"#,
        says: "bad 7",
    },
    Bad {
        name: "a default of consent for no region",
        line: br#"{"args":["consent","default",{"region":null},1]}"#,
        says: "bad 7",
    },
    Bad {
        name: "a default of consent for a region alone",
        line: br#"{"args":["consent","default",{"region":"US"}]}"#,
        says: "bad 7",
    },
    // Rules 3 and 7.
    Bad {
        name: "a default of consent for regions, with a fraction",
        line: br#"{"args":["consent","default",{"region":[0.5]}]}"#,
        says: "bad 3",
    },
    // Rules 5 and 7.
    Bad {
        name: "a default of consent for regions, and a time",
        line: br#"{"args":["consent","default",{"region":[]}],"time":0}"#,
        says: "bad 5",
    },
    Bad {
        name: "a default of consent for regions, in an object",
        line: br#"{"args":{"consent":"default","region":[]}}"#,
        says: "bad 6",
    },
];

#[test]
fn bad_lines(rt: HostRuntime) -> Result<(), Fail> {
    let alloc = rt.alloc();
    for row in BAD {
        assert_eq!(rt; told(alloc, row.line)?.as_str(), row.says, "{}", row.name);
    }
    Ok(())
}
