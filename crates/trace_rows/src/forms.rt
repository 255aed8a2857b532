use crate::telling::told;
use std::test::Fail;

// A line, and what it says.
struct Said {
    name: &'static str,
    line: &'static [u8],
    says: &'static str,
}

// Each form, and lines of blanks.
const FORMS: &[Said] = &[
    Said {
        name: "a page with all its members",
        line: br#"{"page":{"charset":"UTF-8","referrer":"https://a.example/","region":"US-CA","title":"T","url":"https://b.example/#f"}}"#,
        says: "page url=https://b.example/#f referrer=https://a.example/ title=T charset=UTF-8 region=US-CA",
    },
    Said {
        name: "a page with none",
        line: br#"{"page":{}}"#,
        says: "page",
    },
    Said {
        name: "an empty title",
        line: br#"{"page":{"title":""}}"#,
        says: "page title=",
    },
    Said {
        name: "a push of a Map",
        line: br#"{"push":{"event":"x","a.b":[1,null]}}"#,
        says: r#"push {"a.b":[1,null],"event":"x"}"#,
    },
    Said {
        name: "a push of a text, with blanks around it",
        line: b" \t{ \"push\" : \"x\" } \r",
        says: r#"push "x""#,
    },
    Said {
        name: "arguments",
        line: br#"{"args":["event","x",{"a":true}]}"#,
        says: r#"args ["event","x",{"a":true}]"#,
    },
    Said {
        name: "no arguments",
        line: br#"{"args":[]}"#,
        says: "args []",
    },
    Said {
        name: "an update of consent with a region",
        line: br#"{"args":["consent","update",{"region":["US"]}]}"#,
        says: r#"args ["consent","update",{"region":["US"]}]"#,
    },
    Said {
        name: "a default of consent with a member that ends so",
        line: br#"{"args":["consent","default",{"region2":1}]}"#,
        says: r#"args ["consent","default",{"region2":1}]"#,
    },
    Said {
        name: "the first load",
        line: br#"{"load":1,"ok":true}"#,
        says: "load 1 true",
    },
    Said {
        name: "a failed load, its members turned round",
        line: br#"{"ok":false,"load":9007199254740991}"#,
        says: "load 9007199254740991 false",
    },
    Said {
        name: "a vendor's tag",
        line: br#"{"vendor":2,"ok":false}"#,
        says: "vendor 2 false",
    },
    Said {
        name: "a cookie with two values",
        line: br#"{"cookie":"c","values":["a","","a"]}"#,
        says: "cookie c a||a|",
    },
    Said {
        name: "a cookie without a value",
        line: br#"{"values":[],"cookie":""}"#,
        says: "cookie  ",
    },
    Said {
        name: "a global",
        line: br#"{"global":"a.b","value":{"c":[]}}"#,
        says: r#"global a.b {"c":[]}"#,
    },
    Said {
        name: "a global function",
        line: br#"{"returns":null,"global":"f"}"#,
        says: "returns f null",
    },
    Said {
        name: "the first millisecond",
        line: br#"{"time":0}"#,
        says: "time 0",
    },
    Said {
        name: "a time",
        line: br#"{"time":1714557600000}"#,
        says: "time 1714557600000",
    },
    Said {
        name: "blanks alone",
        line: b" \t\r\r",
        says: "blank",
    },
    Said {
        name: "nothing",
        line: b"",
        says: "blank",
    },
];

#[test]
fn forms(rt: HostRuntime) -> Result<(), Fail> {
    let alloc = rt.alloc();
    for row in FORMS {
        assert_eq!(rt; told(alloc, row.line)?.as_str(), row.says, "{}", row.name);
    }
    Ok(())
}
