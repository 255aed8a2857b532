use crate::telling::told;
use gtm_base::{OutOfMemory, Text};
use std::alloc::Global;
use std::test::Fail;

// A line, and what it says.
struct Said {
    name: &'static str,
    line: &'static [u8],
    says: &'static str,
}

// Values of which one way of reading might make another thing than the next.
const VALUES: &[Said] = &[
    Said {
        name: "the greatest and the least number, and 0",
        line: br#"{"push":[0,9007199254740991,-9007199254740991]}"#,
        says: "push [0,9007199254740991,-9007199254740991]",
    },
    Said {
        name: "one over the greatest number, behind a good one",
        line: br#"{"push":[1,9007199254740992]}"#,
        says: "bad 3",
    },
    Said {
        name: "one under the least number, behind a good one",
        line: br#"{"push":{"a":1,"b":-9007199254740992}}"#,
        says: "bad 3",
    },
    Said {
        name: "a number of more than 64 bits",
        line: br#"{"push":[1,18446744073709551616]}"#,
        says: "bad 3",
    },
    Said {
        name: "minus 0, which is no whole number",
        line: br#"{"push":[0,-0]}"#,
        says: "bad 3",
    },
    Said {
        name: "a whole number with an exponent",
        line: br#"{"push":[10,1e1]}"#,
        says: "bad 3",
    },
    Said {
        name: "a whole number with a point",
        line: br#"{"push":[10,10.0]}"#,
        says: "bad 3",
    },
    Said {
        name: "a number with a zero before it",
        line: br#"{"push":[1,01]}"#,
        says: "bad 2",
    },
    Said {
        name: "a fraction in the last member of the last Map",
        line: br#"{"push":[{"a":1},{"a":2,"b":{"c":0.5}}]}"#,
        says: "bad 3",
    },
    Said {
        name: "a repeated key",
        line: br#"{"push":{"a":1,"b":2,"a":3}}"#,
        says: r#"push {"a":3,"b":2}"#,
    },
    Said {
        name: "a repeated form",
        line: br#"{"push":1,"push":2}"#,
        says: "push 2",
    },
    Said {
        name: "a key that an escape repeats",
        line: br#"{"push":{"a":1,"\u0061":2}}"#,
        says: r#"push {"a":2}"#,
    },
    Said {
        name: "a fraction that a repeated key takes the place of",
        line: br#"{"push":{"a":0.5,"a":1}}"#,
        says: r#"push {"a":1}"#,
    },
    Said {
        name: "a fraction that takes the place of a number",
        line: br#"{"push":{"a":1,"a":0.5}}"#,
        says: "bad 3",
    },
    Said {
        name: "a repeated key in an inner Map",
        line: br#"{"push":[{"a":{"b":1,"b":2}},{"b":3}]}"#,
        says: r#"push [{"a":{"b":2}},{"b":3}]"#,
    },
    Said {
        name: "the same key in two Maps",
        line: br#"{"push":{"a":{"a":1},"b":{"a":2}}}"#,
        says: r#"push {"a":{"a":1},"b":{"a":2}}"#,
    },
    Said {
        name: "keys in no order",
        line: br#"{"push":{"b":1,"a":2,"":3,"ab":4,"B":5}}"#,
        says: r#"push {"":3,"B":5,"a":2,"ab":4,"b":1}"#,
    },
    Said {
        name: "keys in the order of their bytes, which is not that of UTF-16",
        line: br#"{"push":{"\ud83d\ude00":1,"\uff5a":2}}"#,
        says: r#"push {"ｚ":2,"😀":1}"#,
    },
    Said {
        name: "escapes in keys and texts",
        line: br#"{"push":{"\u0022":"a\"b\\c\/d","e\n":"\u00e9\r\t\u0001"}}"#,
        says: r#"push {"\"":"a\"b\\c/d","e\n":"é\r\t\u0001"}"#,
    },
    Said {
        name: "half of a pair of surrogates",
        line: br#"{"push":["a","\ud83d"]}"#,
        says: "bad 2",
    },
    Said {
        name: "a control character in a text",
        line: b"{\"push\":[1,\"\x01\"]}",
        says: "bad 2",
    },
    Said {
        name: "a text in UTF-8",
        line: b"{\"push\":\"\xc3\xa9\xf0\x9f\x98\x80\"}",
        says: r#"push "é😀""#,
    },
    Said {
        name: "a text that is no UTF-8",
        line: b"{\"push\":[1,\"\xff\"]}",
        says: "bad 2",
    },
    Said {
        name: "a comma too many in a List",
        line: br#"{"push":[1,2,]}"#,
        says: "bad 2",
    },
    Said {
        name: "a member without a value",
        line: br#"{"push":{"a":1,"b"}}"#,
        says: "bad 2",
    },
    Said {
        name: "a key that is no text",
        line: br#"{"push":{"a":1,2:3}}"#,
        says: "bad 2",
    },
    Said {
        name: "a List that ends as a Map",
        line: br#"{"push":[1}}"#,
        says: "bad 2",
    },
    Said {
        name: "a value behind the line's own",
        line: br#"{"push":1} 1"#,
        says: "bad 2",
    },
    Said {
        name: "blanks within",
        line: b"{ \"push\" :\t[ 1 , { \"a\" : null , \"b\" : [ ] } ] }",
        says: r#"push [1,{"a":null,"b":[]}]"#,
    },
];

#[test]
fn values(rt: HostRuntime) -> Result<(), Fail> {
    let alloc = rt.alloc();
    for row in VALUES {
        assert_eq!(rt; told(alloc, row.line)?.as_str(), row.says, "{}", row.name);
    }
    Ok(())
}

// A key of two digits.
fn push_key(text: &mut Text, number: u64) -> Result<(), OutOfMemory> {
    text.push_str("\"")?;
    text.push_unsigned(number / 10 % 10)?;
    text.push_unsigned(number % 10)?;
    text.push_str("\":")?;
    text.push_unsigned(number)
}

// A Map of so many members, from the greatest key to the least or the other way round.
fn map_of(alloc: Global, members: u64, falling: bool) -> Result<Text, OutOfMemory> {
    let mut text = Text::from_str(alloc, "{")?;
    for number in 0..members {
        if number > 0 {
            text.push(',')?;
        }
        push_key(
            &mut text,
            if falling {
                members - 1 - number
            } else {
                number
            },
        )?;
    }
    text.push('}')?;
    Ok(text)
}

#[test]
fn maps_of_many_members(rt: HostRuntime) -> Result<(), Fail> {
    let alloc = rt.alloc();
    for members in [1, 63, 64, 65, 66, 100] {
        let mut line = Text::from_str(alloc, "{\"push\":")?;
        line.push_str(map_of(alloc, members, true)?.as_str())?;
        line.push('}')?;
        let mut says = Text::from_str(alloc, "push ")?;
        says.push_str(map_of(alloc, members, false)?.as_str())?;
        let said = told(alloc, line.as_str().as_bytes())?;
        assert_eq!(rt; said.as_str(), says.as_str(), "{members} members");
    }
    Ok(())
}

// So many Lists, one in the other, around a text.
fn lists_around(alloc: Global, lists: u64, inner: &str) -> Result<Text, OutOfMemory> {
    let mut text = Text::new(alloc);
    for _list in 0..lists {
        text.push('[')?;
    }
    text.push_str(inner)?;
    for _list in 0..lists {
        text.push(']')?;
    }
    Ok(text)
}

// A count of Lists in the last member of a Map that is pushed, and the rule that is broken, or 0.
struct Deep {
    lists: u64,
    inner: &'static str,
    rule: u64,
}

// A line may be 64 levels deep, and JSON 127. Two are the line's own Map and the one pushed.
const DEEP: &[Deep] = &[
    Deep {
        lists: 62,
        inner: "1",
        rule: 0,
    },
    Deep {
        lists: 61,
        inner: "{}",
        rule: 0,
    },
    Deep {
        lists: 63,
        inner: "1",
        rule: 4,
    },
    Deep {
        lists: 62,
        inner: "{}",
        rule: 4,
    },
    Deep {
        lists: 125,
        inner: "",
        rule: 4,
    },
    Deep {
        lists: 126,
        inner: "",
        rule: 2,
    },
];

#[test]
fn the_last_member_at_each_depth(rt: HostRuntime) -> Result<(), Fail> {
    let alloc = rt.alloc();
    for row in DEEP {
        let mut pushed = Text::from_str(alloc, "{\"a\":1,\"b\":")?;
        pushed.push_str(lists_around(alloc, row.lists, row.inner)?.as_str())?;
        pushed.push('}')?;
        let mut line = Text::from_str(alloc, "{\"push\":")?;
        line.push_str(pushed.as_str())?;
        line.push('}')?;
        let mut says = Text::from_str(alloc, if row.rule == 0 { "push " } else { "bad " })?;
        if row.rule == 0 {
            says.push_str(pushed.as_str())?;
        } else {
            says.push_unsigned(row.rule)?;
        }
        let said = told(alloc, line.as_str().as_bytes())?;
        assert_eq!(rt; said.as_str(), says.as_str(), "{} Lists", row.lists);
    }
    Ok(())
}

// A text with an escape behind so many letters, in quotes. It is read as it is written.
fn escaped_text(alloc: Global, letters: u64, escape: &str) -> Result<Text, OutOfMemory> {
    let mut text = Text::from_str(alloc, "\"")?;
    for _letter in 0..letters {
        text.push('a')?;
    }
    text.push_str(escape)?;
    text.push_str("z\"")?;
    Ok(text)
}

// The reader of JSON looks at 64 and at 4,096 bytes at once.
#[test]
fn escapes_at_each_edge(rt: HostRuntime) -> Result<(), Fail> {
    let alloc = rt.alloc();
    for first in [40u64, 100, 4070] {
        for more in 0..40u64 {
            for escape in ["\\n", "\\\"", "\\\\", "é"] {
                let text = escaped_text(alloc, first + more, escape)?;
                let mut line = Text::from_str(alloc, "{\"push\":")?;
                line.push_str(text.as_str())?;
                line.push('}')?;
                let mut says = Text::from_str(alloc, "push ")?;
                says.push_str(text.as_str())?;
                let said = told(alloc, line.as_str().as_bytes())?;
                assert_eq!(rt; said.as_str(), says.as_str(), "{first} and {more} letters");
            }
        }
    }
    Ok(())
}
