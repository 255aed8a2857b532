use crate::judging::Row;

/// Exports that are broken as a whole. Where a row breaks two rules, the least is told, also where
/// its path comes later.
pub const WHOLES: &[Row] = &[
    Row {
        name: "no text",
        text: b"",
        rule: 2,
        path: "",
    },
    Row {
        name: "an object that does not end",
        text: br#"{"exportFormatVersion":2,"containerVersion":{}"#,
        rule: 2,
        path: "",
    },
    Row {
        name: "no UTF-8",
        text: b"{\"exportFormatVersion\":2,\"containerVersion\":{\"containerVersionId\":\"\xff\"}}",
        rule: 2,
        path: "",
    },
    Row {
        name: "a text behind the export",
        text: br#"{"exportFormatVersion":2,"containerVersion":{}} {}"#,
        rule: 2,
        path: "",
    },
    Row {
        name: "a fraction in an unnamed field",
        text: br#"{"exportFormatVersion":2,"containerVersion":{"fingerprint":1.0}}"#,
        rule: 3,
        path: "/containerVersion/fingerprint",
    },
    Row {
        name: "an exponent in an unnamed list",
        text: br#"{"exportFormatVersion":2,"containerVersion":{"notes":[100,1e2]}}"#,
        rule: 3,
        path: "/containerVersion/notes/1",
    },
    // Rule 3 twice: the key B comes before the key a.
    Row {
        name: "two numbers past the range",
        text: br#"{"exportFormatVersion":2,"containerVersion":{"a":9007199254740992,"B":[9007199254740991,-9007199254740991,-9007199254740992]}}"#,
        rule: 3,
        path: "/containerVersion/B/2",
    },
    Row {
        name: "a List with 64 above it",
        text: br#"{"exportFormatVersion":2,"containerVersion":{"folder":[[[[[[[[[[[[[[[[[[[[[[[[[[[[[[[[[[[[[[[[[[[[[[[[[[[[[[[[[[[[[[[]]]]]]]]]]]]]]]]]]]]]]]]]]]]]]]]]]]]]]]]]]]]]]]]]]]]]]]]]]]]]]]}}"#,
        rule: 4,
        path: "/containerVersion/folder/0/0/0/0/0/0/0/0/0/0/0/0/0/0/0/0/0/0/0/0/0/0/0/0/0/0/0/0/0/0/0/0/0/0/0/0/0/0/0/0/0/0/0/0/0/0/0/0/0/0/0/0/0/0/0/0/0/0/0/0/0/0",
    },
    Row {
        name: "a Map with 64 above it",
        text: br#"{"exportFormatVersion":2,"containerVersion":{},"x":{"x":{"x":{"x":{"x":{"x":{"x":{"x":{"x":{"x":{"x":{"x":{"x":{"x":{"x":{"x":{"x":{"x":{"x":{"x":{"x":{"x":{"x":{"x":{"x":{"x":{"x":{"x":{"x":{"x":{"x":{"x":{"x":{"x":{"x":{"x":{"x":{"x":{"x":{"x":{"x":{"x":{"x":{"x":{"x":{"x":{"x":{"x":{"x":{"x":{"x":{"x":{"x":{"x":{"x":{"x":{"x":{"x":{"x":{"x":{"x":{"x":{"x":{"x":{}}}}}}}}}}}}}}}}}}}}}}}}}}}}}}}}}}}}}}}}}}}}}}}}}}}}}}}}}}}}}}}}}"#,
        rule: 4,
        path: "/x/x/x/x/x/x/x/x/x/x/x/x/x/x/x/x/x/x/x/x/x/x/x/x/x/x/x/x/x/x/x/x/x/x/x/x/x/x/x/x/x/x/x/x/x/x/x/x/x/x/x/x/x/x/x/x/x/x/x/x/x/x/x/x",
    },
    // Rules 3 and 5.
    Row {
        name: "a format that is not whole",
        text: br#"{"exportFormatVersion":2.0,"containerVersion":{}}"#,
        rule: 3,
        path: "/exportFormatVersion",
    },
    // Rules 3 and 4.
    Row {
        name: "Lists too deep before a fraction",
        text: br#"{"exportFormatVersion":2,"containerVersion":{"folder":[[[[[[[[[[[[[[[[[[[[[[[[[[[[[[[[[[[[[[[[[[[[[[[[[[[[[[[[[[[[[[[]]]]]]]]]]]]]]]]]]]]]]]]]]]]]]]]]]]]]]]]]]]]]]]]]]]]]]]]]]]]]]],"zone":0.5}}"#,
        rule: 3,
        path: "/containerVersion/zone",
    },
    // Rules 4 and 5.
    Row {
        name: "Lists too deep behind another format",
        text: br#"{"exportFormatVersion":3,"containerVersion":{},"x":[[[[[[[[[[[[[[[[[[[[[[[[[[[[[[[[[[[[[[[[[[[[[[[[[[[[[[[[[[[[[[[[]]]]]]]]]]]]]]]]]]]]]]]]]]]]]]]]]]]]]]]]]]]]]]]]]]]]]]]]]]]]]]]]}"#,
        rule: 4,
        path: "/x/0/0/0/0/0/0/0/0/0/0/0/0/0/0/0/0/0/0/0/0/0/0/0/0/0/0/0/0/0/0/0/0/0/0/0/0/0/0/0/0/0/0/0/0/0/0/0/0/0/0/0/0/0/0/0/0/0/0/0/0/0/0/0",
    },
    Row {
        name: "no format",
        text: br#"{"containerVersion":{}}"#,
        rule: 5,
        path: "/exportFormatVersion",
    },
    Row {
        name: "a format that is a text",
        text: br#"{"exportFormatVersion":"2","containerVersion":{}}"#,
        rule: 5,
        path: "/exportFormatVersion",
    },
    // Rules 5 and 6.
    Row {
        name: "another format and no container version",
        text: br#"{"exportFormatVersion":1}"#,
        rule: 5,
        path: "/exportFormatVersion",
    },
    // Rules 5 and 7.
    Row {
        name: "another format and no web",
        text: br#"{"exportFormatVersion":1,"containerVersion":{"container":{"usageContext":["AMP"]}}}"#,
        rule: 5,
        path: "/exportFormatVersion",
    },
    Row {
        name: "no container version",
        text: br#"{"exportFormatVersion":2}"#,
        rule: 6,
        path: "/containerVersion",
    },
    Row {
        name: "a container version that is a list",
        text: br#"{"exportFormatVersion":2,"containerVersion":[{}]}"#,
        rule: 6,
        path: "/containerVersion",
    },
];
