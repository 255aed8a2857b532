use crate::telling::{Row, told};
use std::test::Fail;

// White space, comments and breaks.
const ROWS: &[Row] = &[
    ("", ""),
    (" ", ""),
    ("\t\u{b}\u{c} \u{a0}\u{feff}", ""),
    ("\u{1680}\u{2000}\u{200a}\u{202f}\u{205f}\u{3000}", ""),
    ("\n\r\u{2028}\u{2029}", ""),
    ("a", "N0-1"),
    (" a", "N1-2"),
    ("\na", "!N1-2"),
    ("\ra", "!N1-2"),
    ("\r\na", "!N2-3"),
    ("\u{2028}a", "!N3-4"),
    ("\u{2029}a", "!N3-4"),
    ("\u{a0}a", "N2-3"),
    ("\u{feff}a", "N3-4"),
    ("a b", "N0-1 N2-3"),
    ("a\nb", "N0-1 !N2-3"),
    ("a \n b c", "N0-1 !N4-5 N6-7"),
    ("//", ""),
    ("// c", ""),
    ("// c\n", ""),
    ("a// c", "N0-1"),
    ("a// c\nb", "N0-1 !N6-7"),
    ("a//\u{2028}b", "N0-1 !N6-7"),
    ("/**/", ""),
    ("/**/a", "N4-5"),
    ("a/* c */b", "N0-1 N8-9"),
    ("a/*\n*/b", "N0-1 !N6-7"),
    ("a/*\u{2029}*/b", "N0-1 !N8-9"),
    ("/***/a", "N5-6"),
    ("/* * / */a", "N9-10"),
    ("/*/*/a", "N5-6"),
    ("/* // */a", "N8-9"),
    ("// /* \na", "!N7-8"),
    ("/* a */ /* b */\nc", "!N16-17"),
    ("//a\r//b\r\nc", "!N9-10"),
    ("a/b", "N0-1 S1-2 N2-3"),
    ("a / b", "N0-1 S2-3 N4-5"),
    ("a/ /b", "N0-1 S1-2 S3-4 N4-5"),
    ("a/=/**/b", "N0-1 S1-3 N7-8"),
    ("/*", "refused 0"),
    ("/* *", "refused 0"),
    ("/*/", "refused 0"),
    ("a /* b", "refused 2"),
    ("a\n/* b", "refused 2"),
    ("// a\n/* b", "refused 5"),
    ("\u{85}", "refused 0"),
    ("\u{180e}", "refused 0"),
    ("\u{200b}", "refused 0"),
    ("a\u{85}", "refused 1"),
    ("é", "refused 0"),
    ("aé", "refused 1"),
    ("a \u{1f600}", "refused 2"),
    ("\u{0}", "refused 0"),
];

#[test]
fn between_tokens(rt: HostRuntime) -> Result<(), Fail> {
    let alloc = rt.alloc();
    for row in ROWS {
        assert_eq!(rt; told(alloc, row.0)?.as_str(), row.1, "{:?}", row.0);
    }
    Ok(())
}
