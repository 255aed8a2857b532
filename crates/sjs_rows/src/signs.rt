use crate::telling::{Row, told};
use sjs_syntax::{is_left_out, sign_at};
use std::test::Fail;

// The signs of the grammar that nothing else has.
const OWN: &[&str] = &[
    "{", "}", ";", "(", ")", "=", "+=", "-=", "*=", "/=", "%=", "?", ":", "||", "&&", "==", "!=",
    "===", "!==", "<", ">", "<=", ">=", "+", "-", "*", "/", "%", "!", "++", "--", ".", "[", "]",
];

// The signs that count as left out where no script can have them.
const LEFT_OUT: &[&str] = &[
    "&", "|", "^", "~", "<<", ">>", "**", "??", "?.", "=>", "...", "`", ",",
];

// Signs behind one another, and characters that begin none.
const ROWS: &[Row] = &[
    ("====", "S0-3 S3-4"),
    ("!===", "S0-3 S3-4"),
    ("=>=", "S0-2 S2-3"),
    ("....", "S0-3 S3-4"),
    ("..", "S0-1 S1-2"),
    ("+++", "S0-2 S2-3"),
    ("---", "S0-2 S2-3"),
    ("+=+", "S0-2 S2-3"),
    (">>>", "S0-2 S2-3"),
    (">>>=", "S0-2 S2-4"),
    ("<<=", "S0-2 S2-3"),
    ("**=", "S0-2 S2-3"),
    ("&&=", "S0-2 S2-3"),
    ("??=", "S0-2 S2-3"),
    ("???.", "S0-2 S2-4"),
    ("&|^~", "S0-1 S1-2 S2-3 S3-4"),
    ("`a`", "S0-1 N1-2 S2-3"),
    ("a?.b", "N0-1 S1-3 N3-4"),
    ("a?b:c", "N0-1 S1-2 N2-3 S3-4 N4-5"),
    ("a/=b", "N0-1 S1-3 N3-4"),
    ("({[]})", "S0-1 S1-2 S2-3 S3-4 S4-5 S5-6"),
    ("x=>x", "N0-1 S1-3 N3-4"),
    ("\\", "refused 0"),
    ("\\u0061", "refused 0"),
    ("#", "refused 0"),
    ("@", "refused 0"),
    ("a#", "refused 1"),
];

#[test]
fn signs(rt: HostRuntime) -> Result<(), Fail> {
    let alloc = rt.alloc();
    for row in ROWS {
        assert_eq!(rt; told(alloc, row.0)?.as_str(), row.1, "{:?}", row.0);
    }
    for sign in OWN {
        let says = format!(in alloc; "S0-{}", sign.len())?;
        assert_eq!(rt; told(alloc, sign)?.as_str(), says.as_str(), "{sign}");
        assert_eq!(rt; sign_at(sign), Some(*sign));
        assert!(rt; !is_left_out(sign), "{sign}");
    }
    for sign in LEFT_OUT {
        let says = format!(in alloc; "S0-{}", sign.len())?;
        assert_eq!(rt; told(alloc, sign)?.as_str(), says.as_str(), "{sign}");
        assert!(rt; is_left_out(sign), "{sign}");
    }
    Ok(())
}
