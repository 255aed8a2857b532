use gtm_base::{OutOfMemory, Text};
use std::alloc::Global;
use std::test::Fail;
use template_sections::{SectionEnd, Span, cut};

// A text, and where its sections lie or why it has none.
const ROWS: &[(&str, &str)] = &[
    ("___INFO___\n{}\n___INFO___\n", "repeated 14"),
    (
        "___INFO___\n{}\n___SANDBOXED_JS_FOR_WEB_TEMPLATE___\nx",
        "info 11-14 script 50-51",
    ),
    (
        "___INFO___\r\n{}\r\n___SANDBOXED_JS_FOR_WEB_TEMPLATE___\r\nx\r\n",
        "info 12-16 script 53-56",
    ),
    (
        "___SANDBOXED_JS_FOR_WEB_TEMPLATE___\n___INFO___",
        "info 46-46 script 36-36",
    ),
    ("___INFO___\n{}\n", "missing"),
    ("", "missing"),
    ("x\n", "missing"),
    (
        " \n x\n___INFO___\n___SANDBOXED_JS_FOR_WEB_TEMPLATE___\n",
        "before 3",
    ),
    (
        "\u{a0}\n\u{e9}\n___INFO___\n___SANDBOXED_JS_FOR_WEB_TEMPLATE___\n",
        "before 3",
    ),
    (
        " \n\t\n___INFO___\n___SANDBOXED_JS_FOR_WEB_TEMPLATE___\n",
        "info 15-15 script 51-51",
    ),
    ("x\n___NOTES___\n___NOTES___\n", "repeated 14"),
    ("x\n___INFO___\n", "missing"),
    (
        "___INFO___\n___\n____\n______\n___a___\n ___TESTS___\n___TESTS___ \n\
         ___SANDBOXED_JS_FOR_WEB_TEMPLATE___\n",
        "info 11-61 script 97-97",
    ),
    (
        "___INFO___\n_______\n___SANDBOXED_JS_FOR_WEB_TEMPLATE___\nlet a = ___INFO___;\n",
        "info 11-11 script 55-75",
    ),
    (
        "___TERMS_OF_SERVICE___\nt\n___INFO___\ni\n___TEMPLATE_PARAMETERS___\np\n\
         ___SANDBOXED_JS_FOR_WEB_TEMPLATE___\ns\n___WEB_PERMISSIONS___\nw\n___TESTS___\nt\n",
        "info 36-38 parameters 64-66 script 102-104 permissions 126-128 tests 140-142",
    ),
    ("___INFO___\r", "missing"),
];

fn told(alloc: Global, text: &str) -> Result<Text, OutOfMemory> {
    let mut out = Text::new(alloc);
    match cut(alloc, text) {
        Ok(sections) => {
            tell(&mut out, "info ", Some(sections.info))?;
            tell(&mut out, " parameters ", sections.parameters)?;
            tell(&mut out, " script ", Some(sections.script))?;
            tell(&mut out, " permissions ", sections.permissions)?;
            tell(&mut out, " tests ", sections.tests)?;
        },
        Err(SectionEnd::Repeated { place }) => place_after(&mut out, "repeated ", place)?,
        Err(SectionEnd::Missing) => out.push_str("missing")?,
        Err(SectionEnd::Before { place }) => place_after(&mut out, "before ", place)?,
        Err(SectionEnd::OutOfMemory) => return Err(OutOfMemory),
    }
    Ok(out)
}

fn tell(out: &mut Text, name: &str, span: Option<Span>) -> Result<(), OutOfMemory> {
    match span {
        Some(span) => {
            place_after(out, name, span.from)?;
            place_after(out, "-", span.to)
        },
        None => Ok(()),
    }
}

fn place_after(out: &mut Text, word: &str, place: usize) -> Result<(), OutOfMemory> {
    out.push_str(word)?;
    out.push_unsigned(place as u64)
}

#[test]
fn sections(rt: HostRuntime) -> Result<(), Fail> {
    let alloc = rt.alloc();
    for row in ROWS {
        assert_eq!(rt; told(alloc, row.0)?.as_str(), row.1, "{:?}", row.0);
    }
    Ok(())
}
