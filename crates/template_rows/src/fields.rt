use crate::telling::data;
use gtm_base::{OutOfMemory, Text};
use gtm_data::json_text;
use std::alloc::Global;
use std::test::Fail;
use template_fields::{FieldsEnd, fields_of, read_fields};

const TAG: &str = r#"{"type":"TAG"}"#;

// INFO, parameters, and what is read of them.
const ROWS: &[(&str, &str, &str)] = &[
    (TAG, "[]", "tag"),
    (r#"{"type":"MACRO"}"#, "[]", "macro"),
    (r#"{"type":"m_acro"}"#, "[]", "macro"),
    (r#"{"type":"CLIENT"}"#, "[]", "info"),
    ("{}", "[]", "info"),
    ("[]", "{}", "info"),
    (TAG, "{}", "fields"),
    (TAG, r#"[{"type":"TEXT","name":"a"}]"#, "tag a"),
    (TAG, r#"[{"type":"TEXT"}]"#, "fields"),
    (TAG, r#"[{"name":"a"}]"#, "fields"),
    (
        TAG,
        r#"[{"type":"GROUP","name":"g"},{"type":"LABEL"}]"#,
        "tag",
    ),
    (TAG, r#"[{"type":"GROUP"},5]"#, "fields"),
    (TAG, r#"[{"type":"OTHER","name":"a"}]"#, "tag a"),
    (
        TAG,
        r#"[{"type":"SIMPLE_TABLE","name":"a"},{"type":"PARAM_TABLE","name":"b"}]"#,
        "tag a# b#",
    ),
    (
        TAG,
        r#"[{"type":"GROUP","subParams":[{"type":"TEXT","name":"b",
            "subParams":[{"type":"TEXT","name":"c"}]}]},{"type":"TEXT","name":"a"}]"#,
        "tag b c a",
    ),
    (
        TAG,
        r#"[{"type":"RADIO","name":"r","radioItems":[{"value":"1"},
            {"value":"2","subParams":[{"type":"TEXT","name":"x"}]}],
            "subParams":[{"type":"TEXT","name":"s"}]}]"#,
        "tag r s x",
    ),
    (TAG, r#"[{"type":"GROUP","subParams":5}]"#, "fields"),
    (
        TAG,
        r#"[{"type":"GROUP","subParams":[{"type":"TEXT"}]}]"#,
        "fields",
    ),
    (TAG, r#"[{"type":"GROUP","radioItems":5}]"#, "tag"),
    (
        TAG,
        r#"[{"type":"GROUP","radioItems":[5,{"subParams":5}]}]"#,
        "fields",
    ),
    (
        TAG,
        r#"[{"type":"TEXT","name":"a"},{"type":"SIMPLE_TABLE","name":"a"}]"#,
        "tag a",
    ),
];

// Parameters, resolved members, and those of them that are fields.
const CHOSEN: &[(&str, &str, &str)] = &[
    (
        r#"[{"type":"TEXT","name":"b"},{"type":"TEXT","name":"a"},{"type":"TEXT","name":"c"}]"#,
        r#"{"a":1,"b":[2],"z":3}"#,
        r#"{"b":[2],"a":1}"#,
    ),
    ("[]", r#"{"a":1}"#, "{}"),
    (r#"[{"type":"TEXT","name":"a"}]"#, "5", "{}"),
];

fn told(alloc: Global, info: &str, parameters: &str) -> Result<Text, OutOfMemory> {
    let info = data(alloc, info)?;
    let parameters = data(alloc, parameters)?;
    let mut out = Text::new(alloc);
    match read_fields(alloc, &info, &parameters) {
        Ok((tag, fields)) => {
            out.push_str(if tag { "tag" } else { "macro" })?;
            for field in fields.as_slice() {
                out.push(' ')?;
                out.push_str(field.name.as_str())?;
                if field.table {
                    out.push('#')?;
                }
            }
        },
        Err(FieldsEnd::Info) => out.push_str("info")?,
        Err(FieldsEnd::Fields) => out.push_str("fields")?,
        Err(FieldsEnd::OutOfMemory) => return Err(OutOfMemory),
    }
    Ok(out)
}

fn chosen(alloc: Global, parameters: &str, resolved: &str) -> Result<Text, OutOfMemory> {
    let info = data(alloc, TAG)?;
    let parameters = data(alloc, parameters)?;
    let resolved = data(alloc, resolved)?;
    match read_fields(alloc, &info, &parameters) {
        Ok((_, fields)) => {
            let made = fields_of(alloc, &fields, &resolved)?;
            json_text(alloc, &made)
        },
        Err(_) => Err(OutOfMemory),
    }
}

#[test]
fn fields(rt: HostRuntime) -> Result<(), Fail> {
    let alloc = rt.alloc();
    for row in ROWS {
        assert_eq!(rt; told(alloc, row.0, row.1)?.as_str(), row.2, "{}", row.1);
    }
    for row in CHOSEN {
        assert_eq!(rt; chosen(alloc, row.0, row.1)?.as_str(), row.2, "{}", row.1);
    }
    Ok(())
}
