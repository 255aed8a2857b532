use crate::judging::{container_in, with_templates};
use crate::model::only_text;
use std::test::Fail;

// A template of variables with a group, of whose fields two have one name, and with a permission
// that is not known.
const TEMPLATE: &str =
    "___INFO___\n{\"type\":\"MACRO\"}\n___TEMPLATE_PARAMETERS___\n[{\"type\":\"GROUP\",\"name\":\"g\",\"subParams\":[{\"type\":\"TEXT\",\"name\":\"a\"},{\"type\":\"SIMPLE_TABLE\",\"name\":\"t\"}]},{\"type\":\"PARAM_TABLE\",\"name\":\"a\"}]\n___SANDBOXED_JS_FOR_WEB_TEMPLATE___\nreturn 1;\n___WEB_PERMISSIONS___\n[{\"instance\":{\"key\":{\"publicId\":\"no_such\"}}},{\"instance\":{\"key\":{\"publicId\":\"logging\"}}}]\n";

// The same as one of tags, with neither parameters nor permissions.
const PLAIN: &str = "___INFO___\n{\"type\":\"TAG\"}\n___SANDBOXED_JS_FOR_WEB_TEMPLATE___\n";

#[test]
fn templates_as_they_are_read(rt: HostRuntime) -> Result<(), Fail> {
    let alloc = rt.alloc();
    let export = with_templates(alloc, "", &[TEMPLATE, PLAIN])?;
    let container = container_in(alloc, export.as_str().as_bytes())?;
    let [full, plain] = container.templates.as_slice() else {
        return Err("other than two templates".into());
    };
    assert!(rt; !full.is_tag, "a template of variables");
    let [text, table] = full.fields.as_slice() else {
        return Err("other than two fields".into());
    };
    assert_eq!(rt; text.name.as_str(), "a", "the first field");
    assert!(rt; !text.table, "a text");
    assert_eq!(rt; table.name.as_str(), "t", "the second field");
    assert!(rt; table.table, "a table");
    assert!(rt; only_text(&full.warnings, "no_such"), "what is not known");
    assert!(rt; plain.is_tag, "a template of tags");
    assert!(rt; plain.fields.is_empty(), "no fields");
    assert!(rt; plain.warnings.is_empty(), "no warnings");
    Ok(())
}
