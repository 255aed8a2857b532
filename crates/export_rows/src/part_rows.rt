use crate::judging::{told, with_templates};
use std::test::Fail;

// The texts of custom templates, what uses them, and the rule that is broken with its path. The
// first template has the type `cvt_1_2`, the next one `cvt_1_3`. Rule 29 says that no other rule is
// broken: it has entries, of which none is run yet.
struct Row {
    name: &'static str,
    uses: &'static str,
    texts: &'static [&'static str],
    rule: u8,
    path: &'static str,
}

const PARTS: &[Row] = &[
    Row {
        name: "an INFO without a type",
        uses: "",
        texts: &["___INFO___\n{}\n___SANDBOXED_JS_FOR_WEB_TEMPLATE___\n"],
        rule: 22,
        path: "/containerVersion/customTemplate/0/templateData",
    },
    Row {
        name: "a type that is neither",
        uses: "",
        texts: &["___INFO___\n{\"type\":\"TAGS\"}\n___SANDBOXED_JS_FOR_WEB_TEMPLATE___\n"],
        rule: 22,
        path: "/containerVersion/customTemplate/0/templateData",
    },
    Row {
        name: "a number in INFO that is not whole",
        uses: "",
        texts: &[
            "___INFO___\n{\"type\":\"TAG\"}\n___SANDBOXED_JS_FOR_WEB_TEMPLATE___\n",
            "___INFO___\n{\"type\":\"TAG\",\"version\":1.5}\n___SANDBOXED_JS_FOR_WEB_TEMPLATE___\n",
        ],
        rule: 22,
        path: "/containerVersion/customTemplate/1/templateData",
    },
    Row {
        name: "an INFO that is no JSON, and a tag of it",
        uses: r#""tag":[{"tagId":"1","name":"A","type":"cvt_1_2"}],"#,
        texts: &["___INFO___\n___SANDBOXED_JS_FOR_WEB_TEMPLATE___\n"],
        rule: 22,
        path: "/containerVersion/customTemplate/0/templateData",
    },
    // Rules 22 and 23.
    Row {
        name: "an INFO that is a list in the second template, and parameters that are none in the first",
        uses: "",
        texts: &[
            "___INFO___\n{\"type\":\"TAG\"}\n___TEMPLATE_PARAMETERS___\n{}\n___SANDBOXED_JS_FOR_WEB_TEMPLATE___\n",
            "___INFO___\n[]\n___SANDBOXED_JS_FOR_WEB_TEMPLATE___\n",
        ],
        rule: 22,
        path: "/containerVersion/customTemplate/1/templateData",
    },
    Row {
        name: "parameters that are no list",
        uses: "",
        texts: &[
            "___INFO___\n{\"type\":\"TAG\"}\n___TEMPLATE_PARAMETERS___\n{}\n___SANDBOXED_JS_FOR_WEB_TEMPLATE___\n",
        ],
        rule: 23,
        path: "/containerVersion/customTemplate/0/templateData",
    },
    Row {
        name: "a field without a name",
        uses: "",
        texts: &[
            "___INFO___\n{\"type\":\"TAG\"}\n___SANDBOXED_JS_FOR_WEB_TEMPLATE___\n",
            "___INFO___\n{\"type\":\"TAG\"}\n___TEMPLATE_PARAMETERS___\n[{\"type\":\"TEXT\"}]\n___SANDBOXED_JS_FOR_WEB_TEMPLATE___\n",
        ],
        rule: 23,
        path: "/containerVersion/customTemplate/1/templateData",
    },
    Row {
        name: "sub-parameters of a group that are no list",
        uses: "",
        texts: &[
            "___INFO___\n{\"type\":\"TAG\"}\n___TEMPLATE_PARAMETERS___\n[{\"type\":\"GROUP\",\"subParams\":{}}]\n___SANDBOXED_JS_FOR_WEB_TEMPLATE___\n",
        ],
        rule: 23,
        path: "/containerVersion/customTemplate/0/templateData",
    },
    Row {
        name: "a sub-parameter of a radio item without a name",
        uses: "",
        texts: &[
            "___INFO___\n{\"type\":\"TAG\"}\n___TEMPLATE_PARAMETERS___\n[{\"type\":\"RADIO\",\"name\":\"r\",\"radioItems\":[{\"subParams\":[{\"type\":\"TEXT\"}]}]}]\n___SANDBOXED_JS_FOR_WEB_TEMPLATE___\n",
        ],
        rule: 23,
        path: "/containerVersion/customTemplate/0/templateData",
    },
    Row {
        name: "an empty section of parameters",
        uses: "",
        texts: &[
            "___INFO___\n{\"type\":\"TAG\"}\n___TEMPLATE_PARAMETERS___\n\n___SANDBOXED_JS_FOR_WEB_TEMPLATE___\n",
        ],
        rule: 23,
        path: "/containerVersion/customTemplate/0/templateData",
    },
    Row {
        name: "a text for a table",
        uses: r#""tag":[{"tagId":"1","name":"A","type":"cvt_1_2","parameter":[{"type":"TEMPLATE","key":"a"},{"type":"TEMPLATE","key":"t","value":"x"}]}],"#,
        texts: &[
            "___INFO___\n{\"type\":\"TAG\"}\n___TEMPLATE_PARAMETERS___\n[{\"type\":\"SIMPLE_TABLE\",\"name\":\"t\"}]\n___SANDBOXED_JS_FOR_WEB_TEMPLATE___\n",
        ],
        rule: 24,
        path: "/containerVersion/tag/0/parameter/1",
    },
    Row {
        name: "a list with a text in it for a table under a group",
        uses: r#""variable":[{"variableId":"1","name":"V","type":"cvt_1_2","parameter":[{"type":"LIST","key":"t","list":[{"type":"MAP"},{"type":"TEMPLATE"}]}]}],"#,
        texts: &[
            "___INFO___\n{\"type\":\"MACRO\"}\n___TEMPLATE_PARAMETERS___\n[{\"type\":\"GROUP\",\"subParams\":[{\"type\":\"PARAM_TABLE\",\"name\":\"t\"}]}]\n___SANDBOXED_JS_FOR_WEB_TEMPLATE___\n",
        ],
        rule: 24,
        path: "/containerVersion/variable/0/parameter/0",
    },
    Row {
        name: "lists of maps for a table, and a text for another field",
        uses: r#""tag":[{"tagId":"1","name":"A","type":"cvt_1_2","parameter":[{"type":"LIST","key":"t","list":[{"type":"MAP"},{"type":"MAP"}]},{"type":"LIST","key":"t"},{"type":"TEMPLATE","key":"b"}]}],"#,
        texts: &[
            "___INFO___\n{\"type\":\"TAG\"}\n___TEMPLATE_PARAMETERS___\n[{\"type\":\"SIMPLE_TABLE\",\"name\":\"t\"},{\"type\":\"TEXT\",\"name\":\"b\"}]\n___SANDBOXED_JS_FOR_WEB_TEMPLATE___\n",
        ],
        rule: 29,
        path: "/containerVersion/tag/0",
    },
    Row {
        name: "a text for a field whose name a table has too, behind it",
        uses: r#""tag":[{"tagId":"1","name":"A","type":"cvt_1_2","parameter":[{"type":"TEMPLATE","key":"t"}]}],"#,
        texts: &[
            "___INFO___\n{\"type\":\"TAG\"}\n___TEMPLATE_PARAMETERS___\n[{\"type\":\"TEXT\",\"name\":\"t\"},{\"type\":\"SIMPLE_TABLE\",\"name\":\"t\"}]\n___SANDBOXED_JS_FOR_WEB_TEMPLATE___\n",
        ],
        rule: 29,
        path: "/containerVersion/tag/0",
    },
    Row {
        name: "a later parameter of a key for a table",
        uses: r#""tag":[{"tagId":"1","name":"A","type":"cvt_1_2","parameter":[{"type":"LIST","key":"t"},{"type":"BOOLEAN","key":"t","value":"true"}]}],"#,
        texts: &[
            "___INFO___\n{\"type\":\"TAG\"}\n___TEMPLATE_PARAMETERS___\n[{\"type\":\"SIMPLE_TABLE\",\"name\":\"t\"}]\n___SANDBOXED_JS_FOR_WEB_TEMPLATE___\n",
        ],
        rule: 24,
        path: "/containerVersion/tag/0/parameter/1",
    },
    // Rules 24 and 25.
    Row {
        name: "a text for a table, and permissions that are no list",
        uses: r#""tag":[{"tagId":"1","name":"A","type":"cvt_1_2","parameter":[{"type":"MAP","key":"t"}]}],"#,
        texts: &[
            "___INFO___\n{\"type\":\"TAG\"}\n___TEMPLATE_PARAMETERS___\n[{\"type\":\"SIMPLE_TABLE\",\"name\":\"t\"}]\n___WEB_PERMISSIONS___\n{}\n___SANDBOXED_JS_FOR_WEB_TEMPLATE___\n",
        ],
        rule: 24,
        path: "/containerVersion/tag/0/parameter/0",
    },
    Row {
        name: "permissions that are no list",
        uses: "",
        texts: &[
            "___INFO___\n{\"type\":\"TAG\"}\n___WEB_PERMISSIONS___\n{}\n___SANDBOXED_JS_FOR_WEB_TEMPLATE___\n",
        ],
        rule: 25,
        path: "/containerVersion/customTemplate/0/templateData",
    },
    Row {
        name: "a permission without a name",
        uses: "",
        texts: &[
            "___INFO___\n{\"type\":\"TAG\"}\n___SANDBOXED_JS_FOR_WEB_TEMPLATE___\n",
            "___INFO___\n{\"type\":\"TAG\"}\n___WEB_PERMISSIONS___\n[{\"instance\":{\"key\":{\"versionId\":\"1\"}}}]\n___SANDBOXED_JS_FOR_WEB_TEMPLATE___\n",
        ],
        rule: 25,
        path: "/containerVersion/customTemplate/1/templateData",
    },
    Row {
        name: "a parameter of a permission without a key",
        uses: "",
        texts: &[
            "___INFO___\n{\"type\":\"TAG\"}\n___WEB_PERMISSIONS___\n[{\"instance\":{\"key\":{\"publicId\":\"logging\"},\"param\":[{}]}}]\n___SANDBOXED_JS_FOR_WEB_TEMPLATE___\n",
        ],
        rule: 25,
        path: "/containerVersion/customTemplate/0/templateData",
    },
    Row {
        name: "a permission that is not known",
        uses: "",
        texts: &[
            "___INFO___\n{\"type\":\"TAG\"}\n___WEB_PERMISSIONS___\n[{\"instance\":{\"key\":{\"publicId\":\"no_such\"}}}]\n___SANDBOXED_JS_FOR_WEB_TEMPLATE___\n",
        ],
        rule: 29,
        path: "/containerVersion/customTemplate/0",
    },
];

#[test]
fn broken_parts(rt: HostRuntime) -> Result<(), Fail> {
    let alloc = rt.alloc();
    for row in PARTS {
        let export = with_templates(alloc, row.uses, row.texts)?;
        let (rule, path) = told(alloc, export.as_str().as_bytes())?;
        assert_eq!(rt; rule, row.rule, "{}", row.name);
        assert_eq!(rt; path.as_str(), row.path, "{}", row.name);
    }
    Ok(())
}
