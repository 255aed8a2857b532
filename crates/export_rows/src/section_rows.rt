use crate::judging::{told, with_templates};
use std::test::Fail;

// The texts of custom templates, what uses them, and the rule that is broken with its path. The
// first template has the type `cvt_1_2`, the next one `cvt_1_3`. Rule 29 says that no other rule is
// broken: it has entries, of which none is run yet.
struct Row {
    name: &'static str,
    uses: &'static str,
    texts: &'static [&'static str],
    rule: u8,
    path: &'static str,
}

const SECTIONS: &[Row] = &[
    Row {
        name: "a template that breaks no rule of its own",
        uses: "",
        texts: &["___INFO___\n{\"type\":\"TAG\"}\n___SANDBOXED_JS_FOR_WEB_TEMPLATE___\n"],
        rule: 29,
        path: "/containerVersion/customTemplate/0",
    },
    Row {
        name: "each section, with carriage returns and without a last line feed",
        uses: r#""tag":[{"tagId":"1","name":"A","type":"cvt_1_2"}],"#,
        texts: &[
            "\r\n___INFO___\r\n\r\n{\"type\":\"T_a_g\"}\r\n___TERMS_OF_SERVICE___\r\nx\r\n___SANDBOXED_JS_FOR_WEB_TEMPLATE___\r\nvar a = \"___\";\r\n___WEB_PERMISSIONS___\r\n[]\r\n___TEMPLATE_PARAMETERS___\r\n[]\r\n___TESTS___",
        ],
        rule: 29,
        path: "/containerVersion/tag/0",
    },
    Row {
        name: "a tag of a template of variables",
        uses: r#""tag":[{"tagId":"1","name":"A","type":"cvt_1_2"}],"#,
        texts: &["___INFO___\n{\"type\":\"MACRO\"}\n___SANDBOXED_JS_FOR_WEB_TEMPLATE___\n"],
        rule: 15,
        path: "/containerVersion/tag/0/type",
    },
    Row {
        name: "a variable of a template of tags",
        uses: r#""variable":[{"variableId":"1","name":"V","type":"cvt_1_2"}],"#,
        texts: &["___INFO___\n{\"type\":\"TAG\"}\n___SANDBOXED_JS_FOR_WEB_TEMPLATE___\n"],
        rule: 15,
        path: "/containerVersion/variable/0/type",
    },
    // Rules 15 and 23.
    Row {
        name: "a tag of a template of variables with broken parameters",
        uses: r#""tag":[{"tagId":"1","name":"A","type":"cvt_1_2"}],"#,
        texts: &[
            "___INFO___\n{\"type\":\"MACRO\"}\n___TEMPLATE_PARAMETERS___\n{}\n___SANDBOXED_JS_FOR_WEB_TEMPLATE___\n",
        ],
        rule: 15,
        path: "/containerVersion/tag/0/type",
    },
    Row {
        name: "a heading that stands twice",
        uses: "",
        texts: &["___INFO___\n{}\n___INFO___\n"],
        rule: 19,
        path: "/containerVersion/customTemplate/0/templateData@14",
    },
    Row {
        name: "a heading that is read past stands twice, behind two bytes of text",
        uses: "",
        texts: &["\u{e9}\n___NOTES___\n___NOTES___\n"],
        rule: 19,
        path: "/containerVersion/customTemplate/0/templateData@15",
    },
    // Rules 19 and 20.
    Row {
        name: "a heading stands twice in the second template",
        uses: "",
        texts: &[
            "",
            "___INFO___\n{\"type\":\"TAG\"}\n___SANDBOXED_JS_FOR_WEB_TEMPLATE___\n___INFO___\n",
        ],
        rule: 19,
        path: "/containerVersion/customTemplate/1/templateData@62",
    },
    // Only a text with sections says that its template is one of variables.
    Row {
        name: "a tag of a template of variables in which a heading stands twice",
        uses: r#""tag":[{"tagId":"1","name":"A","type":"cvt_1_2"}],"#,
        texts: &[
            "___INFO___\n{\"type\":\"MACRO\"}\n___SANDBOXED_JS_FOR_WEB_TEMPLATE___\n___SANDBOXED_JS_FOR_WEB_TEMPLATE___\n",
        ],
        rule: 19,
        path: "/containerVersion/customTemplate/0/templateData@64",
    },
    Row {
        name: "an empty text",
        uses: "",
        texts: &[""],
        rule: 20,
        path: "/containerVersion/customTemplate/0/templateData",
    },
    Row {
        name: "no script",
        uses: "",
        texts: &[
            "___INFO___\n{\"type\":\"TAG\"}\n___SANDBOXED_JS_FOR_WEB_TEMPLATE___\n",
            "___INFO___\n{\"type\":\"TAG\"}\n",
        ],
        rule: 20,
        path: "/containerVersion/customTemplate/1/templateData",
    },
    Row {
        name: "a blank behind a heading",
        uses: "",
        texts: &["___INFO___\n{\"type\":\"TAG\"}\n___SANDBOXED_JS_FOR_WEB_TEMPLATE___ \n"],
        rule: 20,
        path: "/containerVersion/customTemplate/0/templateData",
    },
    // Rules 20 and 21.
    Row {
        name: "no INFO, and text before the first heading",
        uses: "",
        texts: &["x\n___SANDBOXED_JS_FOR_WEB_TEMPLATE___\n"],
        rule: 20,
        path: "/containerVersion/customTemplate/0/templateData",
    },
    Row {
        name: "text before the first heading",
        uses: "",
        texts: &[" \nx\n___INFO___\n{\"type\":\"TAG\"}\n___SANDBOXED_JS_FOR_WEB_TEMPLATE___\n"],
        rule: 21,
        path: "/containerVersion/customTemplate/0/templateData@2",
    },
    Row {
        name: "text behind a no-break space",
        uses: "",
        texts: &["\u{a0}a\n___INFO___\n{\"type\":\"TAG\"}\n___SANDBOXED_JS_FOR_WEB_TEMPLATE___\n"],
        rule: 21,
        path: "/containerVersion/customTemplate/0/templateData@2",
    },
    Row {
        name: "a byte order mark",
        uses: "",
        texts: &[
            "___INFO___\n{\"type\":\"TAG\"}\n___SANDBOXED_JS_FOR_WEB_TEMPLATE___\n",
            "\u{feff}\n___INFO___\n{\"type\":\"TAG\"}\n___SANDBOXED_JS_FOR_WEB_TEMPLATE___\n",
        ],
        rule: 21,
        path: "/containerVersion/customTemplate/1/templateData@0",
    },
    // Rules 21 and 22.
    Row {
        name: "text before the first heading, and an INFO without a type",
        uses: "",
        texts: &["x\n___INFO___\n{}\n___SANDBOXED_JS_FOR_WEB_TEMPLATE___\n"],
        rule: 21,
        path: "/containerVersion/customTemplate/0/templateData@0",
    },
    // Rules 10 and 20.
    Row {
        name: "a name that stands twice before every rule of a text",
        uses: r#""tag":[{"tagId":"1","name":"A","type":"html"},{"tagId":"2","name":"A","type":"html"}],"#,
        texts: &[""],
        rule: 10,
        path: "/containerVersion/tag/1",
    },
];

#[test]
fn broken_sections(rt: HostRuntime) -> Result<(), Fail> {
    let alloc = rt.alloc();
    for row in SECTIONS {
        let export = with_templates(alloc, row.uses, row.texts)?;
        let (rule, path) = told(alloc, export.as_str().as_bytes())?;
        assert_eq!(rt; rule, row.rule, "{}", row.name);
        assert_eq!(rt; path.as_str(), row.path, "{}", row.name);
    }
    Ok(())
}
