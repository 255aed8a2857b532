use crate::judging::{Row, told, with_version};
use std::test::Fail;

// Members of a container version, with names, references and rings. Rule 29 says that no other rule
// is broken: it has entries, of which none is run yet.
const REFERENCES: &[Row] = &[
    Row {
        name: "a firing trigger that is none",
        text: br#""tag":[{"tagId":"1","name":"A","type":"html","firingTriggerId":["7"]}]"#,
        rule: 11,
        path: "/containerVersion/tag/0/firingTriggerId/0",
    },
    Row {
        name: "a blocking trigger that is none, behind one that is",
        text: br#""tag":[{"tagId":"1","name":"A","type":"html","firingTriggerId":["1"],"blockingTriggerId":["1","2"]}],"trigger":[{"triggerId":"1","type":"CLICK"}]"#,
        rule: 11,
        path: "/containerVersion/tag/0/blockingTriggerId/1",
    },
    Row {
        name: "the last number that is not reserved",
        text: br#""tag":[{"tagId":"1","name":"A","type":"html","firingTriggerId":["2147479000","2147478999"]}]"#,
        rule: 11,
        path: "/containerVersion/tag/0/firingTriggerId/1",
    },
    Row {
        name: "reserved numbers of any length",
        text: br#""tag":[{"tagId":"1","name":"A","type":"html","firingTriggerId":["2147479553","2147479572","2147479573","2147479999","99999999999999999999999999"],"blockingTriggerId":["02147479000"]}]"#,
        rule: 29,
        path: "/containerVersion/tag/0",
    },
    Row {
        name: "a reserved number with a sign",
        text: br#""tag":[{"tagId":"1","name":"A","type":"html","firingTriggerId":["+2147479999"]}]"#,
        rule: 11,
        path: "/containerVersion/tag/0/firingTriggerId/0",
    },
    Row {
        name: "a trigger of the container's own with a reserved number",
        text: br#""tag":[{"tagId":"1","name":"A","type":"html","firingTriggerId":["2147479553"]}],"trigger":[{"triggerId":"2147479553","type":"CLICK"}]"#,
        rule: 29,
        path: "/containerVersion/tag/0",
    },
    Row {
        name: "a member that is none",
        text: br#""trigger":[{"triggerId":"1","type":"TRIGGER_GROUP","parameter":[{"type":"LIST","key":"triggerIds","list":[{"type":"TRIGGER_REFERENCE","value":"2147479553"},{"type":"TRIGGER_REFERENCE","value":"9"}]}]}]"#,
        rule: 11,
        path: "/containerVersion/trigger/0/parameter/0/list/1/value",
    },
    Row {
        name: "a member without a value, in the first list of members",
        text: br#""trigger":[{"triggerId":"1","type":"TRIGGER_GROUP","parameter":[{"type":"TEMPLATE","key":"triggerIds","value":"9"},{"type":"LIST","key":"triggerIds","list":[{"type":"TRIGGER_REFERENCE"}]},{"type":"LIST","key":"triggerIds","list":[{"type":"TRIGGER_REFERENCE","value":"9"}]}]}]"#,
        rule: 11,
        path: "/containerVersion/trigger/0/parameter/1/list/0/value",
    },
    Row {
        name: "members of a trigger that is no group",
        text: br#""trigger":[{"triggerId":"1","type":"CLICK","parameter":[{"type":"LIST","key":"triggerIds","list":[{"type":"TRIGGER_REFERENCE","value":"9"}]}]}]"#,
        rule: 29,
        path: "/containerVersion/trigger/0",
    },
    Row {
        name: "a tag's number before a member's",
        text: br#""tag":[{"tagId":"1","name":"A","type":"html"},{"tagId":"2","name":"B","type":"html","blockingTriggerId":["8"]}],"trigger":[{"triggerId":"1","type":"TRIGGER_GROUP","parameter":[{"type":"LIST","key":"triggerIds","list":[{"type":"TRIGGER_REFERENCE","value":"9"}]}]}]"#,
        rule: 11,
        path: "/containerVersion/tag/1/blockingTriggerId/0",
    },
    Row {
        name: "a setup tag that is none",
        text: br#""tag":[{"tagId":"1","name":"A","type":"html","setupTag":[{"tagName":"B"}]}]"#,
        rule: 14,
        path: "/containerVersion/tag/0/setupTag/0/tagName",
    },
    Row {
        name: "a teardown tag without a name",
        text: br#""tag":[{"tagId":"1","name":"A","type":"html","teardownTag":[{"tagName":"B"}]},{"tagId":"2","name":"B","type":"html","teardownTag":[{}]}]"#,
        rule: 14,
        path: "/containerVersion/tag/1/teardownTag/0/tagName",
    },
    Row {
        name: "a setup and a teardown tag that are none",
        text: br#""tag":[{"tagId":"1","name":"A","type":"html","teardownTag":[{"tagName":"C"}],"setupTag":[{"tagName":"B"}]}]"#,
        rule: 14,
        path: "/containerVersion/tag/0/setupTag/0/tagName",
    },
    Row {
        name: "a tag as its own setup tag",
        text: br#""tag":[{"tagId":"1","name":"A","type":"html","setupTag":[{"tagName":"A"}]}]"#,
        rule: 29,
        path: "/containerVersion/tag/0",
    },
    // Rules 11 and 14.
    Row {
        name: "a setup tag that is none before a trigger that is none",
        text: br#""tag":[{"tagId":"1","name":"A","type":"html","setupTag":[{"tagName":"C"}]},{"tagId":"2","name":"B","type":"html","firingTriggerId":["7"]}]"#,
        rule: 11,
        path: "/containerVersion/tag/1/firingTriggerId/0",
    },
    Row {
        name: "a tag of a template that is none",
        text: br#""tag":[{"tagId":"1","name":"A","type":"cvt_1_2"}]"#,
        rule: 15,
        path: "/containerVersion/tag/0/type",
    },
    Row {
        name: "a variable of a template that is none",
        text: br#""tag":[{"tagId":"1","name":"A","type":"cvt_1_2"}],"variable":[{"variableId":"1","name":"V","type":"cvt_1_3"}],"customTemplate":[{"templateId":"2","containerId":"1","templateData":""}]"#,
        rule: 15,
        path: "/containerVersion/variable/0/type",
    },
    Row {
        name: "templates by their container and by the gallery",
        text: br#""tag":[{"tagId":"1","name":"A","type":"cvt_1_2"},{"tagId":"2","name":"B","type":"cvt_X"}],"customTemplate":[{"templateId":"2","containerId":"1","templateData":"___INFO___\n{\"type\":\"TAG\"}\n___SANDBOXED_JS_FOR_WEB_TEMPLATE___\n","galleryReference":{"galleryTemplateId":"X"}}]"#,
        rule: 29,
        path: "/containerVersion/tag/0",
    },
    Row {
        name: "a type with other letters",
        text: br#""tag":[{"tagId":"1","name":"A","type":"CVT_1_2"}],"variable":[{"variableId":"1","name":"V","type":"cvt"}]"#,
        rule: 29,
        path: "/containerVersion/tag/0",
    },
    // Rules 14 and 15.
    Row {
        name: "a template that is none, and a setup tag that is none",
        text: br#""tag":[{"tagId":"1","name":"A","type":"cvt_1_2"},{"tagId":"2","name":"B","type":"html","setupTag":[{"tagName":"C"}]}]"#,
        rule: 14,
        path: "/containerVersion/tag/1/setupTag/0/tagName",
    },
    Row {
        name: "a variable that names itself",
        text: br#""variable":[{"variableId":"1","name":"A","type":"c","parameter":[{"type":"TEMPLATE","key":"value","value":"{{A}}"}]}]"#,
        rule: 16,
        path: "/containerVersion/variable/0",
    },
    Row {
        name: "two variables that name each other, behind one that names them",
        text: br#""variable":[{"variableId":"1","name":"C","type":"c","parameter":[{"type":"TEMPLATE","key":"value","value":"{{A}}"}]},{"variableId":"2","name":"A","type":"c","parameter":[{"type":"TEMPLATE","key":"value","value":"{{B}}"}]},{"variableId":"3","name":"B","type":"c","parameter":[{"type":"TEMPLATE","key":"value","value":"{{A}}"}]}]"#,
        rule: 16,
        path: "/containerVersion/variable/1",
    },
    Row {
        name: "a long way back to the second",
        text: br#""variable":[{"variableId":"1","name":"A","type":"c","parameter":[{"type":"TEMPLATE","key":"value","value":"{{B}}"}]},{"variableId":"2","name":"B","type":"c","parameter":[{"type":"TEMPLATE","key":"value","value":"{{C}}"}]},{"variableId":"3","name":"C","type":"c","parameter":[{"type":"TEMPLATE","key":"value","value":"{{D}}"}]},{"variableId":"4","name":"D","type":"c","parameter":[{"type":"TEMPLATE","key":"value","value":"{{E}}"}]},{"variableId":"5","name":"E","type":"c","parameter":[{"type":"TEMPLATE","key":"value","value":"{{B}}"}]}]"#,
        rule: 16,
        path: "/containerVersion/variable/1",
    },
    Row {
        name: "a way back through a format",
        text: br#""variable":[{"variableId":"1","name":"A","type":"c","parameter":[{"type":"TEMPLATE","key":"value","value":"a"}],"formatValue":{"convertNullToValue":{"type":"TEMPLATE","value":"{{B}}"}}},{"variableId":"2","name":"B","type":"c","parameter":[{"type":"TEMPLATE","key":"value","value":"{{A}}"}]}]"#,
        rule: 16,
        path: "/containerVersion/variable/0",
    },
    Row {
        name: "a way back through the last field of a format",
        text: br#""variable":[{"variableId":"1","name":"A","type":"c","parameter":[{"type":"TEMPLATE","key":"value","value":"a"}],"formatValue":{"convertFalseToValue":{"type":"BOOLEAN","value":"{{A}}"}}}]"#,
        rule: 16,
        path: "/containerVersion/variable/0",
    },
    Row {
        name: "a way back through the rows of a table",
        text: br#""variable":[{"variableId":"1","name":"A","type":"smm","parameter":[{"type":"TEMPLATE","key":"input","value":"a"},{"type":"LIST","key":"map","list":[{"type":"MAP","map":[{"type":"TEMPLATE","key":"key","value":"a"},{"type":"TEMPLATE","key":"value","value":"{{B}}"}]}]}]},{"variableId":"2","name":"B","type":"c","parameter":[{"type":"TEMPLATE","key":"value","value":"x{{C}}{{A}}"}]}]"#,
        rule: 16,
        path: "/containerVersion/variable/0",
    },
    Row {
        name: "two rings, the first of one variable",
        text: br#""variable":[{"variableId":"1","name":"D","type":"c","parameter":[{"type":"TEMPLATE","key":"value","value":"d"}]},{"variableId":"2","name":"C","type":"c","parameter":[{"type":"TEMPLATE","key":"value","value":"{{D}}{{C}}"}]},{"variableId":"3","name":"A","type":"c","parameter":[{"type":"TEMPLATE","key":"value","value":"{{B}}"}]},{"variableId":"4","name":"B","type":"c","parameter":[{"type":"TEMPLATE","key":"value","value":"{{A}}"}]}]"#,
        rule: 16,
        path: "/containerVersion/variable/1",
    },
    Row {
        name: "a built-in variable of the same name",
        text: br#""variable":[{"variableId":"1","name":"A","type":"c","parameter":[{"type":"TEMPLATE","key":"value","value":"{{A}}"}]}],"builtInVariable":[{"type":"EVENT","name":"A"}]"#,
        rule: 16,
        path: "/containerVersion/variable/0",
    },
    Row {
        name: "a built-in variable, a name that nothing has, and the event's name",
        text: br#""variable":[{"variableId":"1","name":"A","type":"c","parameter":[{"type":"TEMPLATE","key":"value","value":"{{B}}{{C}}"}]},{"variableId":"2","name":"_event","type":"c","parameter":[{"type":"TEMPLATE","key":"value","value":"{{_event}}"}]}],"builtInVariable":[{"type":"EVENT","name":"B"}]"#,
        rule: 29,
        path: "/containerVersion/variable/0",
    },
    Row {
        name: "a name that is not closed",
        text: br#""variable":[{"variableId":"1","name":"A","type":"c","parameter":[{"type":"TEMPLATE","key":"value","value":"{{A"}]},{"variableId":"2","name":"B","type":"c","parameter":[{"type":"TEMPLATE","key":"value","value":"{{A}} }}B{{"}]},{"variableId":"3","name":"C","type":"c","parameter":[{"type":"TEMPLATE","key":"value","value":"{C}"}]}]"#,
        rule: 29,
        path: "/containerVersion/variable/0",
    },
    Row {
        name: "a reference to a trigger that looks like a name",
        text: br#""variable":[{"variableId":"1","name":"A","type":"c","parameter":[{"type":"TRIGGER_REFERENCE","key":"value","value":"{{A}}"}]}]"#,
        rule: 29,
        path: "/containerVersion/variable/0",
    },
    Row {
        name: "a group that is its own member",
        text: br#""trigger":[{"triggerId":"1","type":"TRIGGER_GROUP","parameter":[{"type":"LIST","key":"triggerIds","list":[{"type":"TRIGGER_REFERENCE","value":"1"}]}]}]"#,
        rule: 17,
        path: "/containerVersion/trigger/0",
    },
    Row {
        name: "two groups of each other, behind a trigger of theirs",
        text: br#""trigger":[{"triggerId":"1","type":"CLICK"},{"triggerId":"2","type":"TRIGGER_GROUP","parameter":[{"type":"LIST","key":"triggerIds","list":[{"type":"TRIGGER_REFERENCE","value":"3"}]}]},{"triggerId":"3","type":"TRIGGER_GROUP","parameter":[{"type":"LIST","key":"triggerIds","list":[{"type":"TRIGGER_REFERENCE","value":"1"},{"type":"TRIGGER_REFERENCE","value":"2"}]}]}]"#,
        rule: 17,
        path: "/containerVersion/trigger/1",
    },
    Row {
        name: "a group whose condition names a variable of its number",
        text: br#""trigger":[{"triggerId":"1","type":"TRIGGER_GROUP","parameter":[{"type":"LIST","key":"triggerIds","list":[{"type":"TRIGGER_REFERENCE","value":"2"}]}],"filter":[{"type":"EQUALS","parameter":[{"type":"TEMPLATE","key":"arg0","value":"{{1}}"}]}]},{"triggerId":"2","type":"CLICK"}],"variable":[{"variableId":"1","name":"1","type":"c","parameter":[{"type":"TEMPLATE","key":"value","value":"a"}]}]"#,
        rule: 29,
        path: "/containerVersion/trigger/0",
    },
    // Rules 16 and 17.
    Row {
        name: "a variable and a group of themselves",
        text: br#""trigger":[{"triggerId":"1","type":"TRIGGER_GROUP","parameter":[{"type":"LIST","key":"triggerIds","list":[{"type":"TRIGGER_REFERENCE","value":"1"}]}]}],"variable":[{"variableId":"1","name":"A","type":"c","parameter":[{"type":"TEMPLATE","key":"value","value":"{{A}}"}]}]"#,
        rule: 16,
        path: "/containerVersion/variable/0",
    },
    Row {
        name: "a priority that is no whole number",
        text: br#""tag":[{"tagId":"1","name":"A","type":"html","priority":{"type":"INTEGER","value":"5.0"}}]"#,
        rule: 18,
        path: "/containerVersion/tag/0/priority",
    },
    Row {
        name: "a priority without a value, behind one with",
        text: br#""tag":[{"tagId":"1","name":"A","type":"html","priority":{"type":"TEMPLATE","value":"-5"}},{"tagId":"2","name":"B","type":"html","priority":{"type":"INTEGER"}},{"tagId":"3","name":"C","type":"html"}]"#,
        rule: 18,
        path: "/containerVersion/tag/1/priority",
    },
    // Rules 17 and 18.
    Row {
        name: "a priority that is no whole number, and a group of itself",
        text: br#""tag":[{"tagId":"1","name":"A","type":"html","priority":{"type":"INTEGER","value":"x"}}],"trigger":[{"triggerId":"1","type":"TRIGGER_GROUP","parameter":[{"type":"LIST","key":"triggerIds","list":[{"type":"TRIGGER_REFERENCE","value":"1"}]}]}]"#,
        rule: 17,
        path: "/containerVersion/trigger/0",
    },
    // Rules 10 and 11.
    Row {
        name: "two tags of one name, and a trigger that is none",
        text: br#""tag":[{"tagId":"1","name":"A","type":"html","firingTriggerId":["7"]},{"tagId":"2","name":"A","type":"html"}]"#,
        rule: 10,
        path: "/containerVersion/tag/1",
    },
    // Rules 15 and 16.
    Row {
        name: "a template that is none, and a variable that names itself",
        text: br#""tag":[{"tagId":"1","name":"A","type":"cvt_1_2"}],"variable":[{"variableId":"1","name":"A","type":"c","parameter":[{"type":"TEMPLATE","key":"value","value":"{{A}}"}]}]"#,
        rule: 15,
        path: "/containerVersion/tag/0/type",
    },
];

#[test]
fn references_and_rings(rt: HostRuntime) -> Result<(), Fail> {
    let alloc = rt.alloc();
    for row in REFERENCES {
        let export = with_version(alloc, row.text)?;
        let (rule, path) = told(alloc, &export)?;
        assert_eq!(rt; rule, row.rule, "{}", row.name);
        assert_eq!(rt; path.as_str(), row.path, "{}", row.name);
    }
    Ok(())
}

// Members of a container version, with entries of each kind: none of them is run yet.
const ENTRIES: &[Row] = &[
    Row {
        name: "no entry",
        text: b"",
        rule: 0,
        path: "",
    },
    Row {
        name: "a name and empty lists",
        text: br#""container":{"publicId":"GTM-ABC123"},"tag":[],"trigger":[],"variable":[],"builtInVariable":[],"customTemplate":[],"folder":[{}]"#,
        rule: 0,
        path: "",
    },
    Row {
        name: "a tag that fires on every page",
        text: br#""tag":[{"tagId":"1","name":"A","type":"html","firingTriggerId":["2147479553"]}]"#,
        rule: 29,
        path: "/containerVersion/tag/0",
    },
    Row {
        name: "a priority of 0",
        text: br#""tag":[{"tagId":"1","name":"A","type":"html","priority":{"value":"0"}}]"#,
        rule: 29,
        path: "/containerVersion/tag/0",
    },
    Row {
        name: "a trigger, a variable and a template",
        text: br#""trigger":[{"triggerId":"1","type":"CLICK"}],"variable":[{"variableId":"1","name":"A","type":"c"}],"customTemplate":[{"templateId":"1","containerId":"2","templateData":"___INFO___\n{\"type\":\"TAG\"}\n___SANDBOXED_JS_FOR_WEB_TEMPLATE___\n"}]"#,
        rule: 29,
        path: "/containerVersion/trigger/0",
    },
    Row {
        name: "a variable and a built-in variable",
        text: br#""variable":[{"variableId":"1","name":"A","type":"c"}],"builtInVariable":[{"type":"EVENT","name":"B"}]"#,
        rule: 29,
        path: "/containerVersion/variable/0",
    },
    Row {
        name: "a built-in variable",
        text: br#""builtInVariable":[{"type":"EVENT","name":"B"}]"#,
        rule: 29,
        path: "/containerVersion/builtInVariable/0",
    },
    Row {
        name: "a template",
        text: br#""customTemplate":[{"templateId":"1","containerId":"2","templateData":"___INFO___\n{\"type\":\"TAG\"}\n___SANDBOXED_JS_FOR_WEB_TEMPLATE___\n"}]"#,
        rule: 29,
        path: "/containerVersion/customTemplate/0",
    },
    Row {
        name: "a priority that is no whole number",
        text: br#""tag":[{"tagId":"1","name":"A","type":"html"},{"tagId":"2","name":"B","type":"html","priority":{"type":"INTEGER","value":"x"}}]"#,
        rule: 18,
        path: "/containerVersion/tag/1/priority",
    },
    Row {
        name: "a pause that is a text",
        text: br#""tag":[{"tagId":"1","name":"A","type":"html","paused":"true"}]"#,
        rule: 8,
        path: "/containerVersion/tag/0/paused",
    },
    Row {
        name: "a variable that names itself",
        text: br#""variable":[{"variableId":"1","name":"A","type":"c","parameter":[{"type":"TEMPLATE","key":"value","value":"{{A}}"}]}]"#,
        rule: 16,
        path: "/containerVersion/variable/0",
    },
    Row {
        name: "a firing trigger that is none",
        text: br#""tag":[{"tagId":"1","name":"A","type":"html","firingTriggerId":["7"]}]"#,
        rule: 11,
        path: "/containerVersion/tag/0/firingTriggerId/0",
    },
    Row {
        name: "two tags of one name",
        text: br#""tag":[{"tagId":"1","name":"A","type":"html"},{"tagId":"2","name":"A","type":"html"}]"#,
        rule: 10,
        path: "/containerVersion/tag/1",
    },
    Row {
        name: "another use than web",
        text: br#""container":{"usageContext":["SERVER"]}"#,
        rule: 7,
        path: "/containerVersion/container/usageContext",
    },
];

#[test]
fn entries_that_are_not_run_yet(rt: HostRuntime) -> Result<(), Fail> {
    let alloc = rt.alloc();
    for row in ENTRIES {
        let export = with_version(alloc, row.text)?;
        let (rule, path) = told(alloc, &export)?;
        assert_eq!(rt; rule, row.rule, "{}", row.name);
        assert_eq!(rt; path.as_str(), row.path, "{}", row.name);
    }
    let (rule, path) = told(alloc, br#"{"exportFormatVersion":2,"containerVers"#)?;
    assert_eq!(rt; rule, 2, "half of an export");
    assert_eq!(rt; path.as_str(), "", "half of an export");
    Ok(())
}
