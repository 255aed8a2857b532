use crate::judging::Row;

/// Members of container versions. Where a row breaks two rules, the least is told, also where its
/// path comes later.
pub const VERSIONS: &[Row] = &[
    Row {
        name: "only a server",
        text: br#""container":{"usageContext":["SERVER","WEBSITE"]}"#,
        rule: 7,
        path: "/containerVersion/container/usageContext",
    },
    Row {
        name: "web by itself",
        text: br#""container":{"usageContext":"WEB"}"#,
        rule: 7,
        path: "/containerVersion/container/usageContext",
    },
    Row {
        name: "web in a list of the list",
        text: br#""container":{"usageContext":[["WEB"],2,null]}"#,
        rule: 7,
        path: "/containerVersion/container/usageContext",
    },
    Row {
        name: "web before a number",
        text: br#""container":{"usageContext":["WEB",5]}"#,
        rule: 8,
        path: "/containerVersion/container/usageContext/1",
    },
    Row {
        name: "web behind null and another text",
        text: br#""container":{"usageContext":[null,"ANDROID","wE_b"]}"#,
        rule: 8,
        path: "/containerVersion/container/usageContext/0",
    },
    // Rule 8 twice: the public name comes before what the container is used in.
    Row {
        name: "a public name that is a number, and web before a list",
        text: br#""container":{"usageContext":["web",[]],"publicId":5},"tag":{}"#,
        rule: 8,
        path: "/containerVersion/container/publicId",
    },
    Row {
        name: "a kind of parameter in a list",
        text: br#""tag":[{"tagId":"1","name":"A","type":"html","parameter":[{"key":"a"},{"type":"LIST","list":[{"type":"TAG_REFERENCE"},{"type":"FLOAT"}]}]}]"#,
        rule: 8,
        path: "/containerVersion/tag/0/parameter/1/list/1/type",
    },
    Row {
        name: "a key of a condition that is null",
        text: br#""trigger":[{"triggerId":"1","type":"CLICK","filter":[{"type":"EQUALS"},{"parameter":[{"key":null}]}]}]"#,
        rule: 8,
        path: "/containerVersion/trigger/0/filter/1/parameter/0/key",
    },
    Row {
        name: "a value of a format that is a number",
        text: br#""variable":[{"variableId":"1","name":"V","type":"v","formatValue":{"caseConversionType":"LOWERCASE","convertNullToValue":{"value":0}}}]"#,
        rule: 8,
        path: "/containerVersion/variable/0/formatValue/convertNullToValue/value",
    },
    Row {
        name: "consent types that are no LIST",
        text: br#""tag":[{"tagId":"1","name":"A","type":"html","consentSettings":{"consentStatus":"NEEDED","consentType":{"type":"TEMPLATE","value":"ad_storage"}}}]"#,
        rule: 8,
        path: "/containerVersion/tag/0/consentSettings/consentType",
    },
    Row {
        name: "a number in the gallery that is no text",
        text: br#""customTemplate":[{"templateId":"1","templateData":"","galleryReference":{"galleryTemplateId":7}}]"#,
        rule: 8,
        path: "/containerVersion/customTemplate/0/galleryReference/galleryTemplateId",
    },
    Row {
        name: "a built-in variable without a name",
        text: br#""builtInVariable":[{"type":"EVENT","name":"Event"},{"type":"PAGE_URL"}]"#,
        rule: 8,
        path: "/containerVersion/builtInVariable/1",
    },
    Row {
        name: "two setup tags",
        text: br#""tag":[{"tagId":"1","name":"A","type":"html","setupTag":[{"tagName":"B"},{"tagName":"C"}]}]"#,
        rule: 8,
        path: "/containerVersion/tag/0/setupTag",
    },
    Row {
        name: "an unknown firing option",
        text: br#""tag":[{"tagId":"1","name":"A","type":"html","tagFiringOption":"ONCE"}]"#,
        rule: 8,
        path: "/containerVersion/tag/0/tagFiringOption",
    },
    // Rule 8 twice: the number of the version comes before the container.
    Row {
        name: "two fields of another kind",
        text: br#""container":{"publicId":1},"containerVersionId":null"#,
        rule: 8,
        path: "/containerVersion/containerVersionId",
    },
    Row {
        name: "two tags of one id",
        text: br#""tag":[{"tagId":"1","name":"A","type":"html"},{"tagId":"1","name":"B","type":"html"}]"#,
        rule: 9,
        path: "/containerVersion/tag/1",
    },
    Row {
        name: "two templates of one id",
        text: br#""customTemplate":[{"templateId":"1","templateData":"a"},{"templateId":"2","templateData":"a"},{"templateId":"1","templateData":"b"}]"#,
        rule: 9,
        path: "/containerVersion/customTemplate/2",
    },
    Row {
        name: "two tags of one name",
        text: br#""tag":[{"tagId":"1","name":"A","type":"html"},{"tagId":"2","name":"A","type":"img"}]"#,
        rule: 10,
        path: "/containerVersion/tag/1",
    },
    Row {
        name: "two variables of one name",
        text: br#""variable":[{"variableId":"1","name":"V","type":"v"},{"variableId":"2","name":"W","type":"v"},{"variableId":"3","name":"W","type":"k"}]"#,
        rule: 10,
        path: "/containerVersion/variable/2",
    },
    // Rules 7 and 8.
    Row {
        name: "a number of the version that is no text, and no web",
        text: br#""containerVersionId":0,"container":{"usageContext":[]}"#,
        rule: 7,
        path: "/containerVersion/container/usageContext",
    },
    // Rules 7 and 8.
    Row {
        name: "a number, and no web",
        text: br#""container":{"usageContext":[5,"SERVER"]}"#,
        rule: 7,
        path: "/containerVersion/container/usageContext",
    },
    // Rules 8 and 9.
    Row {
        name: "two tags of one id, and templates that are no list",
        text: br#""tag":[{"tagId":"1","name":"A","type":"html"},{"tagId":"1","name":"B","type":"html"}],"customTemplate":{}"#,
        rule: 8,
        path: "/containerVersion/customTemplate",
    },
    // Rules 8 and 10.
    Row {
        name: "two tags of one name, and a variable without a type",
        text: br#""tag":[{"tagId":"1","name":"A","type":"html"},{"tagId":"2","name":"A","type":"img"}],"variable":[{"variableId":"1","name":"V"}]"#,
        rule: 8,
        path: "/containerVersion/variable/0",
    },
    // Rules 9 and 10.
    Row {
        name: "two tags of one name, and two triggers of one id",
        text: br#""tag":[{"tagId":"1","name":"A","type":"html"},{"tagId":"2","name":"A","type":"img"}],"trigger":[{"triggerId":"3","type":"CLICK"},{"triggerId":"3","type":"TIMER"}]"#,
        rule: 9,
        path: "/containerVersion/trigger/1",
    },
];
