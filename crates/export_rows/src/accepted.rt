use crate::judging::{Row, container_in, told, with_version};
use export_model::FiringOption;
use std::test::Fail;

// Members of a container version that breaks no rule, or the last one alone: its entries are not
// run yet.
const ACCEPTED: &[Row] = &[
    Row {
        name: "no lists",
        text: b"",
        rule: 0,
        path: "",
    },
    Row {
        name: "empty lists, and a container that says nothing",
        text: br#""container":{},"tag":[],"trigger":[],"variable":[],"builtInVariable":[],"customTemplate":[]"#,
        rule: 0,
        path: "",
    },
    Row {
        name: "web among others, with an underscore",
        text: br#""container":{"usageContext":["","ANDROID","wE_b"]}"#,
        rule: 0,
        path: "",
    },
    Row {
        name: "words with underscores and capitals",
        text: br#""tag":[{"tagId":"1","name":"A","type":"html","parameter":[{"type":"Tag_Reference"},{"type":"TRIGGER_REFERENCE"},{"type":"_l_i_s_t_"}],"tagFiringOption":"OncePerEvent","consentSettings":{"consentStatus":"NOT_NEEDED"}}],"variable":[{"variableId":"1","name":"V","type":"v","formatValue":{"caseConversionType":"Upper_Case"}}]"#,
        rule: 29,
        path: "/containerVersion/tag/0",
    },
    Row {
        name: "unnamed fields of any kind",
        text: br#""folder":null,"notes":[true,{"tagId":5}],"tag":[{"tagId":"1","name":"A","type":"html","notes":7,"monitoringMetadata":false,"parentFolderId":[]}],"trigger":[{"triggerId":"1","type":"CLICK","waitForTags":{"type":"FLOAT"},"tagId":null}]"#,
        rule: 29,
        path: "/containerVersion/tag/0",
    },
    Row {
        name: "the ends of the range",
        text: br#""fingerprint":[-9007199254740991,9007199254740991]"#,
        rule: 0,
        path: "",
    },
    Row {
        name: "Lists with 63 above the last",
        text: br#""folder":[[[[[[[[[[[[[[[[[[[[[[[[[[[[[[[[[[[[[[[[[[[[[[[[[[[[[[[[[[[[[[]]]]]]]]]]]]]]]]]]]]]]]]]]]]]]]]]]]]]]]]]]]]]]]]]]]]]]]]]]]]]]"#,
        rule: 0,
        path: "",
    },
    Row {
        name: "ids and names of different lists, and names of triggers",
        text: br#""tag":[{"tagId":"1","name":"A","type":"html"}],"trigger":[{"triggerId":"1","name":"A","type":"CLICK"},{"triggerId":"2","name":"A","type":"CLICK"}],"variable":[{"variableId":"1","name":"A","type":"v"}],"builtInVariable":[{"type":"EVENT","name":"A"},{"type":"EVENT","name":"A"}],"customTemplate":[{"templateId":"1","name":"A","templateData":"___INFO___\n{\"type\":\"TAG\"}\n___SANDBOXED_JS_FOR_WEB_TEMPLATE___\n"},{"templateId":"2","name":"A","templateData":"___INFO___\n{\"type\":\"TAG\"}\n___SANDBOXED_JS_FOR_WEB_TEMPLATE___\n"}]"#,
        rule: 29,
        path: "/containerVersion/tag/0",
    },
];

#[test]
fn accepted_exports(rt: HostRuntime) -> Result<(), Fail> {
    let alloc = rt.alloc();
    for row in ACCEPTED {
        let export = with_version(alloc, row.text)?;
        let (rule, path) = told(alloc, &export)?;
        assert_eq!(rt; rule, row.rule, "{}", row.name);
        assert_eq!(rt; path.as_str(), row.path, "{}", row.name);
    }
    Ok(())
}

// A tag in a container version, its firing option, and the ends of its schedule.
struct Scheduled {
    name: &'static str,
    members: &'static [u8],
    option: FiringOption,
    from_ms: Option<i64>,
    until_ms: Option<i64>,
}

const SCHEDULED: &[Scheduled] = &[
    Scheduled {
        name: "neither an option nor a schedule",
        members: br#""tag":[{"tagId":"1","name":"A","type":"html"}]"#,
        option: FiringOption::OncePerEvent,
        from_ms: None,
        until_ms: None,
    },
    Scheduled {
        name: "a schedule as a number and as a text",
        members: br#""tag":[{"tagId":"1","name":"A","type":"html","tagFiringOption":"ONCE_PER_LOAD","scheduleStartMs":1714521600000,"scheduleEndMs":"1714608000000"}]"#,
        option: FiringOption::OncePerLoad,
        from_ms: Some(1714521600000),
        until_ms: Some(1714608000000),
    },
    Scheduled {
        name: "a schedule before 1970",
        members: br#""tag":[{"tagId":"1","name":"A","type":"html","tagFiringOption":"Un_Limited","scheduleStartMs":"-5","scheduleEndMs":-4}]"#,
        option: FiringOption::Unlimited,
        from_ms: Some(-5),
        until_ms: Some(-4),
    },
];

#[test]
fn accepted_schedules(rt: HostRuntime) -> Result<(), Fail> {
    let alloc = rt.alloc();
    for row in SCHEDULED {
        let export = with_version(alloc, row.members)?;
        let container = container_in(alloc, &export)?;
        let tag = container.tags.get(0).ok_or("no tag")?;
        assert_eq!(rt; tag.option, row.option, "{}", row.name);
        assert_eq!(rt; tag.from_ms, row.from_ms, "{}", row.name);
        assert_eq!(rt; tag.until_ms, row.until_ms, "{}", row.name);
    }
    Ok(())
}
