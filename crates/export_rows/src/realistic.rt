use crate::judging::container_in;
use crate::model::{is_literal, only_name, only_text};
use export_model::{
    FiringOption, NameRef, Op, ParamValue, Tag, TagKind, TriggerKind, TriggerRef, VariableKind,
};
use std::test::Fail;

// An export of two tags, a trigger, a variable, a built-in variable and a custom template.
const EXPORT: &[u8] =
    br#"{"exportFormatVersion":2,"exportTime":"2024-05-01 10:00:00","containerVersion":{"containerVersionId":"0","container":{"publicId":"GTM-ABC123","name":"shop","usageContext":["WEB"]},"tag":[{"tagId":"3","name":"GA4","type":"gaawe","parameter":[{"type":"BOOLEAN","key":"sendEcommerceData","value":"false"},{"type":"TEMPLATE","key":"eventName","value":"{{Event}}"}],"firingTriggerId":["2147479553"],"tagFiringOption":"ONCE_PER_EVENT","monitoringMetadata":{"type":"MAP"},"consentSettings":{"consentStatus":"NOT_SET"}},{"tagId":"4","name":"Pixel","type":"cvt_7_9","priority":{"type":"INTEGER","value":"5"},"parameter":[{"type":"TEMPLATE","key":"value","value":"{{Value}}"}],"notes":"buy","firingTriggerId":["5"],"parentFolderId":"8","tagFiringOption":"ONCE_PER_EVENT","consentSettings":{"consentStatus":"NEEDED","consentType":{"type":"LIST","list":[{"type":"TEMPLATE","value":"ad_storage"}]}}}],"trigger":[{"triggerId":"5","name":"Purchase","type":"CUSTOM_EVENT","customEventFilter":[{"type":"EQUALS","parameter":[{"type":"TEMPLATE","key":"arg0","value":"{{_event}}"},{"type":"TEMPLATE","key":"arg1","value":"purchase"}]}]}],"variable":[{"variableId":"6","name":"Value","type":"v","parameter":[{"type":"INTEGER","key":"dataLayerVersion","value":"2"},{"type":"TEMPLATE","key":"name","value":"value"}],"formatValue":{}}],"builtInVariable":[{"type":"EVENT","name":"Event"}],"folder":[{"folderId":"8","name":"Ads"}],"customTemplate":[{"containerId":"7","templateId":"9","name":"Pixel","templateData":"___INFO___\n\n{}\n"}]}}"#;

// The container is named, each list has as many entries as are shown, and no number is that of a
// trigger that never holds.
#[test]
fn a_realistic_export(rt: HostRuntime) -> Result<(), Fail> {
    let container = container_in(rt.alloc(), EXPORT)?;
    assert_eq!(rt; container.version_id.as_str(), "0", "containerVersionId");
    assert_eq!(rt; container.public_id.as_str(), "GTM-ABC123", "publicId");
    assert_eq!(rt; container.tags.len(), 2, "tags");
    assert_eq!(rt; container.triggers.len(), 1, "triggers");
    assert_eq!(rt; container.variables.len(), 1, "variables");
    assert_eq!(rt; container.built_ins.len(), 1, "built-in variables");
    assert_eq!(rt; container.templates.len(), 1, "custom templates");
    assert!(rt; container.references.is_empty(), "references");
    Ok(())
}

// The first tag is of a type of Google's, fires on every page, and names the built-in variable.
#[test]
fn the_tag_of_an_event(rt: HostRuntime) -> Result<(), Fail> {
    let container = container_in(rt.alloc(), EXPORT)?;
    let tag = container.tags.get(0).ok_or("no first tag")?;
    assert_eq!(rt; tag.id.as_str(), "3", "tagId");
    assert_eq!(rt; tag.name.as_str(), "GA4", "name");
    assert!(rt;
        matches!(&tag.kind, TagKind::Opaque(kind) if kind.is("gaawe")),
        "type"
    );
    let [sends, event] = tag.params.as_slice() else {
        return Err("other than two parameters".into());
    };
    assert_eq!(rt; sends.key.as_str(), "sendEcommerceData", "the first key");
    assert!(rt;
        matches!(sends.value, ParamValue::Bool(false)),
        "the first value"
    );
    assert_eq!(rt; event.key.as_str(), "eventName", "the second key");
    assert_eq!(rt;
        only_name(&event.value),
        Some(NameRef::BuiltIn(0)),
        "the second value"
    );
    assert!(rt;
        matches!(tag.firing.as_slice(), [TriggerRef::AllPages]),
        "firingTriggerId"
    );
    assert_eq!(rt; tag.priority, 0, "no priority");
    assert!(rt; tag.consent.is_empty(), "no consent");
    assert!(rt; is_plain_turn(tag), "no other field of its turn");
    Ok(())
}

// The second tag is the template's, fires on the trigger, names the variable, and needs consent.
#[test]
fn the_tag_of_a_pixel(rt: HostRuntime) -> Result<(), Fail> {
    let container = container_in(rt.alloc(), EXPORT)?;
    let tag = container.tags.get(1).ok_or("no second tag")?;
    assert_eq!(rt; tag.id.as_str(), "4", "tagId");
    assert_eq!(rt; tag.name.as_str(), "Pixel", "name");
    assert!(rt; matches!(tag.kind, TagKind::Template(0)), "type");
    let [value] = tag.params.as_slice() else {
        return Err("other than one parameter".into());
    };
    assert_eq!(rt; value.key.as_str(), "value", "the key");
    assert_eq!(rt;
        only_name(&value.value),
        Some(NameRef::Variable(0)),
        "the value"
    );
    assert!(rt;
        matches!(tag.firing.as_slice(), [TriggerRef::Own(0)]),
        "firingTriggerId"
    );
    assert_eq!(rt; tag.priority, 5, "priority");
    assert!(rt; only_text(&tag.consent, "ad_storage"), "consentType");
    assert!(rt; is_plain_turn(tag), "no other field of its turn");
    Ok(())
}

// Whether a tag fires once for an event at any time, without a blocking trigger and without a setup
// or teardown tag.
fn is_plain_turn(tag: &Tag) -> bool {
    tag.blocking.is_empty()
        && tag.option == FiringOption::OncePerEvent
        && tag.setup.is_none()
        && tag.teardown.is_none()
        && !tag.paused
        && tag.from_ms.is_none()
        && tag.until_ms.is_none()
}

// The trigger holds at every event whose name is `purchase`.
#[test]
fn the_trigger_of_a_purchase(rt: HostRuntime) -> Result<(), Fail> {
    let container = container_in(rt.alloc(), EXPORT)?;
    let trigger = container.triggers.get(0).ok_or("no trigger")?;
    assert_eq!(rt; trigger.id.as_str(), "5", "triggerId");
    assert_eq!(rt; trigger.name.as_str(), "Purchase", "name");
    assert!(rt; matches!(trigger.kind, TriggerKind::Custom), "type");
    assert!(rt; trigger.members.is_empty(), "no members");
    let [condition] = trigger.conditions.as_slice() else {
        return Err("other than one condition".into());
    };
    assert!(rt; matches!(condition.op, Op::Equals), "the comparison");
    assert!(rt;
        !condition.negate && !condition.ignore_case,
        "the ways of comparing"
    );
    assert_eq!(rt;
        only_name(&condition.left.value),
        Some(NameRef::EventName),
        "arg0"
    );
    assert!(rt; is_literal(&condition.right.value, "purchase"), "arg1");
    Ok(())
}

// The variable is of the data layer's second version, and its value is not changed.
#[test]
fn the_variable_of_a_value(rt: HostRuntime) -> Result<(), Fail> {
    let container = container_in(rt.alloc(), EXPORT)?;
    let variable = container.variables.get(0).ok_or("no variable")?;
    assert_eq!(rt; variable.id.as_str(), "6", "variableId");
    assert_eq!(rt; variable.name.as_str(), "Value", "name");
    assert!(rt; matches!(variable.kind, VariableKind::Layer), "type");
    let [version, name] = variable.params.as_slice() else {
        return Err("other than two parameters".into());
    };
    assert_eq!(rt; version.key.as_str(), "dataLayerVersion", "the first key");
    assert!(rt;
        matches!(version.value, ParamValue::Integer(2)),
        "the first value"
    );
    assert_eq!(rt; name.key.as_str(), "name", "the second key");
    assert!(rt; is_literal(&name.value, "value"), "the second value");
    let format = &variable.format;
    assert!(rt; !format.lower && !format.upper, "caseConversionType");
    assert!(rt;
        format.null.is_none() && format.undefined.is_none(),
        "convertNullToValue, convertUndefinedToValue"
    );
    assert!(rt;
        format.yes.is_none() && format.no.is_none(),
        "convertTrueToValue, convertFalseToValue"
    );
    Ok(())
}

#[test]
fn the_built_in_variable_and_the_template(rt: HostRuntime) -> Result<(), Fail> {
    let container = container_in(rt.alloc(), EXPORT)?;
    let built_in = container.built_ins.get(0).ok_or("no built-in variable")?;
    assert_eq!(rt; built_in.word.as_str(), "EVENT", "type");
    assert_eq!(rt; built_in.name.as_str(), "Event", "name");
    let template = container.templates.get(0).ok_or("no custom template")?;
    assert_eq!(rt; template.id.as_str(), "9", "templateId");
    assert_eq!(rt; template.name.as_str(), "Pixel", "name");
    assert!(rt;
        only_text(&template.names, "cvt_7_9"),
        "the type that uses it"
    );
    Ok(())
}
