use crate::judging::{container_in, told, with_version};
use gtm_base::{OutOfMemory, Text};
use std::alloc::Global;
use std::test::Fail;

const MANY: u64 = 20_000;

// An export of 20,000 tags, about 3 MB.
#[test]
fn an_export_of_many_tags(rt: HostRuntime) -> Result<(), Fail> {
    let alloc = rt.alloc();
    let members = many_tags(alloc)?;
    let export = with_version(alloc, members.as_str().as_bytes())?;
    let container = container_in(alloc, &export)?;
    assert_eq!(rt; container.tags.len(), 20_000, "tags");
    let last = container.tags.get(19_999).ok_or("no last tag")?;
    assert_eq!(rt; last.name.as_str(), "Tag 20000", "the last tag");
    Ok(())
}

// 20,000 variables, each of which names the next one; the last names nothing that is there.
#[test]
fn a_chain_of_many_variables(rt: HostRuntime) -> Result<(), Fail> {
    let alloc = rt.alloc();
    let members = many_variables(alloc, MANY.saturating_add(1))?;
    let export = with_version(alloc, members.as_str().as_bytes())?;
    let (rule, path) = told(alloc, &export)?;
    assert_eq!(rt; rule, 29, "a chain");
    assert_eq!(rt;
        path.as_str(),
        "/containerVersion/variable/0",
        "the first variable"
    );
    Ok(())
}

// The same with a last one that names the tenth.
#[test]
fn a_ring_of_many_variables(rt: HostRuntime) -> Result<(), Fail> {
    let alloc = rt.alloc();
    let members = many_variables(alloc, 10)?;
    let export = with_version(alloc, members.as_str().as_bytes())?;
    let (rule, path) = told(alloc, &export)?;
    assert_eq!(rt; rule, 16, "a ring");
    assert_eq!(rt;
        path.as_str(),
        "/containerVersion/variable/9",
        "the first on it"
    );
    Ok(())
}

// The list of so many tags, each with its own id and name.
fn many_tags(alloc: Global) -> Result<Text, OutOfMemory> {
    let mut text = Text::from_str(alloc, "\"tag\":[")?;
    for before in 0..MANY {
        if before > 0 {
            text.push(',')?;
        }
        push_tag(&mut text, before.saturating_add(1))?;
    }
    text.push(']')?;
    Ok(text)
}

fn push_tag(text: &mut Text, id: u64) -> Result<(), OutOfMemory> {
    text.push_str("{\"tagId\":\"")?;
    text.push_unsigned(id)?;
    text.push_str("\",\"name\":\"Tag ")?;
    text.push_unsigned(id)?;
    text.push_str(
        "\",\"type\":\"html\",\"parameter\":[{\"type\":\"TEMPLATE\",\"key\":\"html\",\"value\":\"<b>{{_event}}</b>\"}],\"firingTriggerId\":[\"2147479553\"]}",
    )
}

// The list of so many variables, each of which names the next, and the last the one of this number.
fn many_variables(alloc: Global, last: u64) -> Result<Text, OutOfMemory> {
    let mut text = Text::from_str(alloc, "\"variable\":[")?;
    for before in 1..MANY {
        push_variable(&mut text, before, before.saturating_add(1))?;
        text.push(',')?;
    }
    push_variable(&mut text, MANY, last)?;
    text.push(']')?;
    Ok(text)
}

fn push_variable(text: &mut Text, id: u64, next: u64) -> Result<(), OutOfMemory> {
    text.push_str("{\"variableId\":\"")?;
    text.push_unsigned(id)?;
    text.push_str("\",\"name\":\"V")?;
    text.push_unsigned(id)?;
    text.push_str(
        "\",\"type\":\"c\",\"parameter\":[{\"type\":\"TEMPLATE\",\"key\":\"value\",\"value\":\"{{V",
    )?;
    text.push_unsigned(next)?;
    text.push_str("}}\"}]}")
}
