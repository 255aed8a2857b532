use export_container::container_of;
use export_entries::read_entries;
use export_model::Container;
use export_names::{known_of, type_texts};
use export_reader::{ExportEnd, read_export};
use export_templates::read_templates;
use gtm_base::{OutOfMemory, Text};
use gtm_data::{json_of, write_quoted};
use std::alloc::Global;
use std::test::Fail;

/// An export or a part of one, the least rule that it breaks, and the first path of that rule.
pub struct Row {
    pub name: &'static str,
    pub text: &'static [u8],
    pub rule: u8,
    pub path: &'static str,
}

/// The rule that is told of an export and its path, or 0 and the empty path where it is read.
pub fn told(alloc: Global, export: &[u8]) -> Result<(u8, Text), OutOfMemory> {
    match read_export(alloc, export) {
        Ok(_) => Ok((0, Text::new(alloc))),
        Err(ExportEnd::Refused { rule, path }) => Ok((rule, path)),
        Err(ExportEnd::OutOfMemory) => Err(OutOfMemory),
    }
}

/// The container that the entries of an export stand for, whatever rules it breaks.
pub fn container_in(alloc: Global, export: &[u8]) -> Result<Container, Fail> {
    let tree = json_of(alloc, export)?.ok_or("no JSON")?;
    let version = tree.get("containerVersion").ok_or("no version")?;
    let written = read_entries(alloc, version)?;
    let readings = read_templates(alloc, &written.templates)?;
    let types = type_texts(alloc, &written.templates)?;
    let known = known_of(alloc, &types, &written)?;
    let container = container_of(alloc, &known, &readings, &written)?;
    Ok(container)
}

/// The export whose container version has these members.
pub fn with_version(alloc: Global, members: &[u8]) -> Result<Vec<u8>, OutOfMemory> {
    let mut export = Vec::new(alloc);
    export.extend_from_slice(b"{\"exportFormatVersion\":2,\"containerVersion\":{")?;
    export.extend_from_slice(members)?;
    export.extend_from_slice(b"}}")?;
    Ok(export)
}

/// The text with spaces behind it, up to so many bytes.
pub fn padded(alloc: Global, text: &[u8], bytes: usize) -> Result<Vec<u8>, OutOfMemory> {
    let mut export = Vec::new(alloc);
    export.extend_from_slice(text)?;
    export.resize(bytes, b' ')?;
    Ok(export)
}

/// The export with these members of its container version, each with a comma behind it, and behind
/// them custom templates with these texts. Their types are `cvt_1_2`, `cvt_1_3` and so on.
pub fn with_templates(alloc: Global, members: &str, texts: &[&str]) -> Result<Text, OutOfMemory> {
    let mut export = Text::from_str(alloc, "{\"exportFormatVersion\":2,\"containerVersion\":{")?;
    export.push_str(members)?;
    export.push_str("\"customTemplate\":[")?;
    for (at, text) in texts.iter().enumerate() {
        if at > 0 {
            export.push(',')?;
        }
        export.push_str("{\"containerId\":\"1\",\"templateId\":\"")?;
        export.push_unsigned((at as u64).saturating_add(2))?;
        export.push_str("\",\"templateData\":")?;
        write_quoted(&mut export, text)?;
        export.push('}')?;
    }
    export.push_str("]}}")?;
    Ok(export)
}
