use gtm_base::{OutOfMemory, Text};
use gtm_data::{Data, DataEnd, from_json, json_of};
use perm_model::{AddressParts, AddressPattern, Grant, KeyPattern, Part, Policy};
use perm_reader::{PolicyEnd, read_policy};
use std::alloc::Global;

/// The data of a JSON text, or `Undefined` where it has none.
pub fn data(alloc: Global, text: &str) -> Result<Data, OutOfMemory> {
    match json_of(alloc, text.as_bytes())? {
        Some(tree) => match from_json(alloc, &tree) {
            Ok(made) => Ok(made),
            Err(DataEnd::OutOfMemory) => Err(OutOfMemory),
            Err(_) => Ok(Data::Undefined),
        },
        None => Ok(Data::Undefined),
    }
}

/// The policy of a text of permissions, which has no grant where it has not the form of one.
pub fn policy(alloc: Global, text: &str) -> Result<Policy, OutOfMemory> {
    let tree = data(alloc, text)?;
    match read_policy(alloc, &tree) {
        Ok((policy, _)) => Ok(policy),
        Err(PolicyEnd::OutOfMemory) => Err(OutOfMemory),
        Err(PolicyEnd::Form) => Ok(Policy {
            grants: perm_model::Grants::new(alloc),
        }),
    }
}

/// The grants of a text of permissions, with `;` between them, and behind each `!` a warning.
pub fn told_policy(alloc: Global, text: &str) -> Result<Text, OutOfMemory> {
    let tree = data(alloc, text)?;
    let mut out = Text::new(alloc);
    match read_policy(alloc, &tree) {
        Ok((policy, warnings)) => {
            for (at, grant) in policy.grants.as_slice().iter().enumerate() {
                if at > 0 {
                    out.push_str("; ")?;
                }
                tell_grant(&mut out, grant)?;
            }
            for warning in warnings.as_slice() {
                out.push_str("! ")?;
                out.push_str(warning.as_str())?;
            }
        },
        Err(PolicyEnd::Form) => out.push_str("form")?,
        Err(PolicyEnd::OutOfMemory) => return Err(OutOfMemory),
    }
    Ok(out)
}

fn tell_grant(out: &mut Text, grant: &Grant) -> Result<(), OutOfMemory> {
    match grant {
        Grant::Consent { kind, read, write } => tell_flags(
            out, "consent", kind, *read, *write, false,
        ),
        Grant::Global {
            key,
            read,
            write,
            execute,
        } => tell_flags(out, "global", key, *read, *write, *execute),
        Grant::Local { key, read, write } => tell_flags(out, "local", key, *read, *write, false),
        Grant::TemplateStorage => out.push_str("template storage"),
        Grant::AnyCookie => out.push_str("any cookie"),
        Grant::Cookie { name } => tell_text(out, "cookie ", name),
        Grant::CookieWrite { name, domain, path } => {
            tell_text(out, "cookie write ", name)?;
            tell_text(out, " ", domain)?;
            tell_text(out, " ", path)
        },
        Grant::Url(parts) => tell_parts(out, "url", parts),
        Grant::Referrer(parts) => tell_parts(out, "referrer", parts),
        Grant::SendPixel(pattern) => tell_pattern(out, "pixel ", pattern),
        Grant::InjectScript(pattern) => tell_pattern(out, "script ", pattern),
        Grant::InjectHiddenIframe(pattern) => tell_pattern(out, "iframe ", pattern),
        Grant::Logging => out.push_str("logging"),
        Grant::LayerRead(pattern) => tell_key(out, "layer read ", pattern),
        Grant::LayerWrite(pattern) => tell_key(out, "layer write ", pattern),
        Grant::CharacterSet => out.push_str("character set"),
        Grant::ContainerData => out.push_str("container data"),
        Grant::EventMetadata => out.push_str("event metadata"),
        Grant::Title => out.push_str("title"),
    }
}

fn tell_text(out: &mut Text, front: &str, text: &Text) -> Result<(), OutOfMemory> {
    out.push_str(front)?;
    out.push_str(text.as_str())
}

fn tell_flags(
    out: &mut Text,
    front: &str,
    key: &Text,
    read: bool,
    write: bool,
    execute: bool,
) -> Result<(), OutOfMemory> {
    out.push_str(front)?;
    tell_text(out, " ", key)?;
    out.push_str(" ")?;
    if read {
        out.push('r')?;
    }
    if write {
        out.push('w')?;
    }
    if execute {
        out.push('x')?;
    }
    Ok(())
}

fn tell_parts(out: &mut Text, front: &str, parts: &AddressParts) -> Result<(), OutOfMemory> {
    out.push_str(front)?;
    if parts.any_part {
        out.push_str(" any")?;
    }
    for part in parts.parts.as_slice() {
        out.push_str(part_name(*part))?;
    }
    if parts.any_query {
        out.push_str(" queries any")?;
    }
    if !parts.keys.is_empty() {
        out.push_str(" keys")?;
    }
    for key in parts.keys.as_slice() {
        tell_text(out, " ", key)?;
    }
    Ok(())
}

fn part_name(part: Part) -> &'static str {
    match part {
        Part::Protocol => " protocol",
        Part::Host => " host",
        Part::Port => " port",
        Part::Path => " path",
        Part::Query => " query",
        Part::Fragment => " fragment",
        Part::Extension => " extension",
    }
}

fn tell_pattern(out: &mut Text, front: &str, pattern: &AddressPattern) -> Result<(), OutOfMemory> {
    out.push_str(front)?;
    match pattern {
        AddressPattern::Any => out.push_str("any"),
        AddressPattern::Pattern { authority, path } => {
            out.push_str(authority.as_str())?;
            match path {
                Some(path) => tell_text(out, " ", path),
                None => Ok(()),
            }
        },
    }
}

fn tell_key(out: &mut Text, front: &str, pattern: &KeyPattern) -> Result<(), OutOfMemory> {
    out.push_str(front)?;
    match pattern {
        KeyPattern::Any => out.push_str("any"),
        KeyPattern::Equal(text) => tell_text(out, "= ", text),
        KeyPattern::Prefix(text) => {
            out.push_str(text.as_str())?;
            out.push_str(" and on")
        },
    }
}
