ghost use Rattle.std.specs.Prelude.{◌≡◌, OnOk, option_map};
ghost use Rattle.gtm_data.specs.Tree.{tree_of, trees_of};
ghost use Rattle.perm_reader.specs.Policies.{permission_read, known_read, named_read, entry_read};
ghost use Rattle.perm_reader.specs.Policies.{entries_read, name_of, params_found, params_of};
ghost use Rattle.perm_reader.specs.Readings.{plus};

use crate::items::ItemKind;
use crate::parts::read_parts;
use crate::reading::{Reading, grant, read_items, read_worded, warn};
use crate::values::{member, param, text_member};
use gtm_base::{OutOfMemory, Text};
use gtm_data::Data;
use perm_model::{AddressPattern, Grant, KeyPattern, Permission, permission_named};
use std::alloc::Global;

pub(crate) fn read_entries(
    alloc: Global,
    out: &mut Reading,
    entries: &[Data],
) -> Result<(), OutOfMemory>
    ensures { OnOk result (out.new ≡ plus out.old (entries_read (trees_of entries.now))) }
{
    for entry in entries {
        read_entry(alloc, out, entry)?;
    }
    Ok(())
}

fn read_entry(alloc: Global, out: &mut Reading, entry: &Data) -> Result<(), OutOfMemory>
    ensures { OnOk result (out.new ≡ plus out.old (entry_read (tree_of entry.now))) }
{
    match name_of(entry) {
        Some(name) => read_named(alloc, out, name, params_of(entry)),
        None => Ok(()),
    }
}

// The name of an entry's permission.
pub(crate) fn name_of(entry: &Data) -> Option<&Text>
    ensures { option_map (λ found. found.now) result ≡ name_of (tree_of entry.now) }
{
    let instance = member(entry, "instance")?;
    let key = member(instance, "key")?;
    text_member(key, "publicId")
}

// The parameters of an entry, where they are there.
pub(crate) fn params_found(entry: &Data) -> Option<&Data>
    ensures { option_map (λ found. tree_of found.now) result ≡ params_found (tree_of entry.now) }
{
    let instance = member(entry, "instance")?;
    member(instance, "param")
}

fn params_of(entry: &Data) -> &[Data]
    ensures { trees_of result.now ≡ params_of (tree_of entry.now) }
{
    match params_found(entry) {
        Some(Data::List(params)) => params.as_slice(),
        _ => &[],
    }
}

fn read_named(
    alloc: Global,
    out: &mut Reading,
    name: &Text,
    params: &[Data],
) -> Result<(), OutOfMemory>
    ensures { OnOk result
        (out.new ≡ plus out.old (named_read (Some name.now) (trees_of params.now))) }
{
    match permission_named(name.as_str()) {
        Some(permission) => read_permission(alloc, out, permission, params),
        None => warn(out, name.copy(alloc)?),
    }
}

fn read_permission(
    alloc: Global,
    out: &mut Reading,
    permission: Permission,
    params: &[Data],
) -> Result<(), OutOfMemory>
    ensures { OnOk result
        (out.new ≡ plus out.old (permission_read permission (trees_of params.now))) }
{
    match permission {
        Permission::AccessConsent => {
            read_items(alloc, out, ItemKind::Consent, param(params, "consentTypes"))
        },
        Permission::AccessGlobals => {
            read_items(alloc, out, ItemKind::Global, param(params, "keys"))
        },
        Permission::AccessLocalStorage => {
            read_items(alloc, out, ItemKind::Local, param(params, "keys"))
        },
        Permission::AccessTemplateStorage => grant(out, Grant::TemplateStorage),
        Permission::GetCookies => {
            let word = param(params, "cookieAccess");
            let list = param(params, "cookieNames");
            read_worded(alloc, out, word, Grant::AnyCookie, ItemKind::Cookie, list)
        },
        Permission::SetCookies => {
            let list = param(params, "allowedCookies");
            read_items(alloc, out, ItemKind::CookieWrite, list)
        },
        Permission::GetUrl => {
            let parts = read_parts(alloc, out, params)?;
            grant(out, Grant::Url(parts))
        },
        Permission::GetReferrer => {
            let parts = read_parts(alloc, out, params)?;
            grant(out, Grant::Referrer(parts))
        },
        Permission::SendPixel => {
            let word = param(params, "allowedUrls");
            let any = Grant::SendPixel(AddressPattern::Any);
            read_worded(
                alloc,
                out,
                word,
                any,
                ItemKind::Pixel,
                param(params, "urls"),
            )
        },
        Permission::InjectScript => {
            read_items(alloc, out, ItemKind::Script, param(params, "urls"))
        },
        Permission::InjectHiddenIframe => {
            read_items(alloc, out, ItemKind::Frame, param(params, "urls"))
        },
        Permission::Logging => grant(out, Grant::Logging),
        Permission::ReadDataLayer => {
            let word = param(params, "allowedKeys");
            let any = Grant::LayerRead(KeyPattern::Any);
            let list = param(params, "keyPatterns");
            read_worded(alloc, out, word, any, ItemKind::LayerRead, list)
        },
        Permission::WriteDataLayer => {
            read_items(
                alloc,
                out,
                ItemKind::LayerWrite,
                param(params, "keyPatterns"),
            )
        },
        Permission::ReadCharacterSet => grant(out, Grant::CharacterSet),
        Permission::ReadContainerData => grant(out, Grant::ContainerData),
        Permission::ReadEventMetadata => grant(out, Grant::EventMetadata),
        Permission::ReadTitle => grant(out, Grant::Title),
    }
}
