ghost use Rattle.std.specs.Prelude.{◌≡◌};
ghost use Rattle.perm_model.specs.Names.{permission_name, permission_named, named_among};

use Permission::*;

/// What a template may be allowed, by the permission of its list.
#[derive(Clone, Copy, Debug, PartialEq, Eq)]
pub enum Permission {
    AccessConsent,
    AccessGlobals,
    AccessLocalStorage,
    AccessTemplateStorage,
    GetCookies,
    SetCookies,
    GetUrl,
    GetReferrer,
    SendPixel,
    InjectScript,
    InjectHiddenIframe,
    Logging,
    ReadDataLayer,
    WriteDataLayer,
    ReadCharacterSet,
    ReadContainerData,
    ReadEventMetadata,
    ReadTitle,
}

/// All permissions.
pub const PERMISSIONS: [Permission; 18] = [
    AccessConsent,
    AccessGlobals,
    AccessLocalStorage,
    AccessTemplateStorage,
    GetCookies,
    SetCookies,
    GetUrl,
    GetReferrer,
    SendPixel,
    InjectScript,
    InjectHiddenIframe,
    Logging,
    ReadDataLayer,
    WriteDataLayer,
    ReadCharacterSet,
    ReadContainerData,
    ReadEventMetadata,
    ReadTitle,
];

impl Permission {
    /// The word for it in a template's list of permissions. Takes no memory.
    pub fn name(&self) -> &'static str
        ensures { result.now ≡ permission_name self.now }
    {
        match self {
            AccessConsent => "access_consent",
            AccessGlobals => "access_globals",
            AccessLocalStorage => "access_local_storage",
            AccessTemplateStorage => "access_template_storage",
            GetCookies => "get_cookies",
            SetCookies => "set_cookies",
            GetUrl => "get_url",
            GetReferrer => "get_referrer",
            SendPixel => "send_pixel",
            InjectScript => "inject_script",
            InjectHiddenIframe => "inject_hidden_iframe",
            Logging => "logging",
            ReadDataLayer => "read_data_layer",
            WriteDataLayer => "write_data_layer",
            ReadCharacterSet => "read_character_set",
            ReadContainerData => "read_container_data",
            ReadEventMetadata => "read_event_metadata",
            ReadTitle => "read_title",
        }
    }
}

/// The permission that has this word, or `None` where none has it. Takes no memory.
pub fn permission_named(name: &str) -> Option<Permission>
    ensures { result ≡ permission_named name.now }
{
    named_among(&PERMISSIONS, name)
}

// The first of these permissions that has this word.
fn named_among(permissions: &[Permission], name: &str) -> Option<Permission>
    ensures { result ≡ named_among permissions.now name.now }
{
    for permission in permissions {
        if permission.name() == name {
            return Some(*permission);
        }
    }
    None
}
