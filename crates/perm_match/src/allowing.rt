ghost use Rattle.std.specs.Prelude.{◌≡◌};
ghost use Rattle.perm_model.specs.Allowed.{is_allowed, is_free, some_allows, first_denied};
ghost use Rattle.perm_model.specs.Allowed.{permission_of};

use crate::granting::allows;
use perm_model::{Grant, Need, Permission, Policy};

/// Whether a policy allows a need. Takes no memory.
pub fn allowed(policy: &Policy, need: &Need) -> bool
    ensures { result ≡ is_allowed policy.now need.now }
{
    is_free(need) || some_allows(policy.grants.as_slice(), need)
}

/// The place of the first need, counted from 0, that a policy does not allow, or `None` where it
/// allows all of them. Takes no memory.
pub fn first_denied(policy: &Policy, needs: &[Need]) -> Option<usize>
    ensures { result ≡ first_denied policy.now needs.now }
{
    for (at, need) in needs.iter().enumerate() {
        if !allowed(policy, need) {
            return Some(at);
        }
    }
    None
}

/// The permission that a need belongs to, or `None` for the time and for random words, which every
/// policy allows. Takes no memory.
pub fn permission_of(need: &Need) -> Option<Permission>
    ensures { result ≡ permission_of need.now }
{
    match need {
        Need::ConsentRead { .. } => Some(Permission::AccessConsent),
        Need::ConsentWrite { .. } => Some(Permission::AccessConsent),
        Need::GlobalRead { .. } => Some(Permission::AccessGlobals),
        Need::GlobalWrite { .. } => Some(Permission::AccessGlobals),
        Need::GlobalExecute { .. } => Some(Permission::AccessGlobals),
        Need::GlobalExists { .. } => Some(Permission::AccessGlobals),
        Need::LocalRead { .. } => Some(Permission::AccessLocalStorage),
        Need::LocalWrite { .. } => Some(Permission::AccessLocalStorage),
        Need::TemplateStorage => Some(Permission::AccessTemplateStorage),
        Need::CookieRead { .. } => Some(Permission::GetCookies),
        Need::CookieWrite { .. } => Some(Permission::SetCookies),
        Need::Url(_) => Some(Permission::GetUrl),
        Need::Referrer(_) => Some(Permission::GetReferrer),
        Need::SendPixel(_) => Some(Permission::SendPixel),
        Need::InjectScript(_) => Some(Permission::InjectScript),
        Need::InjectHiddenIframe(_) => Some(Permission::InjectHiddenIframe),
        Need::Logging => Some(Permission::Logging),
        Need::LayerRead { .. } => Some(Permission::ReadDataLayer),
        Need::LayerWrite { .. } => Some(Permission::WriteDataLayer),
        Need::CharacterSet => Some(Permission::ReadCharacterSet),
        Need::ContainerData => Some(Permission::ReadContainerData),
        Need::EventMetadata => Some(Permission::ReadEventMetadata),
        Need::Title => Some(Permission::ReadTitle),
        Need::Time => None,
        Need::Random => None,
    }
}

fn is_free(need: &Need) -> bool
    ensures { result ≡ is_free need.now }
{
    match need {
        Need::Time => true,
        Need::Random => true,
        _ => false,
    }
}

fn some_allows(grants: &[Grant], need: &Need) -> bool
    ensures { result ≡ some_allows grants.now need.now }
{
    for grant in grants {
        if allows(grant, need) {
            return true;
        }
    }
    false
}
