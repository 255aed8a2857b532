use crate::needs::Parts;
use gtm_base::{ListOf, Text, Texts};

/// Which parts of an address may be read.
#[derive(Debug, Drop)]
pub struct AddressParts {
    /// The whole address, and each part.
    pub any_part: bool,
    /// The parts that are named, in the order of `Part`.
    pub parts: Parts,
    /// The whole query, and each key of it.
    pub any_query: bool,
    /// The keys of the query that are named.
    pub keys: Texts,
}

/// Which addresses may be used. Every one of them begins with `https://`.
#[derive(Debug, Drop)]
pub enum AddressPattern {
    Any,
    /// As written behind `https://`.
    Pattern { authority: Text, path: Option<Text> },
}

/// Which keys of the data layer may be used.
#[derive(Debug, Drop)]
pub enum KeyPattern {
    Any,
    Equal(Text),
    /// Without the `*` at its end.
    Prefix(Text),
}

/// What a template is allowed by one entry of its permissions.
#[derive(Debug, Drop)]
pub enum Grant {
    Consent {
        kind: Text,
        read: bool,
        write: bool,
    },
    Global {
        key: Text,
        read: bool,
        write: bool,
        execute: bool,
    },
    Local {
        key: Text,
        read: bool,
        write: bool,
    },
    TemplateStorage,
    AnyCookie,
    Cookie {
        name: Text,
    },
    /// `*` stands for any text.
    CookieWrite {
        name: Text,
        domain: Text,
        path: Text,
    },
    Url(AddressParts),
    Referrer(AddressParts),
    SendPixel(AddressPattern),
    InjectScript(AddressPattern),
    InjectHiddenIframe(AddressPattern),
    Logging,
    LayerRead(KeyPattern),
    LayerWrite(KeyPattern),
    CharacterSet,
    ContainerData,
    EventMetadata,
    Title,
}

/// Grants, in order.
pub type Grants = ListOf<Grant>;

/// What a template is allowed: what at least one of the grants allows.
#[derive(Debug, Drop)]
pub struct Policy {
    pub grants: Grants,
}
