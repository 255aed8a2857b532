use gtm_base::{Address, ListOf, Text};

/// A part of an address.
#[derive(Clone, Copy, Debug, PartialEq, Eq)]
pub enum Part {
    Protocol,
    Host,
    Port,
    Path,
    Query,
    Fragment,
    Extension,
}

/// Parts, in order.
pub type Parts = ListOf<Part>;

/// What is asked of the address of the page, or of the one that led to it.
#[derive(Debug, Drop)]
pub enum Ask {
    Whole,
    /// A part, of which `Query` is the whole query.
    Part(Part),
    /// The values of this key of the query.
    Key(Text),
}

/// What a call of a script needs to be allowed.
#[derive(Debug, Drop)]
pub enum Need {
    ConsentRead {
        kind: Text,
    },
    ConsentWrite {
        kind: Text,
    },
    GlobalRead {
        key: Text,
    },
    GlobalWrite {
        key: Text,
    },
    GlobalExecute {
        key: Text,
    },
    /// Whether something stands at a key of the page, or may stand there.
    GlobalExists {
        key: Text,
    },
    LocalRead {
        key: Text,
    },
    LocalWrite {
        key: Text,
    },
    TemplateStorage,
    CookieRead {
        name: Text,
    },
    CookieWrite {
        name: Text,
        domain: Text,
        path: Text,
    },
    Url(Ask),
    Referrer(Ask),
    /// `None` for a malformed address, here and in the next two.
    SendPixel(Option<Address>),
    InjectScript(Option<Address>),
    InjectHiddenIframe(Option<Address>),
    Logging,
    LayerRead {
        key: Text,
    },
    LayerWrite {
        key: Text,
    },
    CharacterSet,
    ContainerData,
    EventMetadata,
    Title,
    Time,
    Random,
}

/// Needs, in order.
pub type Needs = ListOf<Need>;
