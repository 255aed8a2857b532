use crate::Text;

/// The parts of a URL, by the WHATWG URL standard.
#[derive(Debug, Drop)]
pub struct Address {
    /// The whole address, as the standard writes it.
    pub href: Text,
    /// Without its `:`.
    pub scheme: Text,
    /// Empty where there is none.
    pub username: Text,
    /// Empty where there is none.
    pub password: Text,
    pub host: Option<Text>,
    /// `None` where none is written, or the one that is the scheme's own.
    pub port: Option<u16>,
    pub path: Text,
    /// Without its `?`.
    pub query: Option<Text>,
    /// Without its `#`.
    pub fragment: Option<Text>,
}
