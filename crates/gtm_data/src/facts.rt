use crate::data::Data;
use gtm_base::{Address, Text, Texts};

/// What is known of a page.
#[derive(Debug, Drop)]
pub enum PageFact {
    /// The page's address, referrer, title, character set and region, where they are told. A reader
    /// leaves both addresses `None`; they are filled later, with the parts of `url` and `referrer`.
    Page {
        url: Option<Text>,
        referrer: Option<Text>,
        title: Option<Text>,
        charset: Option<Text>,
        region: Option<Text>,
        url_address: Option<Address>,
        referrer_address: Option<Address>,
    },
    /// All values of the cookie of a name, in order.
    Cookie {
        name: Text,
        values: Texts,
    },
    /// The value of the page's global variable of a key.
    Global {
        key: Text,
        value: Data,
    },
    /// What the page's global function of a key returns.
    Returns {
        key: Text,
        value: Data,
    },
    /// The time, in milliseconds.
    Time(i64),
    /// The container's public name, and the number of its version.
    Ids {
        public_id: Text,
        version_id: Text,
    },
}
