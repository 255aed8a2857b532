ghost use Rattle.std.specs.Prelude.{◌≡◌};
ghost use Rattle.page_world.specs.Known.{page_of};
ghost use Rattle.page_world.specs.Page.{empty_page};

use crate::Returns;
use gtm_base::{Address, Keyed, Text, Texts};
use gtm_data::{Data, Members};
use std::alloc::Global;

/// What is known of a page.
#[derive(Drop)]
pub struct Page {
    pub url: Text,
    /// The parts of the url; `None` where it is a malformed address.
    pub url_address: Option<Address>,
    pub referrer: Text,
    /// The parts of the referrer; `None` where it is a malformed address.
    pub referrer_address: Option<Address>,
    pub title: Text,
    pub charset: Text,
    pub region: Text,
    /// In milliseconds.
    pub time: i64,
    /// The container's public name.
    pub public_id: Text,
    /// The number of the container's version.
    pub version_id: Text,
    /// The values of each cookie, in order.
    pub cookies: Keyed<Texts>,
    /// The global variables: a Map.
    pub globals: Data,
    /// What functions return that were told of.
    pub returns: Returns,
}

impl Page {
    /// Nothing is known yet. Takes no memory.
    pub fn new(alloc: Global) -> Page
        ensures { page_of result ≡ empty_page }
    {
        Page {
            url: Text::new(alloc),
            url_address: None,
            referrer: Text::new(alloc),
            referrer_address: None,
            title: Text::new(alloc),
            charset: Text::new(alloc),
            region: Text::new(alloc),
            time: 0,
            public_id: Text::new(alloc),
            version_id: Text::new(alloc),
            cookies: Keyed::new(alloc),
            globals: Data::Map(Members::new(alloc)),
            returns: Returns::new(alloc),
        }
    }
}
