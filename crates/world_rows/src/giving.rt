use gtm_base::{Address, OutOfMemory, Text, Texts};
use gtm_data::{Data, PageFact, data_of};
use json::Scratch;
use page_world::World;
use std::alloc::Global;

/// A fact of a row.
pub enum Given {
    /// A url, and the whole of its address, if it has one.
    Url(&'static str, Option<&'static str>),
    /// A referrer, and the whole of its address, if it has one.
    Referrer(&'static str, Option<&'static str>),
    Title(&'static str),
    Charset(&'static str),
    Region(&'static str),
    Cookie(&'static str, &'static [&'static str]),
    /// A global, with its value as JSON.
    Global(&'static str, &'static str),
    /// A function, with what it returns as JSON.
    Returns(&'static str, &'static str),
    Time(i64),
    Ids(&'static str, &'static str),
}

/// A world that took these facts in.
pub fn world_of(alloc: Global, given: &[Given]) -> Result<World, OutOfMemory> {
    let mut world = World::new(alloc);
    for fact in given {
        world.fact(alloc, fact_of(alloc, fact)?)?;
    }
    Ok(world)
}

fn fact_of(alloc: Global, given: &Given) -> Result<PageFact, OutOfMemory> {
    match given {
        Given::Url(url, href) => url_fact(alloc, url, href),
        Given::Referrer(referrer, href) => referrer_fact(alloc, referrer, href),
        Given::Title(title) => texts_fact(Some(text(alloc, title)?), None, None),
        Given::Charset(charset) => texts_fact(None, Some(text(alloc, charset)?), None),
        Given::Region(region) => texts_fact(None, None, Some(text(alloc, region)?)),
        Given::Cookie(name, values) => Ok(PageFact::Cookie {
            name: text(alloc, name)?,
            values: texts(alloc, values)?,
        }),
        Given::Global(key, value) => Ok(PageFact::Global {
            key: text(alloc, key)?,
            value: data(alloc, value)?,
        }),
        Given::Returns(key, value) => Ok(PageFact::Returns {
            key: text(alloc, key)?,
            value: data(alloc, value)?,
        }),
        Given::Time(ms) => Ok(PageFact::Time(*ms)),
        Given::Ids(public_id, version_id) => Ok(PageFact::Ids {
            public_id: text(alloc, public_id)?,
            version_id: text(alloc, version_id)?,
        }),
    }
}

fn url_fact(alloc: Global, url: &str, href: &Option<&str>) -> Result<PageFact, OutOfMemory> {
    Ok(PageFact::Page {
        url: Some(text(alloc, url)?),
        referrer: None,
        title: None,
        charset: None,
        region: None,
        url_address: address(alloc, href)?,
        referrer_address: None,
    })
}

fn referrer_fact(
    alloc: Global,
    referrer: &str,
    href: &Option<&str>,
) -> Result<PageFact, OutOfMemory> {
    Ok(PageFact::Page {
        url: None,
        referrer: Some(text(alloc, referrer)?),
        title: None,
        charset: None,
        region: None,
        url_address: None,
        referrer_address: address(alloc, href)?,
    })
}

fn texts_fact(
    title: Option<Text>,
    charset: Option<Text>,
    region: Option<Text>,
) -> Result<PageFact, OutOfMemory> {
    Ok(PageFact::Page {
        url: None,
        referrer: None,
        title,
        charset,
        region,
        url_address: None,
        referrer_address: None,
    })
}

// An address of which the rows tell the whole alone.
fn address(alloc: Global, href: &Option<&str>) -> Result<Option<Address>, OutOfMemory> {
    let Some(href) = href else {
        return Ok(None);
    };
    Ok(Some(Address {
        href: text(alloc, href)?,
        scheme: Text::new(alloc),
        username: Text::new(alloc),
        password: Text::new(alloc),
        host: None,
        port: None,
        path: Text::new(alloc),
        query: None,
        fragment: None,
    }))
}

fn text(alloc: Global, text: &str) -> Result<Text, OutOfMemory> {
    Text::from_str(alloc, text)
}

fn texts(alloc: Global, values: &[&str]) -> Result<Texts, OutOfMemory> {
    let mut made = Texts::new(alloc);
    for value in values {
        made.push(text(alloc, value)?)?;
    }
    Ok(made)
}

/// The data of a JSON text, and Undefined for what is none.
pub fn data(alloc: Global, json: &str) -> Result<Data, OutOfMemory> {
    let mut scratch = Scratch::new(alloc);
    match data_of(alloc, &mut scratch, json.as_bytes()) {
        Ok(Some(data)) => Ok(data),
        Ok(None) => Ok(Data::Undefined),
        Err(_) => Err(OutOfMemory),
    }
}
