ghost use Rattle.std.specs.Prelude.{◌≡◌, OnOk, OnErr, unwrap_or};
ghost use Rattle.gtm_data.specs.Facts.{fact_of};
ghost use Rattle.gtm_data.specs.Paths.{dotted};
ghost use Rattle.gtm_data.specs.Tree.{tree_of};
ghost use Rattle.page_world.specs.Facts.{address_with, after_returns, after_set, page_after};
ghost use Rattle.page_world.specs.Facts.{set_function, set_global};
ghost use Rattle.page_world.specs.Known.{page_of};
ghost use Rattle.page_world.specs.Pairs.{with_key};

use crate::Page;
use crate::blocking::is_blocked;
use crate::returns::{forget, tell};
use crate::setting::set_at;
use data_layer::key_parts;
use gtm_base::{Address, Keyed, OutOfMemory, Text};
use gtm_data::{Data, PageFact};
use std::alloc::Global;

/// Takes a fact into what is known of a page. Where memory is wanting, the page is left half
/// changed.
pub fn take_fact(alloc: Global, fact: PageFact, page: &mut Page) -> Result<(), OutOfMemory>
    ensures { OnOk result (page_of page.new ≡ page_after (fact_of fact) (page_of page.old)) }
{
    match fact {
        PageFact::Page {
            url,
            referrer,
            title,
            charset,
            region,
            url_address,
            referrer_address,
        } => {
            set_address(&mut page.url_address, &url, url_address);
            set_address(&mut page.referrer_address, &referrer, referrer_address);
            set_text(&mut page.url, url);
            set_text(&mut page.referrer, referrer);
            set_text(&mut page.title, title);
            set_text(&mut page.charset, charset);
            set_text(&mut page.region, region);
            Ok(())
        },
        PageFact::Cookie { name, values } => put_value(&mut page.cookies, name, values),
        PageFact::Global { key, value } => set_global(alloc, &key, value, page),
        PageFact::Returns { key, value } => set_returns(alloc, &key, value, page),
        PageFact::Time(ms) => {
            page.time = ms;
            Ok(())
        },
        PageFact::Ids {
            public_id,
            version_id,
        } => {
            page.public_id = public_id;
            page.version_id = version_id;
            Ok(())
        },
    }
}

// Puts a text in place of the old one, where there is a new one.
fn set_text(old: &mut Text, new: Option<Text>)
    ensures { old.new ≡ unwrap_or new old.old }
{
    if let Some(text) = new {
        *old = text;
    }
}

// Puts an address in place of the old one, where there is a new text.
fn set_address(old: &mut Option<Address>, text: &Option<Text>, new: Option<Address>)
    ensures { old.new ≡ address_with text.now new old.old }
{
    if text.is_some() {
        *old = new;
    }
}

// Puts a value at a key: in place of the old one, or else last. Where memory is wanting, all stays
// as it was.
fn put_value<T: Drop>(pairs: &mut Keyed<T>, key: Text, value: T) -> Result<(), OutOfMemory>
    ensures ok { OnOk result (pairs.new.pairs ≡ with_key key value pairs.old.pairs) }
    ensures err { OnErr result (pairs.new.pairs ≡ pairs.old.pairs) }
{
    match pairs.place_of(key.as_str()) {
        Some(at) => {
            *pairs.value_mut(at) = value;
            Ok(())
        },
        None => pairs.push(key, value),
    }
}

// Sets a global, unless its path is blocked.
fn set_global(alloc: Global, key: &Text, value: Data, page: &mut Page) -> Result<(), OutOfMemory>
    ensures { OnOk result
        (page_of page.new ≡ after_set (dotted key.now) (tree_of value) (page_of page.old)) }
{
    let parts = key_parts(alloc, key.as_str())?;
    if is_blocked(parts.as_slice(), &page.globals) {
        return Ok(());
    }
    put_global(alloc, parts.as_slice(), value, page)
}

// Makes a global a function that returns this value, unless its path is blocked.
fn set_returns(alloc: Global, key: &Text, value: Data, page: &mut Page) -> Result<(), OutOfMemory>
    ensures { OnOk result
        (page_of page.new ≡ after_returns (dotted key.now) (tree_of value) (page_of page.old)) }
{
    let parts = key_parts(alloc, key.as_str())?;
    if is_blocked(parts.as_slice(), &page.globals) {
        return Ok(());
    }
    put_function(alloc, parts.as_slice(), value, page)
}

// Sets the global at these parts, and forgets what functions at and below it return.
fn put_global(
    alloc: Global,
    parts: &[Text],
    value: Data,
    page: &mut Page,
) -> Result<(), OutOfMemory>
    ensures { OnOk result
        (page_of page.new ≡ set_global parts.now (tree_of value) (page_of page.old)) }
{
    forget(alloc, parts, &mut page.returns);
    set_at(alloc, parts, value, &mut page.globals)
}

// Makes the global at these parts a function that returns this value.
fn put_function(
    alloc: Global,
    parts: &[Text],
    value: Data,
    page: &mut Page,
) -> Result<(), OutOfMemory>
    ensures { OnOk result
        (page_of page.new ≡ set_function parts.now (tree_of value) (page_of page.old)) }
{
    put_global(alloc, parts, Data::Foreign, page)?;
    tell(alloc, parts, value, &mut page.returns)
}
