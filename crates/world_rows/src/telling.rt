use data_layer::key_parts;
use gtm_base::{Address, OutOfMemory, Text, Texts};
use gtm_data::{Data, write_json};
use page_world::{Page, World};
use std::alloc::Global;

// The functions that rows tell of.
const FUNCTIONS: &[&str] = &["a", "a.f", "a.b.g", "ab.f", "f", "g"];

/// What is known of a page, as a text: each word and what is known there, but for what is empty.
pub fn told(alloc: Global, world: &World) -> Result<Text, OutOfMemory> {
    let page = world.page();
    let mut told = Text::new(alloc);
    push_page(&mut told, page)?;
    push_texts(
        &mut told,
        &[
            ("title", &page.title),
            ("charset", &page.charset),
            ("region", &page.region),
            ("public", &page.public_id),
            ("version", &page.version_id),
        ],
    )?;
    if page.time != 0 {
        push_word(&mut told, "time")?;
        told.push_signed(page.time)?;
    }
    for cookie in page.cookies.as_slice() {
        push_cookie(&mut told, &cookie.0, &cookie.1)?;
    }
    push_globals(&mut told, &page.globals)?;
    for key in FUNCTIONS {
        push_return(alloc, &mut told, key, page)?;
    }
    Ok(told)
}

fn push_page(told: &mut Text, page: &Page) -> Result<(), OutOfMemory> {
    push_texts(told, &[("url", &page.url)])?;
    push_address(told, &page.url_address)?;
    push_texts(told, &[("referrer", &page.referrer)])?;
    push_address(told, &page.referrer_address)
}

fn push_word(told: &mut Text, word: &str) -> Result<(), OutOfMemory> {
    if told.as_str() != "" {
        told.push_str("; ")?;
    }
    told.push_str(word)?;
    told.push_str(" ")
}

fn push_texts(told: &mut Text, texts: &[(&str, &Text)]) -> Result<(), OutOfMemory> {
    for (word, text) in texts {
        if text.as_str() != "" {
            push_word(told, word)?;
            told.push_str(text.as_str())?;
        }
    }
    Ok(())
}

fn push_address(told: &mut Text, address: &Option<Address>) -> Result<(), OutOfMemory> {
    match address {
        Some(address) => push_texts(told, &[("at", &address.href)]),
        None => Ok(()),
    }
}

fn push_cookie(told: &mut Text, name: &Text, values: &Texts) -> Result<(), OutOfMemory> {
    push_word(told, "cookie")?;
    told.push_str(name.as_str())?;
    for value in values.as_slice() {
        told.push_str(" ")?;
        told.push_str(value.as_str())?;
    }
    Ok(())
}

fn push_globals(told: &mut Text, globals: &Data) -> Result<(), OutOfMemory> {
    match globals {
        Data::Map(members) => if members.len() == 0 {
            return Ok(());
        },
        _ => {},
    }
    push_word(told, "globals")?;
    write_json(told, globals)
}

fn push_return(alloc: Global, told: &mut Text, key: &str, page: &Page) -> Result<(), OutOfMemory> {
    let parts = key_parts(alloc, key)?;
    match page.returns.get(parts.as_slice()) {
        Some(value) => {
            push_word(told, "returns")?;
            told.push_str(key)?;
            told.push_str(" ")?;
            write_json(told, value)
        },
        None => Ok(()),
    }
}
