ghost use Rattle.std.specs.Prelude.{◌≡◌, IfOk};
ghost use Rattle.gtm_data.specs.Tree.{tree_of};
ghost use Rattle.perm_reader.specs.Items.{found_in, consent, global, local, cookie_write, has_rows};
ghost use Rattle.perm_reader.specs.Items.{item_called, row_found, text_found};
ghost use Rattle.perm_reader.specs.Rows.{columns};

use crate::patterns::{address_pattern, key_pattern};
use crate::values::{Row, called, flag_column, row_value, text_column, text_value};
use gtm_base::{OutOfMemory, Text};
use gtm_data::{Data, json_text};
use perm_model::Grant;
use std::alloc::Global;

/// What the items of a list are read as.
#[derive(Clone, Copy)]
pub(crate) enum ItemKind {
    Consent,
    Global,
    Local,
    Cookie,
    CookieWrite,
    Pixel,
    Script,
    Frame,
    LayerRead,
    LayerWrite,
}

/// What an item of a list is.
#[derive(Drop)]
pub(crate) enum Found {
    /// It is not of the form that the list has.
    Unknown,
    /// It is, and allows nothing.
    Nothing,
    Granted(Grant),
}

pub(crate) fn found_in(alloc: Global, kind: ItemKind, value: &Data) -> Result<Found, OutOfMemory>
    ensures { IfOk result (λ found. found ≡ found_in kind (tree_of value.now)) }
{
    if has_rows(kind) {
        match row_value(value) {
            Some(row) => found_in_row(alloc, kind, &row),
            None => Ok(Found::Unknown),
        }
    } else {
        match text_value(value) {
            Some(text) => found_in_text(alloc, kind, text),
            None => Ok(Found::Unknown),
        }
    }
}

// What an item is called in a warning: a row is written as JSON, and so is what has no text.
pub(crate) fn item_called(alloc: Global, kind: ItemKind, value: &Data) -> Result<Text, OutOfMemory>
    ensures { IfOk result (λ text. text ≡ item_called kind (tree_of value.now)) }
{
    if has_rows(kind) {
        json_text(alloc, value)
    } else {
        called(alloc, value)
    }
}

fn has_rows(kind: ItemKind) -> bool
    ensures { result ≡ has_rows kind }
{
    match kind {
        ItemKind::Consent => true,
        ItemKind::Global => true,
        ItemKind::Local => true,
        ItemKind::CookieWrite => true,
        _ => false,
    }
}

fn found_in_row(alloc: Global, kind: ItemKind, row: &Row) -> Result<Found, OutOfMemory>
    ensures { IfOk result (λ found. found ≡ row_found kind (columns row.now)) }
{
    match kind {
        ItemKind::Consent => consent(alloc, row),
        ItemKind::Global => global(alloc, row),
        ItemKind::Local => local(alloc, row),
        ItemKind::CookieWrite => cookie_write(alloc, row),
        _ => Ok(Found::Unknown),
    }
}

fn found_in_text(alloc: Global, kind: ItemKind, text: &Text) -> Result<Found, OutOfMemory>
    ensures { IfOk result (λ found. found ≡ text_found kind text.now) }
{
    match kind {
        ItemKind::Cookie => Ok(Found::Granted(Grant::Cookie {
            name: text.copy(alloc)?,
        })),
        ItemKind::Pixel => match address_pattern(alloc, text)? {
            Some(pattern) => Ok(Found::Granted(Grant::SendPixel(pattern))),
            None => Ok(Found::Unknown),
        },
        ItemKind::Script => match address_pattern(alloc, text)? {
            Some(pattern) => Ok(Found::Granted(Grant::InjectScript(pattern))),
            None => Ok(Found::Unknown),
        },
        ItemKind::Frame => match address_pattern(alloc, text)? {
            Some(pattern) => Ok(Found::Granted(Grant::InjectHiddenIframe(pattern))),
            None => Ok(Found::Unknown),
        },
        ItemKind::LayerRead => Ok(Found::Granted(Grant::LayerRead(key_pattern(alloc, text)?))),
        ItemKind::LayerWrite => Ok(Found::Granted(Grant::LayerWrite(key_pattern(alloc, text)?))),
        _ => Ok(Found::Unknown),
    }
}

fn consent(alloc: Global, row: &Row) -> Result<Found, OutOfMemory>
    ensures { IfOk result (λ found. found ≡ consent (columns row.now)) }
{
    let read = flag_column(row, "read");
    let write = flag_column(row, "write");
    match text_column(row, "consentType") {
        Some(kind) => {
            if !(read || write) {
                return Ok(Found::Nothing);
            }
            let kind = kind.copy(alloc)?;
            Ok(Found::Granted(Grant::Consent { kind, read, write }))
        },
        None => Ok(Found::Unknown),
    }
}

fn global(alloc: Global, row: &Row) -> Result<Found, OutOfMemory>
    ensures { IfOk result (λ found. found ≡ global (columns row.now)) }
{
    let read = flag_column(row, "read");
    let write = flag_column(row, "write");
    let execute = flag_column(row, "execute");
    match text_column(row, "key") {
        Some(key) => {
            if !(read || write || execute) {
                return Ok(Found::Nothing);
            }
            let key = key.copy(alloc)?;
            Ok(Found::Granted(Grant::Global {
                key,
                read,
                write,
                execute,
            }))
        },
        None => Ok(Found::Unknown),
    }
}

fn local(alloc: Global, row: &Row) -> Result<Found, OutOfMemory>
    ensures { IfOk result (λ found. found ≡ local (columns row.now)) }
{
    let read = flag_column(row, "read");
    let write = flag_column(row, "write");
    match text_column(row, "key") {
        Some(key) => {
            if !(read || write) {
                return Ok(Found::Nothing);
            }
            let key = key.copy(alloc)?;
            Ok(Found::Granted(Grant::Local { key, read, write }))
        },
        None => Ok(Found::Unknown),
    }
}

fn cookie_write(alloc: Global, row: &Row) -> Result<Found, OutOfMemory>
    ensures { IfOk result (λ found. found ≡ cookie_write (columns row.now)) }
{
    let Some(name) = text_column(row, "name") else {
        return Ok(Found::Unknown);
    };
    let Some(domain) = text_column(row, "domain") else {
        return Ok(Found::Unknown);
    };
    let Some(path) = text_column(row, "path") else {
        return Ok(Found::Unknown);
    };
    let Some(secure) = text_column(row, "secure") else {
        return Ok(Found::Unknown);
    };
    let Some(session) = text_column(row, "session") else {
        return Ok(Found::Unknown);
    };
    if !(secure.is_word("any") && session.is_word("any")) {
        return Ok(Found::Nothing);
    }
    Ok(Found::Granted(Grant::CookieWrite {
        name: name.copy(alloc)?,
        domain: domain.copy(alloc)?,
        path: path.copy(alloc)?,
    }))
}
