ghost use Rattle.std.specs.Prelude.{◌≡◌, IfOk, codes, option_map};
ghost use Rattle.folded_words.specs.Words.{among};
ghost use Rattle.gtm_data.specs.Paths.{member_of};
ghost use Rattle.gtm_data.specs.TextOf.{text_of};
ghost use Rattle.gtm_data.specs.Tree.{tree_of};
ghost use Rattle.variable_kinds.specs.Addresses as spec;
ghost use Rattle.variable_kinds.specs.Addresses.{component_in, component_words, only, wanted_in};

use crate::reading::{is_set, member};
use folded_words::folded;
use gtm_base::{OutOfMemory, Text};
use gtm_data::{Data, text_of};
use std::alloc::Global;

/// A part of an address.
#[derive(Clone, Copy, Debug, PartialEq, Eq)]
pub enum Component {
    /// The address as it was given, up to its first `#`.
    Url,
    Protocol,
    Host,
    Port,
    Path,
    Query,
    Fragment,
    /// What stands behind the last dot of the last segment of the path.
    Extension,
}

/// Which part of an address a variable asks for.
#[derive(Debug, Drop)]
pub struct Wanted {
    /// `None` for a word that names no part.
    pub component: Option<Component>,
    /// Whether a host is given without a leading `www.`.
    pub strip_www: bool,
    /// The key of the query whose first value is asked for.
    pub key: Option<Text>,
}

/// The part that the fields ask for.
pub fn wanted_by(alloc: Global, fields: &Data) -> Result<Wanted, OutOfMemory>
    ensures { IfOk result (λ made. made ≡ wanted_in (tree_of fields.now)) }
{
    Ok(Wanted {
        component: named_component(alloc, fields)?,
        strip_www: is_set(alloc, fields, "stripWww")?,
        key: text_of_field(alloc, fields, "queryKey")?,
    })
}

/// A part alone, without more. Takes no memory.
pub fn only(component: Component) -> Wanted
    ensures { result ≡ only component }
{
    Wanted {
        component: Some(component),
        strip_www: false,
        key: None,
    }
}

ghost use Rattle.gtm_base.specs.Ascii.{is_all_ascii};
ghost use Rattle.std.specs.Prelude.{IsTrue};

/// The text of a field, or `None` where it is absent.
pub fn text_of_field(alloc: Global, fields: &Data, key: &str) -> Result<Option<Text>, OutOfMemory>
    requires { IsTrue (is_all_ascii key.now) }
    ensures { IfOk result (λ text.
        text ≡ option_map text_of (member_of key.now (tree_of fields.now))) }
{
    match member(fields, key) {
        Some(value) => Ok(Some(text_of(alloc, value)?)),
        None => Ok(None),
    }
}

// The part that the fields name; the url where they name none.
fn named_component(alloc: Global, fields: &Data) -> Result<Option<Component>, OutOfMemory>
    ensures { IfOk result (λ part. part ≡ component_in (tree_of fields.now)) }
{
    match text_of_field(alloc, fields, "component")? {
        Some(word) => component_named(alloc, &word),
        None => Ok(Some(Component::Url)),
    }
}

// The part that a word in any case names.
fn component_named(alloc: Global, word: &Text) -> Result<Option<Component>, OutOfMemory>
    ensures { IfOk result (λ part. part ≡ spec.component_named word.now) }
{
    let word = folded(alloc, word.as_str())?;
    Ok(component_of_word(&word))
}

// The part that a word names.
fn component_of_word(word: &Text) -> Option<Component>
    ensures { result ≡ among component_words word.now }
{
    if word.is_word("url") {
        Some(Component::Url)
    } else if word.is_word("protocol") {
        Some(Component::Protocol)
    } else if word.is_word("host") {
        Some(Component::Host)
    } else if word.is_word("port") {
        Some(Component::Port)
    } else if word.is_word("path") {
        Some(Component::Path)
    } else if word.is_word("query") {
        Some(Component::Query)
    } else if word.is_word("fragment") {
        Some(Component::Fragment)
    } else if word.is_word("extension") {
        Some(Component::Extension)
    } else {
        None
    }
}
