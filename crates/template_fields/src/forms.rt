ghost use Rattle.std.specs.Prelude.{◌≡◌, IfOk, IsTrue, option_map, codes};
ghost use Rattle.gtm_base.specs.Ascii.{is_all_ascii};
ghost use Rattle.gtm_data.specs.Paths.{member_of};
ghost use Rattle.gtm_data.specs.Tree.{tree_of, trees_of, entries_of};
ghost use Rattle.template_fields.specs.Forms.{is_tag, text_found, is_group, is_described};
ghost use Rattle.template_fields.specs.Forms.{are_fields, is_field, has_subs, is_list, has_radios};
ghost use Rattle.template_fields.specs.Forms.{is_radio_list, are_radios, is_radio};

use folded_words::folded;
use gtm_base::{OutOfMemory, Text};
use gtm_data::{Data, Members};
use std::alloc::Global;

/// Whether INFO says that its template is one of tags, or of variables, or `None` where it says
/// neither: it is no object with the type TAG or MACRO. Fails where memory is wanting.
pub fn is_tag(alloc: Global, info: &Data) -> Result<Option<bool>, OutOfMemory>
    ensures { IfOk result (λ tag. tag ≡ is_tag (tree_of info.now)) }
{
    let kind = match text_member(info, "type") {
        Some(kind) => folded(alloc, kind.as_str())?,
        None => return Ok(None),
    };
    if kind.is_word("tag") {
        return Ok(Some(true));
    }
    if kind.is_word("macro") {
        Ok(Some(false))
    } else {
        Ok(None)
    }
}

// The text of the member of a Map with this key.
pub(crate) fn text_member<'a>(value: &'a Data, key: &str) -> Option<&'a Text>
    requires { IsTrue (is_all_ascii key.now) }
    ensures { option_map (λ found. found.now) result
        ≡ text_found (member_of key.now (tree_of value.now)) }
{
    match member(value, key) {
        Some(found) => found.as_text(),
        None => None,
    }
}

fn member<'a>(value: &'a Data, key: &str) -> Option<&'a Data>
    requires { IsTrue (is_all_ascii key.now) }
    ensures { option_map (λ found. tree_of found.now) result
        ≡ member_of key.now (tree_of value.now) }
{
    value.member(key)
}

pub(crate) fn is_group(kind: &Text) -> bool
    ensures { result ≡ is_group kind.now }
{
    kind.is_word("GROUP") || kind.is_word("LABEL")
}

// Whether there is a kind, and a name but for groups and labels.
fn is_described(value: &Data) -> bool
    ensures { result ≡ is_described
        (text_found (member_of (codes "type") (tree_of value.now)))
        (text_found (member_of (codes "name") (tree_of value.now))) }
{
    match text_member(value, "type") {
        Some(kind) => is_group(kind) || text_member(value, "name").is_some(),
        None => false,
    }
}

#[cycle(forms)]
pub(crate) fn are_fields(items: &[Data]) -> bool
    ensures { result ≡ are_fields (trees_of items.now) }
{
    for item in items {
        if !is_field(item) {
            return false;
        }
    }
    true
}

#[cycle(forms)]
fn is_field(value: &Data) -> bool
    ensures { result ≡ is_field (tree_of value.now) }
{
    match value {
        Data::Map(members) => { is_described(value) && has_subs(members) && has_radios(members) },
        _ => false,
    }
}

#[cycle(forms)]
fn has_subs(members: &Members) -> bool
    ensures { result ≡ has_subs (entries_of members.now.pairs) }
{
    for member in members.as_slice() {
        if member.0.is_word("subParams") {
            return is_list(&member.1);
        }
    }
    true
}

#[cycle(forms)]
fn is_list(value: &Data) -> bool
    ensures { result ≡ is_list (tree_of value.now) }
{
    match value {
        Data::List(items) => are_fields(items.as_slice()),
        _ => false,
    }
}

#[cycle(forms)]
fn has_radios(members: &Members) -> bool
    ensures { result ≡ has_radios (entries_of members.now.pairs) }
{
    for member in members.as_slice() {
        if member.0.is_word("radioItems") {
            return is_radio_list(&member.1);
        }
    }
    true
}

#[cycle(forms)]
fn is_radio_list(value: &Data) -> bool
    ensures { result ≡ is_radio_list (tree_of value.now) }
{
    match value {
        Data::List(items) => are_radios(items.as_slice()),
        _ => true,
    }
}

#[cycle(forms)]
fn are_radios(items: &[Data]) -> bool
    ensures { result ≡ are_radios (trees_of items.now) }
{
    for item in items {
        if !is_radio(item) {
            return false;
        }
    }
    true
}

#[cycle(forms)]
fn is_radio(value: &Data) -> bool
    ensures { result ≡ is_radio (tree_of value.now) }
{
    match value {
        Data::Map(members) => has_subs(members),
        _ => true,
    }
}
