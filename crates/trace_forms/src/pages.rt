ghost use Rattle.std.specs.Prelude.{◌≡◌, ℕ, List, false, IsTrue};
ghost use Rattle.std.specs.Str.{chars, bytes_eq};
ghost use Rattle.gtm_base.specs.Ascii.{is_all_ascii};
ghost use Rattle.gtm_data.specs.Facts.{fact_of};
ghost use Rattle.gtm_data.specs.Tree.{tree_of, entries_of};
ghost use Rattle.trace_forms.specs.Forms.{page_in, page_of, page_fact, page_keys, is_among};
ghost use Rattle.trace_forms.specs.Forms.{are_listed, are_texts, is_text, text_at};
ghost use Rattle.trace_forms.specs.Views.{reading_of};

use crate::kinds::into_text;
use crate::steps::{LineRead, TraceStep};
use gtm_base::Text;
use gtm_data::{Data, Members, PageFact};

// What a page says.
pub(crate) fn read_page(value: Data) -> LineRead
    ensures { reading_of result ≡ page_in (tree_of value) }
{
    match value {
        Data::Map(members) => read_members(members),
        _ => LineRead::Bad(6),
    }
}

// What the members of a page say.
fn read_members(members: Members) -> LineRead
    ensures { reading_of result ≡ page_of (entries_of members.pairs) }
{
    if !are_listed(&members) {
        return LineRead::Bad(5);
    }
    if !are_texts(&members) {
        return LineRead::Bad(6);
    }
    LineRead::Step(TraceStep::Fact(page_fact(members)))
}

// Whether each member of a page is listed.
fn are_listed(members: &Members) -> bool
    ensures { result ≡ are_listed (entries_of members.now.pairs) }
{
    for (key, _) in members.as_slice() {
        if !is_listed(key) {
            return false;
        }
    }
    true
}

// Whether this is the key of a listed member.
fn is_listed(key: &Text) -> bool
    ensures { result ≡ is_among page_keys key.now }
{
    key.is_word("charset")
        || key.is_word("referrer")
        || key.is_word("region")
        || key.is_word("title")
        || key.is_word("url")
}

// Whether each member is a text.
fn are_texts(members: &Members) -> bool
    ensures { result ≡ are_texts (entries_of members.now.pairs) }
{
    for (_, value) in members.as_slice() {
        if !is_text(value) {
            return false;
        }
    }
    true
}

// Whether the value is a text.
fn is_text(value: &Data) -> bool
    ensures { result ≡ is_text (tree_of value.now) }
{
    match value {
        Data::Text(_) => true,
        _ => false,
    }
}

// The facts of a page with these members.
fn page_fact(members: Members) -> PageFact
    ensures { fact_of result ≡ page_fact (entries_of members.pairs) }
{
    let mut members = members;
    PageFact::Page {
        url: take_text(&mut members, "url"),
        referrer: take_text(&mut members, "referrer"),
        title: take_text(&mut members, "title"),
        charset: take_text(&mut members, "charset"),
        region: take_text(&mut members, "region"),
        url_address: None,
        referrer_address: None,
    }
}

// Takes out the text of the member with this key, a word of ASCII characters. The others stay.
fn take_text(members: &mut Members, key: &str) -> Option<Text>
    requires { IsTrue (is_all_ascii key.now) }
    ensures taken { result ≡ text_at key.now (entries_of members.old.pairs) }
    ensures kept { (other : List ℕ) → bytes_eq key.now other ≡ false
        → text_at other (entries_of members.new.pairs)
        ≡ text_at other (entries_of members.old.pairs) }
{
    match members.place_of(key) {
        Some(at) => into_text(std::mem::replace(members.value_mut(at), Data::Undefined)),
        None => None,
    }
}
