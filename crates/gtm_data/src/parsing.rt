ghost use Rattle.std.specs.Prelude.{◌≡◌, ◌≤◌, ◌<◌, length, insert, IsTrue, IsSome, IfSome, IfOk};
ghost use Rattle.std.specs.Prelude.{Some, option_and_then, encode_utf8_all};
ghost use Rattle.std.specs.Str.{chars};
ghost use Rattle.gtm_data.specs.Json.{json_of};
ghost use Rattle.gtm_data.specs.Parsing.{ReadsValue, ReadsItems, ReadsMembers, place_for, Ascend};
ghost use Rattle.gtm_data.specs.Plain.{plain};
ghost use Rattle.gtm_data.specs.Tree.{tree_of, trees_of, entries_of, object, entry, none};

use crate::MAX_DEPTH;
use crate::data::{Data, Items, Members};
use crate::numbers::whole_numeral;
use gtm_base::{MAX_SCANNED, OutOfMemory, Text};
use json::{Reader, Scratch, Token};
use std::alloc::Global;
use std::cmp::Ordering;

/// The data of a JSON text in one pass over its tokens, or `None` where it gives up: at bytes that
/// are no JSON, a number that has no place among the data, Lists and Maps that nest more than
/// `MAX_DEPTH` deep, a repeated key, and a Map of over `gtm_base::MAX_SCANNED` members,
/// which the tree sorts.
pub(crate) fn parse_data(
    alloc: Global,
    scratch: &mut Scratch,
    bytes: &[u8],
) -> Result<Option<Data>, OutOfMemory>
    ensures { IfOk result (λ found. IfSome found
        (λ made. option_and_then plain (json_of bytes.now) ≡ Some (tree_of made))) }
{
    let Ok(text) = std::str::from_utf8(bytes) else {
        return Ok(None);
    };
    let mut reader = Reader::new(text, scratch)?;
    let Some(made) = read_value(alloc, &mut reader, MAX_DEPTH)? else {
        return Ok(None);
    };
    if reader.next().is_some() {
        return Ok(None);
    }
    Ok(Some(made))
}

/// The one member of a JSON object that has this key and no other, in one pass over its tokens, or
/// `None` where it gives up: at another value, and where `parse_data` does.
pub(crate) fn parse_member(
    alloc: Global,
    scratch: &mut Scratch,
    key: &str,
    bytes: &[u8],
) -> Result<Option<Data>, OutOfMemory>
    ensures { IfOk result (λ found. IfSome found
        (λ made. option_and_then plain (json_of bytes.now)
        ≡ Some (object (entry (chars key.now) (tree_of made) none)))) }
{
    let Ok(text) = std::str::from_utf8(bytes) else {
        return Ok(None);
    };
    let mut reader = Reader::new(text, scratch)?;
    let Some(Token::BeginObject) = reader.next() else {
        return Ok(None);
    };
    let Some(made) = read_only_member(alloc, &mut reader, key, MAX_DEPTH - 1)? else {
        return Ok(None);
    };
    match reader.next() {
        None => Ok(Some(made)),
        Some(_) => Ok(None),
    }
}

// The value of the only member of a Map, which has this key, up to the Map's end.
fn read_only_member(
    alloc: Global,
    reader: &mut Reader<'_>,
    key: &str,
    levels: usize,
) -> Result<Option<Data>, OutOfMemory>
    ensures { IfOk result (λ found. IfSome found
        (λ made. ReadsMembers levels reader.old (entry (chars key.now) (tree_of made) none)
        reader.new)) }
{
    let Ok(Some(name)) = reader.next_key() else {
        return Ok(None);
    };
    if name != key {
        return Ok(None);
    }
    let Some(member) = read_value(alloc, reader, levels)? else {
        return Ok(None);
    };
    let Ok(None) = reader.next_key() else {
        return Ok(None);
    };
    Ok(Some(member))
}

// The value that the next tokens are, with Lists and Maps at most so many levels deep.
#[cycle(read_value)]
#[inline(always)]
fn read_value(
    alloc: Global,
    reader: &mut Reader<'_>,
    levels: usize,
) -> Result<Option<Data>, OutOfMemory>
    ensures ok { IfOk result (λ found. IfSome found
        (λ made. ReadsValue levels reader.old (tree_of made) reader.new)) }
    ensures shorter { IfOk result
        (λ found. IsSome found → length reader.new < length reader.old) }
{
    let Some(token) = reader.next() else {
        return Ok(None);
    };
    match token {
        Token::String(text) => Ok(Some(Data::Text(Text::from_str(alloc, text)?))),
        Token::Number(text) => match whole_numeral(text) {
            Some(number) => Ok(Some(Data::Whole(number))),
            None => Ok(None),
        },
        Token::Bool(truth) => Ok(Some(Data::Bool(truth))),
        Token::Null => Ok(Some(Data::Null)),
        Token::EndObject | Token::EndArray | Token::Key(_) | Token::Bad => Ok(None),
        Token::BeginArray => {
            if levels == 0 {
                return Ok(None);
            }
            match read_items(alloc, reader, levels - 1)? {
                Some(items) => Ok(Some(Data::List(items))),
                None => Ok(None),
            }
        }
        Token::BeginObject => {
            if levels == 0 {
                return Ok(None);
            }
            match read_members(alloc, reader, levels - 1)? {
                Some(members) => Ok(Some(Data::Map(members))),
                None => Ok(None),
            }
        }
    }
}

// The items of a List, up to its end.
#[cycle(read_value)]
#[inline(never)]
fn read_items(
    alloc: Global,
    reader: &mut Reader<'_>,
    levels: usize,
) -> Result<Option<Items>, OutOfMemory>
    ensures ok { IfOk result (λ found. IfSome found
        (λ items. ReadsItems levels reader.old (trees_of items) reader.new)) }
    ensures shorter { IfOk result
        (λ found. IsSome found → length reader.new < length reader.old) }
{
    let mut found = Items::new(alloc);
    'items: while !reader.take_end_array() {
        let Some(item) = read_value(alloc, reader, levels)? else {
            return Ok(None);
        };
        found.push(item)?;
    }
    Ok(Some(found))
}

// The members of a Map, up to its end.
#[cycle(read_value)]
#[inline(never)]
fn read_members(
    alloc: Global,
    reader: &mut Reader<'_>,
    levels: usize,
) -> Result<Option<Members>, OutOfMemory>
    ensures ok { IfOk result (λ found. IfSome found
        (λ members. ReadsMembers levels reader.old (entries_of members.pairs) reader.new)) }
    ensures shorter { IfOk result
        (λ found. IsSome found → length reader.new < length reader.old) }
{
    let mut found = Members::new(alloc);
    'members: loop {
        let Ok(next) = reader.next_key() else {
            return Ok(None);
        };
        let Some(key) = next else {
            return Ok(Some(found));
        };
        let Some(member) = read_value(alloc, reader, levels)? else {
            return Ok(None);
        };
        if !place_member(alloc, &mut found, key, member)? {
            return Ok(None);
        }
    }
}

// Puts the member to its place in order of key bytes, but answers false where the key is there or
// there is no more room.
fn place_member(
    alloc: Global,
    found: &mut Members,
    key: &str,
    member: Data,
) -> Result<bool, OutOfMemory>
    requires { Ascend found.old.pairs }
    ensures placed { IfOk result (λ done. IsTrue done
        → IfSome (place_for key.now found.old.pairs)
        (λ at. found.new.pairs ≡ insert found.old.pairs at (chars key.now, member))) }
    ensures bytes { IfOk result (λ done. IsTrue done
        → encode_utf8_all (chars key.now) ≡ key.now) }
    ensures there { IfOk result (λ done. IsTrue done
        → IsSome (place_for key.now found.old.pairs)) }
    ensures ascend { IfOk result (λ done. IsTrue done → Ascend found.new.pairs) }
{
    if found.len() >= MAX_SCANNED {
        return Ok(false);
    }
    let Some(at) = place_for(found.as_slice(), key) else {
        return Ok(false);
    };
    let name = Text::from_str(alloc, key)?;
    found.insert(at, name, member)?;
    Ok(true)
}

// Where a member with this key goes among those in order of key bytes, unless it is there.
fn place_for(found: &[(Text, Data)], key: &str) -> Option<usize>
    ensures place { result ≡ place_for key.now found.now }
    ensures within { IfSome result (λ at. at ≤ length found.now) }
{
    for (at, pair) in found.iter().enumerate() {
        match key.cmp(pair.0.as_str()) {
            Ordering::Less => return Some(at),
            Ordering::Equal => return None,
            Ordering::Greater => {}
        }
    }
    Some(found.len())
}
