ghost use Rattle.std.specs.Prelude.{◌≡◌, ◌<◌, ◌++◌, ◌∷◌, [], IfOk, OnOk};
ghost use Rattle.std.specs.Char.{digit_char};
ghost use Rattle.std.specs.List.{flat_map, join_with_byte, list_all};
ghost use Rattle.std.specs.Str.{chars};
ghost use Rattle.gtm_data.specs.JsonText.{json_text, item_texts, member_texts, quoted, escaped};
ghost use Rattle.gtm_data.specs.JsonText.{is_plain_byte, comma_before};
ghost use Rattle.gtm_data.specs.Tree.{tree_of, trees_of, entries_of};

use crate::data::{Data, Items, Members};
use gtm_base::{OutOfMemory, Text};
use std::alloc::Global;

/// The value as compact JSON text. `undefined` and functions, which JSON lacks, stand as the words
/// `undefined` and `function`.
pub fn json_text(alloc: Global, value: &Data) -> Result<Text, OutOfMemory>
    ensures { IfOk result (λ text. text ≡ json_text (tree_of value.now)) }
{
    let mut out = Text::new(alloc);
    write_json(&mut out, value)?;
    Ok(out)
}

/// Puts the JSON text of a value behind a text. Where memory is wanting, a part of it may stand
/// there.
#[cycle(json)]
#[tactic(auto, unfolding(crate::specs::JsonText::json_text))]
pub fn write_json(out: &mut Text, value: &Data) -> Result<(), OutOfMemory>
    ensures { OnOk result (out.new ≡ out.old ++ json_text (tree_of value.now)) }
{
    match value {
        Data::Undefined => out.push_word("undefined"),
        Data::Null => out.push_word("null"),
        Data::Bool(true) => out.push_word("true"),
        Data::Bool(false) => out.push_word("false"),
        Data::Whole(number) => out.push_signed(*number),
        Data::Text(text) => write_quoted(out, text.as_str()),
        Data::List(items) => {
            out.push('[')?;
            write_items(out, items)?;
            out.push(']')
        }
        Data::Map(members) => {
            out.push('{')?;
            write_members(out, members)?;
            out.push('}')
        }
        Data::Foreign => out.push_word("function"),
        Data::Callback(_) => out.push_word("function"),
    }
}

#[cycle(json)]
fn write_items(out: &mut Text, items: &Items) -> Result<(), OutOfMemory>
    ensures { OnOk result
        (out.new ≡ out.old ++ join_with_byte 44 (item_texts (trees_of items.now))) }
{
    for (at, item) in items.as_slice().iter().enumerate() {
        write_comma(out, at)?;
        write_json(out, item)?;
    }
    Ok(())
}

#[cycle(json)]
fn write_members(out: &mut Text, members: &Members) -> Result<(), OutOfMemory>
    ensures { OnOk result
        (out.new ≡ out.old ++ join_with_byte 44 (member_texts (entries_of members.now.pairs))) }
{
    for (at, member) in members.as_slice().iter().enumerate() {
        write_comma(out, at)?;
        write_key(out, &member.0)?;
        write_json(out, &member.1)?;
    }
    Ok(())
}

/// Puts a comma behind a text, but for the first item.
pub(crate) fn write_comma(out: &mut Text, at: usize) -> Result<(), OutOfMemory>
    ensures { OnOk result (out.new ≡ out.old ++ comma_before at) }
{
    if at > 0 {
        out.push(',')?;
    }
    Ok(())
}

fn write_key(out: &mut Text, key: &Text) -> Result<(), OutOfMemory>
    ensures { OnOk result (out.new ≡ out.old ++ (quoted key.now ++ 58 ∷ [])) }
{
    write_quoted(out, key.as_str())?;
    out.push(':')?;
    Ok(())
}

/// Puts a text as a JSON string behind a text. Where memory is wanting, a part of it may stand
/// there.
pub fn write_quoted(out: &mut Text, text: &str) -> Result<(), OutOfMemory>
    ensures { OnOk result (out.new ≡ out.old ++ quoted (chars text.now)) }
{
    out.push('"')?;
    if is_plain(text) {
        out.push_str(text)?;
    } else {
        write_characters(out, text)?;
    }
    out.push('"')?;
    Ok(())
}

// Whether the text stands within quotes as it is, as most do.
fn is_plain(text: &str) -> bool
    ensures { result ≡ list_all is_plain_byte text.now }
{
    text.bytes()
        .all(|byte| byte >= b' ' && byte != b'"' && byte != b'\\')
}

fn write_characters(out: &mut Text, text: &str) -> Result<(), OutOfMemory>
    ensures { OnOk result (out.new ≡ out.old ++ flat_map escaped (chars text.now)) }
{
    for c in text.chars() {
        write_escaped(out, c)?;
    }
    Ok(())
}

fn write_escaped(out: &mut Text, c: char) -> Result<(), OutOfMemory>
    ensures { OnOk result (out.new ≡ out.old ++ escaped c) }
{
    match c {
        '"' => out.push_word("\\\""),
        '\\' => out.push_word("\\\\"),
        '\u{8}' => out.push_word("\\b"),
        '\u{c}' => out.push_word("\\f"),
        '\n' => out.push_word("\\n"),
        '\r' => out.push_word("\\r"),
        '\t' => out.push_word("\\t"),
        _ => if c < ' ' {
            out.push_word("\\u00")?;
            out.push(hex_digit(c as u8 / 16))?;
            out.push(hex_digit(c as u8 % 16))
        } else {
            out.push(c)
        },
    }
}

fn hex_digit(digit: u8) -> char
    requires { digit < 16 }
    ensures { result ≡ digit_char digit }
{
    if digit < 10 {
        (b'0' + digit) as char
    } else {
        (b'a' + (digit - 10)) as char
    }
}
