ghost use Rattle.std.specs.Prelude.{◌≡◌, ◌++◌, IfOk, OnOk};
ghost use Rattle.std.specs.List.{join_with_byte};
ghost use Rattle.gtm_data.specs.TextOf.{text_of, texts_of};
ghost use Rattle.gtm_data.specs.Tree.{tree_of, trees_of};

use crate::data::{Data, Items};
use crate::printing::write_comma;
use gtm_base::{OutOfMemory, Text};
use std::alloc::Global;

/// The value as a text: a text is itself, the items of a List are joined by commas, a Map is
/// `[object Object]` and a function `[function]`.
pub fn text_of(alloc: Global, value: &Data) -> Result<Text, OutOfMemory>
    ensures { IfOk result (λ text. text ≡ text_of (tree_of value.now)) }
{
    let mut out = Text::new(alloc);
    write_text(&mut out, value)?;
    Ok(out)
}

#[cycle(text)]
#[tactic(auto, unfolding(crate::specs::TextOf::text_of))]
fn write_text(out: &mut Text, value: &Data) -> Result<(), OutOfMemory>
    ensures { OnOk result (out.new ≡ out.old ++ text_of (tree_of value.now)) }
{
    match value {
        Data::Undefined => out.push_word("undefined"),
        Data::Null => out.push_word("null"),
        Data::Bool(true) => out.push_word("true"),
        Data::Bool(false) => out.push_word("false"),
        Data::Whole(number) => out.push_signed(*number),
        Data::Text(text) => out.push_str(text.as_str()),
        Data::List(items) => write_texts(out, items),
        Data::Map(_) => out.push_word("[object Object]"),
        Data::Foreign => out.push_word("[function]"),
        Data::Callback(_) => out.push_word("[function]"),
    }
}

#[cycle(text)]
fn write_texts(out: &mut Text, items: &Items) -> Result<(), OutOfMemory>
    ensures { OnOk result (out.new ≡ out.old ++ join_with_byte 44 (texts_of (trees_of items.now))) }
{
    for (at, item) in items.as_slice().iter().enumerate() {
        write_comma(out, at)?;
        write_text(out, item)?;
    }
    Ok(())
}
