ghost use Rattle.std.specs.Prelude.{◌≡◌, ◌++◌, [], IfOk, OnOk, IsTrue, option_map};
ghost use Rattle.gtm_base.specs.Ascii.{is_all_ascii};
ghost use Rattle.gtm_data.specs.Tree.{tree_of, trees_of};
ghost use Rattle.perm_reader.specs.Parts.{parts_in, parts_warned, parts_named, part_named};
ghost use Rattle.perm_reader.specs.Parts.{is_any, word_warned, keys_in, keys_warned, texts_in};
ghost use Rattle.perm_reader.specs.Parts.{others_warned, put_text, text_warned};
ghost use Rattle.perm_reader.specs.Readings.{plus, word_of};
ghost use Rattle.perm_reader.specs.Values.{text_value};

use crate::reading::{Reading, Word, warn, warn_of, word_of};
use crate::values::{called, flag_param, list_value, param, text_value};
use gtm_base::{OutOfMemory, Texts};
use gtm_data::Data;
use perm_model::{AddressParts, Part, Parts};
use std::alloc::Global;

// Which parts of an address the parameters name. Warnings go behind what was read.
pub(crate) fn read_parts(
    alloc: Global,
    out: &mut Reading,
    params: &[Data],
) -> Result<AddressParts, OutOfMemory>
    ensures parts { IfOk result (λ parts. parts ≡ parts_in (trees_of params.now)) }
    ensures warned { OnOk result (out.new ≡ plus out.old (parts_warned (trees_of params.now))) }
{
    let any_part = read_word(alloc, out, param(params, "urlParts"))?;
    let any_query = read_word(alloc, out, param(params, "queriesAllowed"))?;
    let keys = read_keys(alloc, out, param(params, "queryKeys"))?;
    let parts = parts_named(alloc, params)?;
    Ok(AddressParts {
        any_part,
        parts,
        any_query,
        keys,
    })
}

// Whether the word is `any`. An unknown word is warned of.
fn read_word(alloc: Global, out: &mut Reading, said: Option<&Data>) -> Result<bool, OutOfMemory>
    ensures any { IfOk result
        (λ any. any ≡ is_any (word_of (option_map (λ v. tree_of v.now) said.entry))) }
    ensures warned { OnOk result
        (out.new ≡ plus out.old (word_warned (option_map (λ v. tree_of v.now) said.entry))) }
{
    match word_of(said) {
        Word::Any => Ok(true),
        Word::Specific => Ok(false),
        Word::Unknown => {
            warn_of(alloc, out, said)?;
            Ok(false)
        },
    }
}

fn parts_named(alloc: Global, params: &[Data]) -> Result<Parts, OutOfMemory>
    ensures { IfOk result (λ parts. parts ≡ parts_named (trees_of params.now)) }
{
    let mut parts = Parts::new(alloc);
    put_part(&mut parts, params, "protocol", Part::Protocol)?;
    put_part(&mut parts, params, "host", Part::Host)?;
    put_part(&mut parts, params, "port", Part::Port)?;
    put_part(&mut parts, params, "path", Part::Path)?;
    put_part(&mut parts, params, "query", Part::Query)?;
    put_part(&mut parts, params, "fragment", Part::Fragment)?;
    put_part(&mut parts, params, "extension", Part::Extension)?;
    Ok(parts)
}

fn put_part(parts: &mut Parts, params: &[Data], name: &str, part: Part) -> Result<(), OutOfMemory>
    requires { IsTrue (is_all_ascii name.now) }
    ensures { OnOk result
        (parts.new ≡ parts.old ++ part_named name.now part (trees_of params.now)) }
{
    if flag_param(params, name) {
        parts.push(part)
    } else {
        Ok(())
    }
}

// The keys of a query, where there is a list of them.
fn read_keys(alloc: Global, out: &mut Reading, value: Option<&Data>) -> Result<Texts, OutOfMemory>
    ensures keys { IfOk result
        (λ keys. keys ≡ keys_in (option_map (λ v. tree_of v.now) value.entry)) }
    ensures warned { OnOk result
        (out.new ≡ plus out.old (keys_warned (option_map (λ v. tree_of v.now) value.entry))) }
{
    match value {
        Some(value) => match list_value(value) {
            Some(items) => read_texts(alloc, out, items),
            None => {
                warn(out, called(alloc, value)?)?;
                Ok(Texts::new(alloc))
            },
        },
        None => Ok(Texts::new(alloc)),
    }
}

fn read_texts(alloc: Global, out: &mut Reading, items: &[Data]) -> Result<Texts, OutOfMemory>
    ensures texts { IfOk result (λ texts. texts ≡ texts_in (trees_of items.now)) }
    ensures warned { OnOk result (out.new ≡ plus out.old (others_warned (trees_of items.now))) }
{
    let mut texts = Texts::new(alloc);
    for item in items {
        read_text(alloc, &mut texts, out, item)?;
    }
    Ok(texts)
}

fn read_text(
    alloc: Global,
    texts: &mut Texts,
    out: &mut Reading,
    item: &Data,
) -> Result<(), OutOfMemory>
    ensures text { OnOk result
        (texts.new ≡ texts.old ++ put_text (text_value (tree_of item.now)) []) }
    ensures warned { OnOk result (out.new
        ≡ plus out.old (text_warned (text_value (tree_of item.now)) (tree_of item.now))) }
{
    match text_value(item) {
        Some(text) => texts.push(text.copy(alloc)?),
        None => warn(out, called(alloc, item)?),
    }
}
