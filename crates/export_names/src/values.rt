ghost use Rattle.std.specs.Prelude.{◌≡◌, map, option_map, IfOk, IsTrue};
ghost use Rattle.gtm_base.specs.Ascii.{is_all_ascii};
ghost use Rattle.export_names.specs.Values.{values_of, first_with};

use export_fields::{WrittenParam, WrittenParams};
use gtm_base::{OutOfMemory, Text, Texts};
use std::alloc::Global;

/// The first parameter with a key, which is a word.
pub fn first_with<'a>(key: &str, params: &'a WrittenParams) -> Option<&'a WrittenParam>
    requires { IsTrue (is_all_ascii key.now) }
    ensures { option_map (λ param. param.now) result ≡ first_with key.now params.now }
{
    params
        .as_slice()
        .iter()
        .find(|param| param.key.is_word(key))
}

/// The texts of parameters, in order. Fails where memory is wanting.
pub fn values_of(alloc: Global, params: &WrittenParams) -> Result<Texts, OutOfMemory>
    ensures { IfOk result (λ made. made ≡ values_of params.now) }
{
    let mut made = Texts::new(alloc);
    for param in params.as_slice() {
        made.push(param.value.copy(alloc)?)?;
    }
    Ok(made)
}

/// The text of a word. Fails where memory is wanting.
pub fn word_text(alloc: Global, word: &str) -> Result<Text, OutOfMemory>
    requires { IsTrue (is_all_ascii word.now) }
    ensures { IfOk result (λ made. made ≡ word.now) }
{
    let mut made = Text::new(alloc);
    made.push_word(word)?;
    Ok(made)
}
