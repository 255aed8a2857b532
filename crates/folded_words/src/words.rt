ghost use Rattle.std.specs.Prelude.{◌≡◌, IfOk, IsTrue};
ghost use Rattle.std.specs.Str.{chars, bytes_eq};
ghost use Rattle.gtm_base.specs.Ascii.{is_all_ascii};
ghost use Rattle.folded_words.specs.Words.{folded};

use gtm_base::{OutOfMemory, Text};
use std::alloc::Global;

/// The text without its underscores, and with its ASCII letters in lower case. Fails where memory
/// is wanting.
pub fn folded(alloc: Global, text: &str) -> Result<Text, OutOfMemory>
    ensures { IfOk result (λ word. word ≡ folded (chars text.now)) }
{
    let mut word = Text::new(alloc);
    for c in text.chars() {
        if c != '_' {
            word.push(c.to_ascii_lowercase())?;
        }
    }
    Ok(word)
}

/// Whether the text, without its underscores and with its ASCII letters in lower case, is this word
/// of ASCII characters. Fails where memory is wanting.
pub fn is_folded(alloc: Global, text: &str, word: &str) -> Result<bool, OutOfMemory>
    requires { IsTrue (is_all_ascii word.now) }
    ensures { IfOk result (λ is. is ≡ bytes_eq (folded (chars text.now)) word.now) }
{
    let found = folded(alloc, text)?;
    Ok(found.is_word(word))
}
