ghost use Rattle.std.specs.Prelude.{◌≡◌, [], Some, None, Option, List, ℕ, IfOk};
ghost use Rattle.serde_json.specs.View.{view};
ghost use Rattle.export_fields.specs.Fault.{Reads, Fails};
ghost use Rattle.export_fields.specs.Words.{as_word, word_fault, word_at};

use crate::fault::{ReadEnd, broken_at};
use folded_words::folded;
use gtm_base::{OutOfMemory, Text};
use serde_json::Value;
use std::alloc::Global;

/// A closed list of words: `named` is what a folded word stands for, and `absent` is what an absent
/// field means.
pub trait WordList: Sized + Drop {
    ghost named: { List ℕ → Option Self };

    ghost absent: { Self };

    /// What the word stands for, or `None` where it is none of the list.
    fn named(word: &Text) -> Option<Self>
        ensures { result ≡ named word.now };

    /// What an absent field means.
    fn absent() -> Self
        ensures { result ≡ absent };
}

// What the value stands for as a word, or `None` where it is none of the list or no text.
fn as_word<W: WordList>(alloc: Global, value: &Value) -> Result<Option<W>, OutOfMemory>
    ensures { IfOk result (λ named. named ≡ as_word W.named (view value.now)) }
{
    match value.as_str() {
        Some(text) => Ok(W::named(&folded(alloc, text)?)),
        None => Ok(None),
    }
}

/// What the word at the key stands for, or what an absent one means. The text is compared without
/// its underscores and with its ASCII letters in lower case. A word that is none of the list, and a
/// value of another kind, null too, is a fault at the field.
#[tactic(auto, unfolding(crate::specs::Words::word_fault, crate::specs::Words::word_at))]
pub fn word<W: WordList>(alloc: Global, object: &Value, key: &str) -> Result<W, ReadEnd>
    ensures { Reads result (word_fault W.named key.now (view object.now))
        (word_at W.named W.absent key.now (view object.now)) }
{
    match object.get(key) {
        Some(value) => match as_word(alloc, value)? {
            Some(named) => Ok(named),
            None => Err(broken_at(alloc, key)),
        },
        None => Ok(W::absent()),
    }
}
