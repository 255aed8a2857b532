ghost use Rattle.std.specs.Prelude.{◌≡◌, [], ◌∷◌, ◌++◌, IfOk, IsTrue, OnOk, OnErr, encode_utf8_all};
ghost use Rattle.std.specs.Prelude.{decimal};
ghost use Rattle.std.specs.Str.{chars, bytes_eq};
ghost use Rattle.std.specs.Fmt.{signed_decimal};
ghost use Rattle.gtm_base.specs.Ascii.{is_all_ascii};

use crate::{ListOf, OutOfMemory};
use itoa::Buffer;
use std::alloc::Global;
use std::marker::Model;

/// A text, which contracts see as the list of its Unicode scalar values.
#[derive(Debug, Drop)]
pub struct Text {
    inner: String,
}

/// Texts, in order.
pub type Texts = ListOf<Text>;

impl Model for Text {
    ghost use Rattle.std.specs.Prelude.{List, ℕ, string_bytes};
    ghost use Rattle.std.specs.Str.{chars};

    ghost Value = { List ℕ };

    ghost view = { λ text. chars (string_bytes text.inner) };
}

impl Text {
    /// The empty text. Takes no memory.
    pub fn new(alloc: Global) -> Text
        ensures { result ≡ [] }
    {
        Text {
            inner: String::new(alloc),
        }
    }

    /// The empty text, with room for so many bytes.
    pub fn with_room(alloc: Global, bytes: usize) -> Result<Text, OutOfMemory>
        ensures { IfOk result (λ made. made ≡ []) }
    {
        Ok(Text {
            inner: String::with_capacity(alloc, bytes)?,
        })
    }

    /// A text of the same characters.
    pub fn from_str(alloc: Global, text: &str) -> Result<Text, OutOfMemory>
        ensures { IfOk result (λ made. made ≡ chars text.now) }
    {
        Ok(Text {
            inner: String::from_str(alloc, text)?,
        })
    }

    /// The text as a `&str`. Takes no memory.
    pub fn as_str(&self) -> &str
        ensures bytes { result.now ≡ encode_utf8_all self.now }
        ensures chars { chars result.now ≡ self.now }
    {
        self.inner.as_str()
    }

    /// A second text of the same characters.
    pub fn copy(&self, alloc: Global) -> Result<Text, OutOfMemory>
        ensures { IfOk result (λ made. made ≡ self.now) }
    {
        Text::from_str(alloc, self.as_str())
    }

    /// Whether it has the characters of `other`, in their order.
    pub fn is(&self, other: &str) -> bool
        ensures { result ≡ bytes_eq self.now (chars other.now) }
    {
        self.as_str() == other
    }

    /// Whether it is this word of ASCII characters.
    pub fn is_word(&self, word: &str) -> bool
        requires { IsTrue (is_all_ascii word.now) }
        ensures { result ≡ bytes_eq self.now word.now }
    {
        self.is(word)
    }

    /// Puts another text in its place. Where memory is wanting, the text is empty.
    pub fn set(&mut self, text: &str) -> Result<(), OutOfMemory>
        ensures ok { OnOk result (self.new ≡ chars text.now) }
        ensures err { OnErr result (self.new ≡ []) }
    {
        self.inner.clear();
        self.push_str(text)
    }

    /// Puts a character behind. Where memory is wanting, the text stays as it was.
    pub fn push(&mut self, character: char) -> Result<(), OutOfMemory>
        ensures ok { OnOk result (self.new ≡ self.old ++ character ∷ []) }
        ensures err { OnErr result (self.new ≡ self.old) }
    {
        self.inner.push(character)?;
        Ok(())
    }

    /// Puts a text behind. Where memory is wanting, the text stays as it was.
    pub fn push_str(&mut self, text: &str) -> Result<(), OutOfMemory>
        ensures ok { OnOk result (self.new ≡ self.old ++ chars text.now) }
        ensures err { OnErr result (self.new ≡ self.old) }
    {
        self.inner.push_str(text)?;
        Ok(())
    }

    /// Puts a word of ASCII characters behind. Where memory is wanting, the text stays as it was.
    pub fn push_word(&mut self, word: &str) -> Result<(), OutOfMemory>
        requires { IsTrue (is_all_ascii word.now) }
        ensures ok { OnOk result (self.new ≡ self.old ++ word.now) }
        ensures err { OnErr result (self.new ≡ self.old) }
    {
        self.push_str(word)
    }

    /// Puts the digits of a number behind. Where memory is wanting, the text stays as it was.
    pub fn push_unsigned(&mut self, number: u64) -> Result<(), OutOfMemory>
        ensures ok { OnOk result (self.new ≡ self.old ++ decimal number) }
        ensures err { OnErr result (self.new ≡ self.old) }
    {
        let mut digits = Buffer::new();
        self.push_str(digits.format(number))
    }

    /// Puts the digits of a number behind, after `-` where it is negative. Where memory is wanting,
    /// the text stays as it was.
    pub fn push_signed(&mut self, number: i64) -> Result<(), OutOfMemory>
        ensures ok { OnOk result (self.new ≡ self.old ++ signed_decimal number) }
        ensures err { OnErr result (self.new ≡ self.old) }
    {
        let mut digits = Buffer::new();
        self.push_str(digits.format(number))
    }
}

impl PartialEq for Text {
    ghost use Rattle.std.specs.Str.{bytes_eq};
    ghost use Rattle.std.specs.Cmp.{partial_equiv_from_equiv};
    ghost use Rattle.std.specs.Cmp.Lexicographic.{nat_list_eq_equiv};

    ghost eq = { bytes_eq };

    ghost laws = { partial_equiv_from_equiv nat_list_eq_equiv };

    fn eq(&self, other: &Text) -> bool {
        self.is(other.as_str())
    }
}

impl Eq for Text {
    ghost use Rattle.std.specs.Cmp.Lexicographic.{nat_list_eq_equiv};

    ghost laws = { nat_list_eq_equiv };
}
