ghost use Rattle.std.specs.Prelude.{◌≡◌, ◌∷◌, [], IfOk, IsTrue, MatchOption, option_map};
ghost use Rattle.std.specs.Str.{chars};
ghost use Rattle.gtm_base.specs.Ascii.{is_all_ascii};
ghost use Rattle.perm_model.specs.Texts.{is_nothing};
ghost use Rattle.perm_reader.specs.Patterns.{behind, before_slash, from_slash, has_star, is_host};
ghost use Rattle.perm_reader.specs.Patterns.{is_authority, address_pattern, key_pattern};

use gtm_base::{OutOfMemory, Text};
use perm_model::{AddressPattern, KeyPattern};
use std::alloc::Global;

// The pattern that a text is, or `None` where it is none.
pub(crate) fn address_pattern(
    alloc: Global,
    text: &Text,
) -> Result<Option<AddressPattern>, OutOfMemory>
    ensures { IfOk result (λ pattern. pattern ≡ address_pattern text.now) }
{
    let rest = match behind("https://", text.as_str()) {
        Some(rest) => rest,
        None => return Ok(None),
    };
    let (authority, path) = split_at_slash(alloc, rest)?;
    if is_authority(&authority) {
        Ok(Some(AddressPattern::Pattern { authority, path }))
    } else {
        Ok(None)
    }
}

pub(crate) fn key_pattern(alloc: Global, text: &Text) -> Result<KeyPattern, OutOfMemory>
    ensures { IfOk result (λ pattern. pattern ≡ key_pattern text.now) }
{
    let mut front = Text::new(alloc);
    let mut left = text.as_str();
    while let Some((c, rest)) = next_char(left) {
        if c == '*' && is_nothing(rest) {
            return Ok(KeyPattern::Prefix(front));
        }
        front.push(c)?;
        left = rest;
    }
    Ok(KeyPattern::Equal(front))
}

// What stands before the first slash, and from it on.
fn split_at_slash(alloc: Global, text: &str) -> Result<(Text, Option<Text>), OutOfMemory>
    ensures front { IfOk result (λ r. r.0 ≡ before_slash (chars text.now)) }
    ensures rest { IfOk result (λ r. r.1 ≡ from_slash (chars text.now)) }
{
    let mut front = Text::new(alloc);
    let mut left = text;
    while let Some((c, rest)) = next_char(left) {
        if c == '/' {
            let path = Text::from_str(alloc, left)?;
            return Ok((front, Some(path)));
        }
        front.push(c)?;
        left = rest;
    }
    Ok((front, None))
}

fn is_authority(text: &Text) -> bool
    ensures { result ≡ is_authority text.now }
{
    if text.is_word("*") {
        return true;
    }
    match behind("*.", text.as_str()) {
        Some(host) => is_host(host),
        None => is_host(text.as_str()),
    }
}

fn is_host(text: &str) -> bool
    ensures { result ≡ is_host (chars text.now) }
{
    !is_nothing(text) && !has_star(text)
}

fn has_star(text: &str) -> bool
    ensures { result ≡ has_star (chars text.now) }
{
    let mut left = text;
    while let Some((c, rest)) = next_char(left) {
        if c == '*' {
            return true;
        }
        left = rest;
    }
    false
}

// What stands behind these ASCII characters, where a text begins with them.
fn behind<'a>(front: &str, text: &'a str) -> Option<&'a str>
    requires { IsTrue (is_all_ascii front.now) }
    ensures { option_map (λ rest. chars rest.now) result ≡ behind front.now (chars text.now) }
{
    behind_chars(front, text)
}

fn behind_chars<'a>(front: &str, text: &'a str) -> Option<&'a str>
    ensures { option_map (λ rest. chars rest.now) result
        ≡ behind (chars front.now) (chars text.now) }
{
    let mut left = front;
    let mut here = text;
    while let Some((c, more)) = next_char(left) {
        let (d, rest) = next_char(here)?;
        if c != d {
            return None;
        }
        left = more;
        here = rest;
    }
    Some(here)
}

fn is_nothing(text: &str) -> bool
    ensures { result ≡ is_nothing (chars text.now) }
{
    next_char(text).is_none()
}

// The first character, and what stands behind it.
fn next_char(text: &str) -> Option<(char, &str)>
    ensures { MatchOption result (chars text.now ≡ []) (λ r. chars text.now ≡ r.0 ∷ chars r.1.now) }
{
    let mut chars = text.chars();
    let first = chars.next()?;
    Some((first, chars.as_str()))
}
