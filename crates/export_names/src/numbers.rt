ghost use Rattle.std.specs.Prelude.{◌≡◌, ◌<◌, ◌^◌, IfOk, length, map};
ghost use Rattle.text_places.specs.Places.{place_of};

use crate::found_by::{FoundBy, texts_of};
use gtm_base::{ListOf, OutOfMemory, Text};
use std::alloc::Global;
use std::marker::Model;
use text_places::Places;

/// A list of texts, in which the number of a text is the first place that has it.
#[derive(Drop)]
pub struct Numbers<'a> {
    places: Places<'a>,
}

impl<'a> Model for Numbers<'a> {
    ghost use Rattle.std.specs.Prelude.{List, ℕ, ◌<◌, ◌^◌, length};

    ghost Value = { List (List ℕ) };

    ghost view = { λ numbers. numbers.places };

    ghost invariant = { λ numbers. length numbers.places < 2 ^ 32 };
}

impl<'a> Numbers<'a> {
    /// The numbers of these texts. Fails where memory is wanting.
    pub fn of(alloc: Global, texts: Vec<&'a Text>) -> Result<Numbers<'a>, OutOfMemory>
        requires { length texts.items < 2 ^ 32 }
        ensures { IfOk result (λ made. made ≡ map (λ t. t.now) texts.entry.items) }
    {
        let places = Places::of(alloc, texts)?;
        Ok(Numbers { places })
    }

    /// The number of a text, or `None` where no place has it.
    pub fn number(&self, text: &Text) -> Option<u32>
        ensures { result ≡ place_of text.now self.now }
    {
        self.places.place(text.as_str()).map(|at| at as u32)
    }
}

/// The numbers of entries by the texts that these are found by. Fails where memory is wanting.
pub fn numbers_of<'a, By, T: FoundBy<By>>(
    alloc: Global,
    entries: &'a ListOf<T>,
) -> Result<Numbers<'a>, OutOfMemory>
    requires { length entries.now < 2 ^ 32 }
    ensures { IfOk result (λ made. made ≡ map T.text entries.now) }
{
    let texts = texts_of::<By, T>(alloc, entries.as_slice())?;
    let numbers = Numbers::of(alloc, texts)?;
    Ok(numbers)
}
