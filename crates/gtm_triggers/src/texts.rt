ghost use Rattle.std.specs.Prelude.{◌≡◌};
ghost use Rattle.gtm_triggers.specs.Texts as spec;

use gtm_base::Text;

/// Whether a text begins with another one. Takes no memory.
pub fn starts(text: &Text, front: &Text) -> bool
    ensures { result ≡ spec.starts text.now front.now }
{
    text.as_str().starts_with(front.as_str())
}

/// Whether a text ends with another one. Takes no memory.
pub fn ends(text: &Text, back: &Text) -> bool
    ensures { result ≡ spec.ends text.now back.now }
{
    text.as_str().ends_with(back.as_str())
}

/// Whether a text has another one somewhere. Takes no memory.
pub fn has(text: &Text, part: &Text) -> bool
    ensures { result ≡ spec.has text.now part.now }
{
    text.as_str().contains(part.as_str())
}
