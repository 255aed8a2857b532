ghost use Rattle.std.specs.Prelude.{◌≡◌, IsTrue};
ghost use Rattle.gtm_base.specs.Ascii.{is_all_ascii};
ghost use Rattle.gtm_data.specs.Tree.{tree_of, trees_of};
ghost use Rattle.trace_forms.specs.Forms.{args_in, is_regional, is_word, has_region};
ghost use Rattle.trace_forms.specs.Views.{reading_of};

use crate::steps::{LineRead, TraceStep};
use gtm_data::{Data, Items};

// What a list of arguments says.
pub(crate) fn read_args(value: Data) -> LineRead
    ensures { reading_of result ≡ args_in (tree_of value) }
{
    match value {
        Data::List(items) => if is_regional(&items) {
            LineRead::Bad(7)
        } else {
            LineRead::Step(TraceStep::Args(Data::List(items)))
        },
        _ => LineRead::Bad(6),
    }
}

// Whether the arguments set the default of consent for regions.
fn is_regional(items: &Items) -> bool
    ensures { result ≡ is_regional (trees_of items.now) }
{
    match items.as_slice() {
        [command, kind, settings, ..] => is_word(command, "consent")
            && is_word(kind, "default")
            && has_region(settings),
        _ => false,
    }
}

// Whether the value is this text, a word of ASCII characters.
fn is_word(value: &Data, word: &str) -> bool
    requires { IsTrue (is_all_ascii word.now) }
    ensures { result ≡ is_word word.now (tree_of value.now) }
{
    match value {
        Data::Text(text) => text.is_word(word),
        _ => false,
    }
}

// Whether the value is a Map with the member `region`.
fn has_region(value: &Data) -> bool
    ensures { result ≡ has_region (tree_of value.now) }
{
    value.member("region").is_some()
}
