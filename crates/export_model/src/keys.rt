ghost use Rattle.std.specs.Prelude.{◌≡◌, option_map, IsTrue};
ghost use Rattle.gtm_base.specs.Ascii.{is_all_ascii};
ghost use Rattle.export_model.specs.Keys.{first_of_key};

use crate::{Param, Params};

/// The first parameter with a key, which is a word, or `None` where none has it.
pub fn first_of_key<'a>(key: &str, params: &'a Params) -> Option<&'a Param>
    requires { IsTrue (is_all_ascii key.now) }
    ensures { option_map (λ param. param.now) result ≡ first_of_key key.now params.now }
{
    params
        .as_slice()
        .iter()
        .find(|param| param.key.is_word(key))
}
