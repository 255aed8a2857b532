ghost use Rattle.std.specs.Prelude.{◌≡◌, option_map};
ghost use Rattle.std.specs.Str.{chars};

use gtm_base::{Keyed, ListOf, Text};

/// The items of a List.
pub type Items = ListOf<Data>;

/// The members of a Map: pairs of a key and a value, in order, with distinct keys.
pub type Members = Keyed<Data>;

/// A value of the data layer.
#[derive(Debug, Drop)]
pub enum Data {
    Undefined,
    Null,
    Bool(bool),
    /// From -9007199254740991 to 9007199254740991.
    Whole(i64),
    Text(Text),
    List(Items),
    Map(Members),
    /// A function of the page.
    Foreign,
    /// A callback of a template, by its number.
    Callback(u64),
}

impl Data {
    ghost use Rattle.gtm_data.specs.Tree.{tree_of, text_in};
    ghost use Rattle.gtm_data.specs.Paths.{member_of};

    /// The text that it is, or `None` where it is another value.
    pub fn as_text(&self) -> Option<&Text>
        ensures { option_map (λ text. text.now) result ≡ text_in (tree_of self.now) }
    {
        match self {
            Data::Text(text) => Some(text),
            _ => None,
        }
    }

    /// The member with this key, or `None` where no member has it or the value is no Map.
    pub fn member(&self, key: &str) -> Option<&Data>
        ensures { option_map (λ found. tree_of found.now) result
            ≡ member_of (chars key.now) (tree_of self.now) }
    {
        match self {
            Data::Map(members) => members.get(key),
            _ => None,
        }
    }
}
