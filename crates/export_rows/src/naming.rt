ghost use Rattle.std.specs.Prelude.{◌<◌, ◌^◌, length};

use crate::judging::{container_in, with_version};
use crate::model::is_literal;
use export_model::{NameRef, ParamValue, Piece, Pieces};
use export_names::{ByName, Names, pieces_of, texts_of};
use gtm_base::{OutOfMemory, Text, Texts};
use std::alloc::Global;
use std::test::Fail;

// A piece that is to be.
enum Wanted {
    Is(&'static str),
    Names(NameRef),
}

// A text, and its pieces where the variables are `Value` and `Event`, and the built-in variables
// `Event` and `Page URL`.
struct Row {
    text: &'static str,
    pieces: &'static [Wanted],
}

const ROWS: &[Row] = &[
    Row {
        text: "",
        pieces: &[],
    },
    Row {
        text: "buy {{Value}}!",
        pieces: &[
            Wanted::Is("buy "),
            Wanted::Names(NameRef::Variable(0)),
            Wanted::Is("!"),
        ],
    },
    Row {
        text: "{{Event}}{{Page URL}}",
        pieces: &[
            Wanted::Names(NameRef::Variable(1)),
            Wanted::Names(NameRef::BuiltIn(1)),
        ],
    },
    Row {
        text: "{{_event}} {{value}}",
        pieces: &[
            Wanted::Names(NameRef::EventName),
            Wanted::Is(" "),
            Wanted::Names(NameRef::Nothing),
        ],
    },
    Row {
        text: "}} {{Value}",
        pieces: &[Wanted::Is("}} {{Value}")],
    },
];

#[test]
fn names_in_texts(rt: HostRuntime) -> Result<(), Fail> {
    let alloc = rt.alloc();
    let mut variables = Texts::new(alloc);
    variables.push(Text::from_str(alloc, "Value")?)?;
    variables.push(Text::from_str(alloc, "Event")?)?;
    let mut built_ins = Texts::new(alloc);
    built_ins.push(Text::from_str(alloc, "Event")?)?;
    built_ins.push(Text::from_str(alloc, "Page URL")?)?;
    let names = names_of(alloc, &variables, &built_ins)?;
    for row in ROWS {
        let pieces = pieces_of(alloc, &names, row.text)?;
        assert!(rt; are_pieces(&pieces, row.pieces), "{}", row.text);
    }
    Ok(())
}

// The names of these variables and of these built-in variables.
fn names_of<'a>(
    alloc: Global,
    variables: &'a Texts,
    built_ins: &'a Texts,
) -> Result<Names<'a>, OutOfMemory>
    requires variables { length variables.now < 2 ^ 32 }
    requires built_ins { length built_ins.now < 2 ^ 32 }
{
    let first = texts_of::<ByName, Text>(alloc, variables.as_slice())?;
    let second = texts_of::<ByName, Text>(alloc, built_ins.as_slice())?;
    let names = Names::of(alloc, first, second)?;
    Ok(names)
}

// Whether they are these pieces, in their order.
fn are_pieces(pieces: &Pieces, wanted: &[Wanted]) -> bool {
    for (piece, want) in pieces.as_slice().iter().zip(wanted) {
        let same = match (piece, want) {
            (Piece::Literal(text), Wanted::Is(word)) => text.is(word),
            (Piece::Name(name), Wanted::Names(other)) => name == other,
            _ => false,
        };
        if !same {
            return false;
        }
    }
    pieces.len() == wanted.len()
}

// A tag with parameters of each kind.
const KINDS: &[u8] =
    br#""tag":[{"tagId":"1","name":"A","type":"html","parameter":[{"type":"INTEGER","key":"n","value":"-7"},{"type":"INTEGER","value":"7.0"},{"type":"BOOLEAN","value":"true"},{"type":"BOOLEAN","value":"True"},{"type":"LIST","list":[{"type":"INTEGER","value":"1"},{"type":"INTEGER","value":"2"}]},{"type":"MAP","map":[{"type":"BOOLEAN","key":"k","value":"false"}]},{"type":"TRIGGER_REFERENCE","value":"{{A}}"}]}]"#;

#[test]
fn parameters_of_each_kind(rt: HostRuntime) -> Result<(), Fail> {
    let alloc = rt.alloc();
    let container = container_in(alloc, &with_version(alloc, KINDS)?)?;
    let tag = container.tags.get(0).ok_or("no tag")?;
    let [number, broken, truth, word, list, map, reference] = tag.params.as_slice() else {
        return Err("other than seven parameters".into());
    };
    assert_eq!(rt; number.key.as_str(), "n", "the key");
    assert!(rt;
        matches!(number.value, ParamValue::Integer(-7)),
        "a whole number"
    );
    assert!(rt; is_literal(&broken.value, "7.0"), "no whole number");
    assert!(rt; matches!(truth.value, ParamValue::Bool(true)), "a truth");
    assert!(rt; is_literal(&word.value, "True"), "no truth");
    assert!(rt;
        matches!(&list.value, ParamValue::List(items) if items.len() == 2),
        "a list"
    );
    assert!(rt;
        matches!(&map.value, ParamValue::Map(members) if members.len() == 1),
        "a map"
    );
    assert!(rt;
        matches!(&reference.value, ParamValue::Reference(id) if id.is("{{A}}")),
        "a reference"
    );
    Ok(())
}
