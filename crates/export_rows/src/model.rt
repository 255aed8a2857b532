use export_model::{NameRef, ParamValue, Piece};
use gtm_base::Texts;

/// What the name stands for that a text is, where it is one name.
pub fn only_name(value: &ParamValue) -> Option<NameRef> {
    match value {
        ParamValue::Template(pieces) => match pieces.as_slice() {
            [Piece::Name(name)] => Some(*name),
            _ => None,
        },
        _ => None,
    }
}

/// Whether it is a text without names, and this one.
pub fn is_literal(value: &ParamValue, wanted: &str) -> bool {
    match value {
        ParamValue::Template(pieces) => match pieces.as_slice() {
            [Piece::Literal(text)] => text.is(wanted),
            _ => false,
        },
        _ => false,
    }
}

/// Whether it is one text, and this one.
pub fn only_text(texts: &Texts, wanted: &str) -> bool {
    match texts.as_slice() {
        [text] => text.is(wanted),
        _ => false,
    }
}
