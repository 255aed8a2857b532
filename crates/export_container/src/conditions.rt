ghost use Rattle.std.specs.Prelude.{◌≡◌, ◌++◌, map, IfOk, OnOk, IsTrue};
ghost use Rattle.folded_words.specs.Words.{among};
ghost use Rattle.gtm_base.specs.Ascii.{is_all_ascii};
ghost use Rattle.export_container.specs.Conditions.{op_words, op_of, empty_param, side_of, is_on};
ghost use Rattle.export_container.specs.Conditions.{condition_of, conditions_of};

use export_entries::{WrittenCondition, WrittenConditions, WrittenTrigger};
use export_fields::WrittenParams;
use export_model::{Condition, Conditions, Op, Param, ParamValue, Pieces};
use export_names::{Names, first_with, param_of, word_text};
use folded_words::folded;
use gtm_base::{OutOfMemory, Text};
use std::alloc::Global;

/// The conditions of a trigger: those of its custom event, its filter and its auto-event filter.
/// Fails where memory is wanting.
pub fn conditions_of(
    alloc: Global,
    names: &Names,
    written: &WrittenTrigger,
) -> Result<Conditions, OutOfMemory>
    ensures { IfOk result (λ made. made ≡ conditions_of names.now written.now) }
{
    let mut made = Conditions::new(alloc);
    push_conditions(alloc, names, &mut made, &written.custom)?;
    push_conditions(alloc, names, &mut made, &written.filter)?;
    push_conditions(alloc, names, &mut made, &written.auto)?;
    Ok(made)
}

// Puts conditions behind the others.
fn push_conditions(
    alloc: Global,
    names: &Names,
    made: &mut Conditions,
    written: &WrittenConditions,
) -> Result<(), OutOfMemory>
    ensures { OnOk result (made.new ≡ made.old ++ map (condition_of names.now) written.now) }
{
    for condition in written.as_slice() {
        made.push(condition_of(alloc, names, condition)?)?;
    }
    Ok(())
}

// The condition that a written one stands for.
fn condition_of(
    alloc: Global,
    names: &Names,
    written: &WrittenCondition,
) -> Result<Condition, OutOfMemory>
    ensures { IfOk result (λ made. made ≡ condition_of names.now written.now) }
{
    let op = op_of(alloc, &written.kind)?;
    let left = side_of(alloc, names, "arg0", &written.params)?;
    let right = side_of(alloc, names, "arg1", &written.params)?;
    Ok(Condition {
        op,
        left,
        right,
        negate: is_on("negate", &written.params),
        ignore_case: is_on("ignore_case", &written.params),
    })
}

// The comparison of a type.
fn op_of(alloc: Global, kind: &Text) -> Result<Op, OutOfMemory>
    ensures { IfOk result (λ made. made ≡ op_of kind.now) }
{
    match op_named(&folded(alloc, kind.as_str())?) {
        Some(op) => Ok(op),
        None => Ok(Op::Never(kind.copy(alloc)?)),
    }
}

// The comparison that a word stands for.
fn op_named(word: &Text) -> Option<Op>
    ensures { result ≡ among op_words word.now }
{
    if word.is_word("equals") {
        Some(Op::Equals)
    } else if word.is_word("contains") {
        Some(Op::Contains)
    } else if word.is_word("startswith") {
        Some(Op::StartsWith)
    } else if word.is_word("endswith") {
        Some(Op::EndsWith)
    } else if word.is_word("greater") {
        Some(Op::Greater)
    } else if word.is_word("greaterorequals") {
        Some(Op::GreaterOrEquals)
    } else if word.is_word("less") {
        Some(Op::Less)
    } else if word.is_word("lessorequals") {
        Some(Op::LessOrEquals)
    } else if word.is_word("matchregex") {
        Some(Op::MatchRegex)
    } else {
        None
    }
}

// A side of a condition: the first parameter with its key, or one with no characters.
fn side_of(
    alloc: Global,
    names: &Names,
    key: &str,
    params: &WrittenParams,
) -> Result<Param, OutOfMemory>
    requires { IsTrue (is_all_ascii key.now) }
    ensures { IfOk result (λ made. made ≡ side_of names.now key.now params.now) }
{
    match first_with(key, params) {
        Some(param) => param_of(alloc, names, param),
        None => empty_param(alloc, key),
    }
}

// A parameter with no characters.
fn empty_param(alloc: Global, key: &str) -> Result<Param, OutOfMemory>
    requires { IsTrue (is_all_ascii key.now) }
    ensures { IfOk result (λ made. made ≡ empty_param key.now) }
{
    let key = word_text(alloc, key)?;
    Ok(Param {
        key,
        value: ParamValue::Template(Pieces::new(alloc)),
    })
}

// Whether the text of the first parameter with a key is `true`.
fn is_on(key: &str, params: &WrittenParams) -> bool
    requires { IsTrue (is_all_ascii key.now) }
    ensures { result ≡ is_on key.now params.now }
{
    match first_with(key, params) {
        Some(param) => param.value.is_word("true"),
        None => false,
    }
}
