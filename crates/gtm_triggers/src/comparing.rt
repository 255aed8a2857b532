ghost use Rattle.std.specs.Prelude.{◌≡◌, IfOk, int_lt, int_le};
ghost use Rattle.gtm_data.specs.TextOf.{text_of};
ghost use Rattle.gtm_data.specs.Tree.{tree_of};
ghost use Rattle.variable_kinds.specs.Ends.{Asks};
ghost use Rattle.gtm_variables.specs.Asked.{asked_of_op, pattern_by};
ghost use Rattle.gtm_triggers.specs.Comparing as spec;

use crate::texts::{ends, has, starts};
use export_model::{Condition, Op};
use gtm_base::{Engines, OutOfMemory, Text};
use gtm_data::{Data, text_of, whole_text};
use gtm_variables::ValueEnd;
use std::alloc::Global;
use variable_kinds::finds;

/// Whether a condition holds of the values of its two sides.
pub fn decided<E: Engines>(
    alloc: Global,
    engines: &mut E,
    condition: &Condition,
    left: &Data,
    right: &Data,
) -> Result<bool, ValueEnd>
    ensures value { IfOk result (λ holds. holds
        ≡ spec.decided condition.now (text_of (tree_of left.now)) (text_of (tree_of right.now))) }
    ensures asks { Asks (asked_of_op condition.now.op
        (pattern_by condition.now.ignore_case (text_of (tree_of right.now))))
        result (E.state engines.old) (E.state engines.new) }
{
    let left = text_of(alloc, left)?;
    let right = text_of(alloc, right)?;
    let pattern = pattern(alloc, condition, &right)?;
    let found = compared(alloc, engines, &condition.op, &left, &right, &pattern)?;
    Ok(!is_never(&condition.op) && found != condition.negate)
}

// The pattern that the right side is.
fn pattern(alloc: Global, condition: &Condition, right: &Text) -> Result<Text, OutOfMemory>
    ensures { IfOk result (λ made. made ≡ pattern_by condition.now.ignore_case right.now) }
{
    let mut made = Text::new(alloc);
    if condition.ignore_case {
        made.push_word("(?i)")?;
    }
    made.push_str(right.as_str())?;
    Ok(made)
}

// Whether a comparison holds of two texts.
fn compared<E: Engines>(
    alloc: Global,
    engines: &mut E,
    op: &Op,
    left: &Text,
    right: &Text,
    pattern: &Text,
) -> Result<bool, ValueEnd>
    ensures value { IfOk result
        (λ holds. holds ≡ spec.compares op.now left.now right.now pattern.now) }
    ensures asks { Asks (asked_of_op op.now pattern.now)
        result (E.state engines.old) (E.state engines.new) }
{
    match op {
        Op::Equals => Ok(left.is(right.as_str())),
        Op::Contains => Ok(has(left, right)),
        Op::StartsWith => Ok(starts(left, right)),
        Op::EndsWith => Ok(ends(left, right)),
        Op::Greater => Ok(is_less(right, left)),
        Op::GreaterOrEquals => Ok(is_at_most(right, left)),
        Op::Less => Ok(is_less(left, right)),
        Op::LessOrEquals => Ok(is_at_most(left, right)),
        Op::MatchRegex => finds(alloc, engines, pattern, left),
        Op::Never(_) => Ok(false),
    }
}

// Whether both are whole numbers, and the first is less.
fn is_less(left: &Text, right: &Text) -> bool
    ensures { result ≡ spec.whole_both int_lt left.now right.now }
{
    match whole_text(left.as_str()) {
        Some(x) => match whole_text(right.as_str()) {
            Some(y) => x < y,
            None => false,
        },
        None => false,
    }
}

// Whether both are whole numbers, and the first is not greater.
fn is_at_most(left: &Text, right: &Text) -> bool
    ensures { result ≡ spec.whole_both int_le left.now right.now }
{
    match whole_text(left.as_str()) {
        Some(x) => match whole_text(right.as_str()) {
            Some(y) => x <= y,
            None => false,
        },
        None => false,
    }
}

// Whether it never holds, also where it is negated.
fn is_never(op: &Op) -> bool
    ensures { result ≡ spec.is_never op.now }
{
    matches!(op, Op::Never(_))
}
