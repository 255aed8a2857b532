ghost use Rattle.std.specs.Prelude.{◌≡◌, map, option_map, IfOk};
ghost use Rattle.folded_words.specs.Words.{among};
ghost use Rattle.export_names.specs.Params.{param_of};
ghost use Rattle.export_container.specs.Variables.{variable_words, custom_kind, variable_kind};
ghost use Rattle.export_container.specs.Variables.{is_lower, is_upper, format_of, variable_of};

use export_entries::{WrittenCase, WrittenFormat, WrittenVariable, WrittenVariables};
use export_fields::WrittenParam;
use export_model::{Format, Param, Variable, VariableKind, Variables};
use export_names::{Known, Names, TemplateTypes, param_of, params_of};
use gtm_base::{OutOfMemory, Text};
use std::alloc::Global;

/// The variables that written ones stand for, in order. Fails where memory is wanting.
pub fn variables_of(
    alloc: Global,
    known: &Known,
    written: &WrittenVariables,
) -> Result<Variables, OutOfMemory>
    ensures { IfOk result (λ made. made ≡ map (variable_of known.now) written.now) }
{
    let mut made = Variables::new(alloc);
    for variable in written.as_slice() {
        made.push(variable_of(alloc, known, variable)?)?;
    }
    Ok(made)
}

// The variable that a written one stands for.
fn variable_of(
    alloc: Global,
    known: &Known,
    written: &WrittenVariable,
) -> Result<Variable, OutOfMemory>
    ensures { IfOk result (λ made. made ≡ variable_of known.now written.now) }
{
    let id = written.id.copy(alloc)?;
    let name = written.name.copy(alloc)?;
    let kind = variable_kind(alloc, &known.types, &written.kind)?;
    let params = params_of(alloc, &known.names, &written.params)?;
    let format = format_of(alloc, &known.names, &written.format)?;
    Ok(Variable {
        id,
        name,
        kind,
        params,
        format,
    })
}

// The kind of a variable of this type.
fn variable_kind(
    alloc: Global,
    types: &TemplateTypes,
    kind: &Text,
) -> Result<VariableKind, OutOfMemory>
    ensures { IfOk result (λ made. made ≡ variable_kind types.now kind.now) }
{
    match kind_named(kind) {
        Some(named) => Ok(named),
        None => custom_kind(alloc, types, kind),
    }
}

// The kind of a type that is not built.
fn custom_kind(
    alloc: Global,
    types: &TemplateTypes,
    kind: &Text,
) -> Result<VariableKind, OutOfMemory>
    ensures { IfOk result (λ made. made ≡ custom_kind types.now kind.now) }
{
    match types.template(kind) {
        Some(at) => Ok(VariableKind::Template(at)),
        None => Ok(VariableKind::Unknown(kind.copy(alloc)?)),
    }
}

// The kind that a type stands for by itself.
fn kind_named(kind: &Text) -> Option<VariableKind>
    ensures { result ≡ among variable_words kind.now }
{
    if kind.is_word("v") {
        Some(VariableKind::Layer)
    } else if kind.is_word("c") {
        Some(VariableKind::Constant)
    } else if kind.is_word("k") {
        Some(VariableKind::Cookie)
    } else if kind.is_word("j") {
        Some(VariableKind::Global)
    } else if kind.is_word("u") {
        Some(VariableKind::Url)
    } else if kind.is_word("f") {
        Some(VariableKind::Referrer)
    } else if kind.is_word("e") {
        Some(VariableKind::EventName)
    } else if kind.is_word("smm") {
        Some(VariableKind::Lookup)
    } else if kind.is_word("remm") {
        Some(VariableKind::RegexTable)
    } else {
        None
    }
}

// The format that a written one stands for.
fn format_of(
    alloc: Global,
    names: &Names,
    written: &Option<WrittenFormat>,
) -> Result<Format, OutOfMemory>
    ensures { IfOk result (λ made. made ≡ format_of names.now written.now) }
{
    match written {
        Some(format) => format_made(alloc, names, format),
        None => Ok(Format {
            lower: false,
            upper: false,
            null: None,
            undefined: None,
            yes: None,
            no: None,
        }),
    }
}

// The format that one which is there stands for.
fn format_made(alloc: Global, names: &Names, written: &WrittenFormat) -> Result<Format, OutOfMemory>
    ensures { IfOk result (λ made. made ≡ format_of names.now (Some written.now)) }
{
    let null = param_in(alloc, names, &written.null)?;
    let undefined = param_in(alloc, names, &written.undefined)?;
    let yes = param_in(alloc, names, &written.yes)?;
    let no = param_in(alloc, names, &written.no)?;
    Ok(Format {
        lower: is_lower(written.case),
        upper: is_upper(written.case),
        null,
        undefined,
        yes,
        no,
    })
}

// The parameter that a written one stands for, if there is one.
fn param_in(
    alloc: Global,
    names: &Names,
    written: &Option<WrittenParam>,
) -> Result<Option<Param>, OutOfMemory>
    ensures { IfOk result (λ made. made ≡ option_map (param_of names.now) written.now) }
{
    match written {
        Some(param) => Ok(Some(param_of(alloc, names, param)?)),
        None => Ok(None),
    }
}

// Whether a text is lower-cased.
fn is_lower(case: WrittenCase) -> bool
    ensures { result ≡ is_lower case }
{
    matches!(case, WrittenCase::Lower)
}

// Whether a text is upper-cased.
fn is_upper(case: WrittenCase) -> bool
    ensures { result ≡ is_upper case }
{
    matches!(case, WrittenCase::Upper)
}
