ghost use Rattle.std.specs.Prelude.{◌≡◌, ◌↔◌, ◌<◌, ◌^◌, ◌&&◌, IsTrue, All};
ghost use Rattle.export_model.specs.Params.{value_of, params_of};
ghost use Rattle.export_model.specs.Small.{is_few, count_of, is_small_value, are_small_values};
ghost use Rattle.export_model.specs.Small.{IsSmallParam, IsSmallOption, AreSmallParams};
ghost use Rattle.export_model.specs.Small.{IsSmallTag, IsSmallCondition, IsSmallTrigger};
ghost use Rattle.export_model.specs.Small.{IsSmallFormat, IsSmallVariable, IsSmallTemplate};
ghost use Rattle.export_model.specs.Small.{IsSmallContainer, HasSmallLists};

use crate::{
    Condition, Container, Format, Param, ParamValue, Params, Tag, Tags, Template, Templates,
    Trigger, Triggers, Variable, Variables,
};

/// Whether each list of a container, and each within its entries, has fewer than 2^32 items, so
/// that each place in it has a number of 32 bits.
pub fn has_small_lists(container: &Container) -> bool
    ensures { IsTrue result ↔ HasSmallLists container.now }
{
    is_small_container(container)
        && are_small_tags(&container.tags)
        && are_small_triggers(&container.triggers)
        && are_small_variables(&container.variables)
        && are_small_templates(&container.templates)
}

// Whether the lists of each tag are small.
fn are_small_tags(tags: &Tags) -> bool
    ensures { IsTrue result ↔ All IsSmallTag tags.now }
{
    tags.as_slice().iter().all(|tag| is_small_tag(tag))
}

// Whether the lists of each trigger are small.
fn are_small_triggers(triggers: &Triggers) -> bool
    ensures { IsTrue result ↔ All IsSmallTrigger triggers.now }
{
    triggers
        .as_slice()
        .iter()
        .all(|trigger| is_small_trigger(trigger))
}

// Whether the lists of each variable are small.
fn are_small_variables(variables: &Variables) -> bool
    ensures { IsTrue result ↔ All IsSmallVariable variables.now }
{
    variables
        .as_slice()
        .iter()
        .all(|variable| is_small_variable(variable))
}

// Whether the lists of each template are small.
fn are_small_templates(templates: &Templates) -> bool
    ensures { IsTrue result ↔ All IsSmallTemplate templates.now }
{
    templates
        .as_slice()
        .iter()
        .all(|template| is_small_template(template))
}

// Whether a container's own lists are small.
fn is_small_container(container: &Container) -> bool
    ensures { IsTrue result ↔ IsSmallContainer container.now }
{
    is_few(container.tags.len())
        && is_few(container.triggers.len())
        && is_few(container.variables.len())
        && is_few(container.built_ins.len())
        && is_few(container.templates.len())
        && is_few(container.references.len())
}

// Whether the lists of a tag are small.
fn is_small_tag(tag: &Tag) -> bool
    ensures { IsTrue result ↔ IsSmallTag tag.now }
{
    are_small_params(&tag.params)
        && is_few(tag.firing.len())
        && is_few(tag.blocking.len())
        && is_few(tag.consent.len())
}

// Whether the lists of a trigger are small.
fn is_small_trigger(trigger: &Trigger) -> bool
    ensures { IsTrue result ↔ IsSmallTrigger trigger.now }
{
    is_few(trigger.conditions.len())
        && trigger
            .conditions
            .as_slice()
            .iter()
            .all(|condition| is_small_condition(condition))
        && is_few(trigger.members.len())
}

// Whether the lists of a condition are small.
fn is_small_condition(condition: &Condition) -> bool
    ensures { IsTrue result ↔ IsSmallCondition condition.now }
{
    is_small_param(&condition.left) && is_small_param(&condition.right)
}

// Whether the lists of a variable are small.
fn is_small_variable(variable: &Variable) -> bool
    ensures { IsTrue result ↔ IsSmallVariable variable.now }
{
    are_small_params(&variable.params) && is_small_format(&variable.format)
}

// Whether the lists of a format are small.
fn is_small_format(format: &Format) -> bool
    ensures { IsTrue result ↔ IsSmallFormat format.now }
{
    is_small_option(&format.null)
        && is_small_option(&format.undefined)
        && is_small_option(&format.yes)
        && is_small_option(&format.no)
}

// Whether the lists of a template are small.
fn is_small_template(template: &Template) -> bool
    ensures { IsTrue result ↔ IsSmallTemplate template.now }
{
    is_few(template.names.len()) && is_few(template.fields.len()) && is_few(template.warnings.len())
}

// Whether the lists of an optional parameter are small.
fn is_small_option(param: &Option<Param>) -> bool
    ensures { IsTrue result ↔ IsSmallOption param.now }
{
    match param {
        Some(param) => is_small_param(param),
        None => true,
    }
}

// Whether the lists of a parameter are small.
fn is_small_param(param: &Param) -> bool
    ensures { IsTrue result ↔ IsSmallParam param.now }
{
    is_small_value(&param.value)
}

// Whether parameters are few, and the lists within them small.
fn are_small_params(params: &Params) -> bool
    ensures { IsTrue result ↔ AreSmallParams params.now }
{
    is_few(params.len()) && are_small_values(params)
}

// Whether the lists within the value of a parameter are small.
#[cycle(values)]
#[tactic(auto, unfolding(crate::specs::Small::is_small_value))]
fn is_small_value(value: &ParamValue) -> bool
    ensures { result ≡ is_small_value (value_of value.now) }
{
    match value {
        ParamValue::Template(pieces) => is_few(pieces.len()),
        ParamValue::Integer(_) => true,
        ParamValue::Bool(_) => true,
        ParamValue::List(params) => are_few_and_small(params),
        ParamValue::Map(params) => are_few_and_small(params),
        ParamValue::Reference(_) => true,
    }
}

// Whether the parameters in a value are few, and the lists within them small.
#[cycle(values)]
#[tactic(auto, using(crate::proofs::Counts::count_of_params))]
fn are_few_and_small(params: &Params) -> bool
    ensures { result
        ≡ (is_few (count_of (params_of params.now)) && are_small_values (params_of params.now)) }
{
    is_few(params.len()) && are_small_values(params)
}

// Whether the lists within the values of parameters are small.
#[cycle(values)]
#[tactic(auto, unfolding(crate::specs::Small::are_small_values))]
fn are_small_values(params: &Params) -> bool
    ensures { result ≡ are_small_values (params_of params.now) }
{
    for param in params.as_slice() {
        if !is_small_value(&param.value) {
            return false;
        }
    }
    true
}

// Whether so many are fewer than 2^32.
fn is_few(count: usize) -> bool
    ensures few { IsTrue result ↔ (count < 2 ^ 32) }
    ensures computed { result ≡ is_few count }
{
    count < 4_294_967_296
}
