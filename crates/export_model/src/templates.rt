use gtm_base::{ListOf, Text, Texts};

/// A field of a template, and whether it is a table.
#[derive(Debug, Drop)]
pub struct FieldName {
    pub name: Text,
    pub table: bool,
}

/// The fields of a template, in order.
pub type FieldNames = ListOf<FieldName>;

/// A custom template.
#[derive(Debug, Drop)]
pub struct Template {
    pub id: Text,
    pub name: Text,
    /// The types by which tags and variables use it.
    pub names: Texts,
    /// Whether it is a template of tags, and not of variables.
    pub is_tag: bool,
    pub fields: FieldNames,
    /// The permissions that were not understood and grant nothing.
    pub warnings: Texts,
}

/// The custom templates of a container.
pub type Templates = ListOf<Template>;
