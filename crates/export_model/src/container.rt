use crate::{BuiltIns, Tags, Templates, Triggers, Variables};
use gtm_base::{Text, Texts};

/// A container.
#[derive(Debug, Drop)]
pub struct Container {
    /// Its public name, as `GTM-ABC123`.
    pub public_id: Text,
    /// The number of its version, as it was written.
    pub version_id: Text,
    pub tags: Tags,
    pub triggers: Triggers,
    pub variables: Variables,
    pub built_ins: BuiltIns,
    pub templates: Templates,
    /// The numbers of built-in triggers that never hold, each once, in the order of the references
    /// to them.
    pub references: Texts,
}
