// Reading one setting, and showing a text: what stands at the place that `finding` finds.
#![tactic(auto)]

pub mod flat;
pub mod numbers;
pub mod settings;
pub mod texts;
