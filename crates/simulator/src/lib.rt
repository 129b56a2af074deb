//! A cluster in one process that plays a script: a step a line, and what comes out of each, a line an output.
#![tactic(auto)]

mod bad_lines;
mod fault;
mod files;
mod form;
mod incoming;
mod lines;
mod printing;
mod script;
mod simulation;
mod step_texts;

pub use fault::{ScriptFault, SimulationFault};
pub use files::simulate_file;
pub use form::{FORMS, StepForm, StepRow};
pub use printing::print_outputs;
pub use script::read_script;
pub use simulation::simulate;
pub use step_texts::script_help;
