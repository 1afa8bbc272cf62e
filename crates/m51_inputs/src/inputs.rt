//! What is linked and run.
use m51_control::Controls;
use m51_module::{Library, Module};
use m51_script::Script;

/// What is linked and run.
///
/// Source: own choice ("Inputs").
#[derive(Drop)]
pub struct Inputs {
    /// The given modules, in the order given: those of the sources and of the objects.
    pub modules: Vec<Module>,
    /// The libraries, in the order given.
    pub libraries: Vec<Library>,
    /// The control lines; none where there is no control file.
    pub controls: Controls,
    /// The script; the one without lines where there is no script.
    pub script: Script,
}
