//! Laws: at which steps a run may be refused memory.

ghost use Rattle.machine.specs.Growth.{GrowsByName};
ghost use Rattle.modules.specs.Machine.{MachineCode};

/// A step that makes a state larger is one of eight instructions, a call only below the greatest number of frames, and a receive
/// only where the input has a number.
pub fn eight_instructions_make_a_state_larger()
    ensures { (p : MachineCode) → GrowsByName p }
{}
