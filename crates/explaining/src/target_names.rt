//! The names of what flows arrive at.

ghost use Rattle.explaining.specs.Flow.{target_name};
ghost use Rattle.explaining.specs.Flow as names;
ghost use Rattle.resolved.specs.CoreOf.{program_of};
ghost use Rattle.resolved.specs.Exceptions as spec;
ghost use Rattle.resolved.specs.Program.{channel_at, global_at, procedure_at, slot_at};
ghost use Rattle.std.specs.Prelude.{Some, ◌≡◌};

use resolved::exceptions::exception_name;
use resolved::expression::Variable;
use resolved::program::Core;
use resolved::target::Target;
use std::fmt;

/// What a flow arrives at, to be printed by its name in a program. What is not there has the empty name, and so has the label of a
/// loop.
#[derive(Clone, Copy)]
pub struct NamedTarget<'a> {
    pub core: &'a Core,
    pub target: Target,
}

impl fmt::Display for NamedTarget<'_> {
    ghost output = { λ named. Some (target_name (program_of named.core.now) named.target) };

    fn fmt<W: fmt::Write>(&self, f: &mut fmt::Formatter<W>) -> fmt::Result {
        match self.target {
            Target::ToVariable(procedure, variable) => {
                write!(f, "{}", variable_name(self.core, procedure, variable))
            }
            Target::ToChannel(channel) => write!(f, "{}", channel_name(self.core, channel)),
            Target::ToBegin(procedure) => {
                write!(f, "begin {}", procedure_name(self.core, procedure))
            }
            Target::ToParameter(procedure, number) => {
                write!(f, "{}", slot_name(self.core, procedure, number))
            }
            Target::ToValue(procedure) => {
                write!(f, "return {}", procedure_name(self.core, procedure))
            }
            Target::ToEnd(procedure) => write!(f, "end {}", procedure_name(self.core, procedure)),
            Target::ToThrown(procedure, exception) => write!(
                f,
                "throws {} {}",
                procedure_name(self.core, procedure),
                thrown_name(self.core, exception)
            ),
            Target::ToLoop(_, _) => Ok(()),
        }
    }
}

fn channel_name(core: &Core, number: u32) -> &str
    ensures { result.now ≡ (channel_at (program_of core.now) number).name }
{
    match core.channels.get(number as usize) {
        Some(channel) => channel.name.as_str(),
        None => "",
    }
}

fn global_name(core: &Core, number: u32) -> &str
    ensures { result.now ≡ (global_at (program_of core.now) number).name }
{
    match core.globals.get(number as usize) {
        Some(global) => global.name.as_str(),
        None => "",
    }
}

fn procedure_name(core: &Core, number: u32) -> &str
    ensures { result.now ≡ (procedure_at (program_of core.now) number).name }
{
    match core.procedures.get(number as usize) {
        Some(procedure) => procedure.name.as_str(),
        None => "",
    }
}

// The name of a parameter or local.
fn slot_name(core: &Core, procedure: u32, number: usize) -> &str
    ensures { result.now
        ≡ (slot_at (procedure_at (program_of core.now) procedure) number).name }
{
    let Some(entry) = core.procedures.get(procedure as usize) else {
        return "";
    };
    match entry.slots.get(number) {
        Some(slot) => slot.name.as_str(),
        None => "",
    }
}

fn variable_name(core: &Core, procedure: u32, variable: Variable) -> &str
    ensures { result.now ≡ names.variable_name (program_of core.now) procedure variable }
{
    match variable {
        Variable::Global(number) => global_name(core, number),
        Variable::Local(number) => slot_name(core, procedure, number as usize),
    }
}

fn thrown_name(core: &Core, exception: u32) -> &str
    ensures { result.now ≡ spec.exception_name (program_of core.now).exceptions exception }
{
    exception_name(&core.exceptions, exception)
}
