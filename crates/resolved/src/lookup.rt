//! What stands in the tables of a program under a number.
ghost use Rattle.resolved.specs.CoreOf.{program_of};
ghost use Rattle.resolved.specs.Program.{procedure_at, channel_at, global_at, slot_at};
ghost use Rattle.resolved.specs.ProgramOf.{channel_entry, global_entry, procedure_entry, slot_entry};
ghost use Rattle.labels.specs.Label.{Label};
ghost use Rattle.std.specs.Prelude.{List, length, ◌<◌, ◌≡◌};

use crate::program::Core;
use crate::tables::{Channel, GlobalVariable, Procedure, Slot};

impl Core {
    /// The procedure with this number, which has to be there.
    pub fn procedure(&self, number: u32) -> &Procedure
        requires { number < length self.now.procedures.items }
        ensures { procedure_entry self.now.labels result.now ≡ procedure_at (program_of self.now)
            number }
    {
        &self.procedures[number as usize]
    }

    /// The channel with this number, which has to be there.
    pub fn channel(&self, number: u32) -> &Channel
        requires { number < length self.now.channels.items }
        ensures { channel_entry self.now.labels result.now ≡ channel_at (program_of self.now)
            number }
    {
        &self.channels[number as usize]
    }

    /// The global with this number, which has to be there.
    pub fn global(&self, number: u32) -> &GlobalVariable
        requires { number < length self.now.globals.items }
        ensures { global_entry self.now.labels result.now ≡ global_at (program_of self.now) number }
    {
        &self.globals[number as usize]
    }
}

impl Procedure {
    /// The parameter or local with this number, which has to be there.
    pub fn slot(&self, number: u32) -> &Slot
        requires { number < length self.now.slots.items }
        ensures { (labels : List Label) →
            slot_entry labels result.now ≡ slot_at (procedure_entry labels self.now) number }
    {
        &self.slots[number as usize]
    }
}
