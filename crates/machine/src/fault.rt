ghost use Rattle.machine.specs.RefusalKinds.{new_message};
ghost use Rattle.std.specs.Prelude.{Some};

use channels::WorldRefusalKind;
use common::{Message, OrNoMemory, Reported};
use std::error::Error;
use std::fmt;

/// Why a machine cannot be made from a module and a world.
#[derive(Clone, Copy, Debug, PartialEq, Eq)]
pub enum NewRefusal {
    /// 852: the names of the world's inputs are not those of the module's inputs, in order.
    UnknownChannel,
}

/// Why a machine was not made.
pub type NewFault = OrNoMemory<NewRefusal>;

impl Reported for NewRefusal {
    ghost contents = { new_message };

    fn message(&self) -> Message {
        match self {
            NewRefusal::UnknownChannel => WorldRefusalKind::UnknownChannel.message(),
        }
    }
}

impl fmt::Display for NewRefusal {
    ghost output = { λ refusal. Some (new_message refusal).words };

    fn fmt<W: fmt::Write>(&self, f: &mut fmt::Formatter<W>) -> fmt::Result {
        write!(f, "{}", self.words())
    }
}

impl Error for NewRefusal {}
