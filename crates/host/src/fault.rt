ghost use Rattle.host.specs.RefusalKinds.{host_message};
ghost use Rattle.host.specs.declared.fault.HostRefusal.TheVariants.{Load, New};
ghost use Rattle.std.specs.Prelude.{◌≡◌, Some};

use common::{Message, OrNoMemory, Reported};
use machine::NewRefusal;
use principals::HierarchyRefusalKind;
use std::error::Error;
use std::fmt;
use verifier::LoadRefusal;

/// Why an event is refused. No session has changed then.
#[derive(Clone, Copy, Debug, PartialEq, Eq)]
pub enum HostRefusal {
    /// 901: as many sessions are open as the host has room for, or every id was given.
    Full,
    /// 902: no open session has this id.
    UnknownId,
    /// 153: no principal of the session's hierarchy has this number.
    UnknownPrincipal,
    /// 801 to 806, or 811 to 815: the bytes spell no module, or one that is refused in its code.
    Load(LoadRefusal),
    /// 852: the names of the world's inputs are not those of the module's inputs, in order.
    New(NewRefusal),
    /// 903: the hierarchy that the session was to be opened under does not contain the module's.
    NotContained,
}

/// Why an event was not carried out.
pub type HostFault = OrNoMemory<HostRefusal>;

impl From<LoadRefusal> for HostRefusal {
    ghost from_gives = { λ lower refusal. refusal ≡ Load lower };

    fn from(refused: LoadRefusal) -> HostRefusal {
        HostRefusal::Load(refused)
    }
}

impl From<NewRefusal> for HostRefusal {
    ghost from_gives = { λ lower refusal. refusal ≡ New lower };

    fn from(refused: NewRefusal) -> HostRefusal {
        HostRefusal::New(refused)
    }
}

impl Reported for HostRefusal {
    ghost contents = { host_message };

    fn message(&self) -> Message {
        match self {
            HostRefusal::Full => Message::new(901, "full"),
            HostRefusal::UnknownId => Message::new(902, "unknown id"),
            HostRefusal::UnknownPrincipal => HierarchyRefusalKind::UnknownPrincipal.message(),
            HostRefusal::Load(refusal) => refusal.message(),
            HostRefusal::New(refusal) => refusal.message(),
            HostRefusal::NotContained => Message::new(903, "hierarchy not contained"),
        }
    }
}

impl fmt::Display for HostRefusal {
    ghost output = { λ refusal. Some (host_message refusal).words };

    fn fmt<W: fmt::Write>(&self, f: &mut fmt::Formatter<W>) -> fmt::Result {
        write!(f, "{}", self.words())
    }
}

impl Error for HostRefusal {}
