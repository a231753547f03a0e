use crate::fault::HostFault;
use channels::World;
use common::Pair;
use machine::Status;
use principals::Hierarchy;

/// The number of a session. The sessions that a host opens get 0, 1, 2 and so on, and no number is given twice.
pub type Id = u64;

/// What a host is asked.
#[derive(Debug, Drop)]
pub enum Event {
    /// To open a session of the module that these bytes spell, on this world.
    Open(Vec<u8>, World),
    /// The same under this hierarchy, whose principals then view the session.
    OpenUnder(Vec<u8>, World, Hierarchy),
    /// To let the session take steps, at most this number.
    Turn(Id, u64),
    /// To show what the principal of this number sees of the session.
    View(Id, u32),
    /// To close the session.
    Close(Id),
}

/// What a host answers an event.
#[derive(Debug, Drop, PartialEq, Eq)]
pub enum Answer {
    /// The session was opened, and has this id.
    Opened(Id),
    /// The session took this number of steps, and its run then has this status.
    Turned(u64, Status),
    /// The pairs that the principal sees, in the order in which they were sent.
    Viewed(Vec<Pair>),
    /// The session was closed.
    Closed,
    /// The event was refused, or memory ran out for it; nothing has changed.
    Refused(HostFault),
}
