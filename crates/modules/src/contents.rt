use crate::channel::Channel;
use crate::declaration::Global;
use crate::procedure::Procedure;
use crate::version::Version;
use principals::Hierarchy;

/// What a module contains, and so does a graph, whose targets are positions and not byte offsets.
#[derive(Debug, Drop)]
pub struct Contents {
    /// The version of the module's file, which says what instructions there are.
    pub version: Version,
    /// The principals, and who acts for whom.
    pub hierarchy: Hierarchy,
    /// The names of the declared exceptions, which are numbered from 3.
    pub exceptions: Vec<String>,
    pub channels: Vec<Channel>,
    pub globals: Vec<Global>,
    pub procedures: Vec<Procedure>,
    /// The number of the procedure where a run starts.
    pub main: u32,
}
