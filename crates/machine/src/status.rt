/// How a run stands.
#[derive(Clone, Copy, Debug, PartialEq, Eq)]
pub enum Status {
    /// It has not ended.
    Running,
    /// It returned from its outermost frame.
    Finished,
    /// It ended with this exception, which nothing took.
    Threw(u32),
    /// It ended because it had as many frames as a run may have.
    Deep,
    /// Memory ran out for the next step, which has changed nothing and may be tried again.
    NoMemory,
}
