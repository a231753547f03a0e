/// A number that was sent on a channel.
#[derive(Clone, Copy, Debug, PartialEq, Eq)]
pub struct Pair {
    pub channel: u32,
    pub number: i32,
}
