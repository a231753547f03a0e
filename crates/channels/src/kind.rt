ghost use Rattle.channels.specs.RefusalKinds.{world_message};
ghost use Rattle.std.specs.Prelude.{Some};

use common::{OrNoMemory, Reported};
use std::error::Error;
use std::fmt;

/// What is wrong with a line of a world's text.
#[derive(Clone, Copy, Debug, PartialEq, Eq)]
pub enum WorldRefusalKind {
    /// 851: neither empty nor a name, `=` and numbers.
    Syntax,
    /// 852: the name of no input of the module.
    UnknownChannel,
    /// 853: an input that an earlier line names.
    RepeatedChannel,
    /// 854: a number outside 32 bits.
    NumberOutOfRange,
}

/// What is wrong with the text of a world: this line, counted from 1, is the first wrong one.
#[derive(Clone, Copy, Debug, PartialEq, Eq)]
pub struct WorldRefusal {
    pub line: usize,
    pub kind: WorldRefusalKind,
}

impl fmt::Display for WorldRefusal {
    ghost output = { λ refusal. Some (world_message refusal.kind).words };

    fn fmt<W: fmt::Write>(&self, f: &mut fmt::Formatter<W>) -> fmt::Result {
        write!(f, "{}", self.kind.words())
    }
}

impl Error for WorldRefusal {}

/// Why a world was not read.
pub type WorldFault = OrNoMemory<WorldRefusal>;
