use common::OrNoMemory;
use flowc::{FormatRefusal, WorldRefusal};
use std::fmt;

/// What is wrong with a line of a data file, or with the file, in words.
#[derive(Clone, Copy, Debug, PartialEq, Eq)]
pub struct LineRefusal(&'static str);

impl LineRefusal {
    /// No line begins so.
    pub const UNKNOWN_WORD: LineRefusal = LineRefusal("unknown word");
    /// The words after the first are not those that it takes.
    pub const WRONG_FORM: LineRefusal = LineRefusal("wrong form");
    /// What is wanted stands after no row.
    pub const NO_ROW: LineRefusal = LineRefusal("no row before this line");
    /// There is no row in the file.
    pub const NO_ROWS: LineRefusal = LineRefusal("no row in this file");
    /// No text has the name.
    pub const NO_TEXT: LineRefusal = LineRefusal("no text of this name");
    /// There is no file of this name, or it cannot be read.
    pub const NO_FILE: LineRefusal = LineRefusal("no file of this name");
    /// The text is shorter.
    pub const OUTSIDE: LineRefusal = LineRefusal("outside the text");
    /// What is to be replaced does not stand in the text once.
    pub const NOT_ONCE: LineRefusal = LineRefusal("not once in the text");
    /// The text is no module.
    pub const NO_MODULE: LineRefusal = LineRefusal("no module");
    /// The text is no world of the module.
    pub const NO_WORLD: LineRefusal = LineRefusal("no world of the module");
    /// The text has no hierarchy.
    pub const NO_HIERARCHY: LineRefusal = LineRefusal("no hierarchy");
}

/// Why a line of a data file was not done.
pub type LineFault = OrNoMemory<LineRefusal>;

impl fmt::Display for LineRefusal {
    fn fmt<W: fmt::Write>(&self, f: &mut fmt::Formatter<W>) -> fmt::Result {
        f.write_str(self.0)
    }
}

impl From<FormatRefusal> for LineRefusal {
    fn from(_refusal: FormatRefusal) -> LineRefusal {
        LineRefusal::NO_MODULE
    }
}

impl From<WorldRefusal> for LineRefusal {
    fn from(_refusal: WorldRefusal) -> LineRefusal {
        LineRefusal::NO_WORLD
    }
}
