//! Where the bytes of a text stand, each found in a few steps.

ghost use Rattle.lexer.specs.Position.{column_of, line_of};
ghost use Rattle.explaining.specs.Marks.{marks_of};
ghost use Rattle.std.specs.Prelude.{IfOk, ◌≡◌};

use lexer::Place;
use lexer::position::place_after;
use std::alloc::{AllocError, Global};

/// How many bytes lie between two marks.
pub const STRIDE: usize = 256;

/// A text with marks: the places of its first byte and of every 256th after it. From a mark it is never far to a byte.
#[derive(Drop)]
pub struct MarkedText<'a> {
    text: &'a [u8],
    marks: Vec<Place>,
    ghost known: { marks.items ≡ marks_of text.now },
}

impl<'a> MarkedText<'a> {
    /// A text with its marks, which it takes one walk along the text to set.
    pub fn of(alloc: Global, text: &'a [u8]) -> Result<MarkedText<'a>, AllocError>
        ensures { IfOk result (λ marked. marked.text.now ≡ text.entry.now) }
    {
        let mut marks = Vec::new(alloc);
        let mut place = Place { line: 1, column: 1 };
        marks.push(place)?;
        for mark in 0..text.len() / STRIDE {
            let from = mark * STRIDE;
            place = place_after(text, place, from, from + STRIDE);
            marks.push(place)?;
        }
        Ok(MarkedText { text, marks })
    }

    /// The line and the column of a byte of the text; of a byte after it, those of its end.
    pub fn place_of(&self, at: usize) -> Place
        ensures line { result.line ≡ line_of self.now.text.now at }
        ensures column { result.column ≡ column_of self.now.text.now at }
    {
        let end = at.min(self.text.len());
        let mark = end / STRIDE;
        place_after(self.text, self.marks[mark], mark * STRIDE, end)
    }
}
