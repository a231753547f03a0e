//! Where the bytes of a text stand.

ghost use Rattle.lexer.specs.NextPlace.{next_place};
ghost use Rattle.lexer.specs.Position as spec;
ghost use Rattle.lexer.specs.Position.{column_of, line_of, place_at};
ghost use Rattle.std.specs.Prelude.{length, ◌+◌, ◌<◌, ◌^◌, ◌≡◌, ◌≤◌};

use crate::token::Place;

/// The line and the column of the byte `at` of a text, both from 1; of a byte after the text, those of its end.
///
/// A line ends with U+000A, and a column is one character. The text may be no UTF-8, and the byte may lie within a character: those
/// that begin before it are counted.
pub fn place(text: &[u8], at: usize) -> Place
    ensures line { result.line ≡ line_of text.now at }
    ensures column { result.column ≡ column_of text.now at }
{
    let start = Place { line: 1, column: 1 };
    place_after(text, start, 0, at.min(text.len()))
}

/// The place of the byte `to` of a text, or of its end, counted on from the place of the byte `from`.
pub fn place_after(text: &[u8], start: Place, from: usize, to: usize) -> Place
    requires order { from ≤ to }
    requires within { to ≤ length text.now }
    requires start { start ≡ place_at text.now from }
    ensures { result ≡ place_at text.now to }
{
    let mut place = start;
    for byte in &text[from..to] {
        place = next(place, *byte);
    }
    place
}

// The place after a byte that stands at this place.
fn next(place: Place, byte: u8) -> Place
    requires few_lines { place.line + 1 < 2 ^ 64 }
    requires few_columns { place.column + 1 < 2 ^ 64 }
    ensures { result ≡ next_place place byte }
{
    if byte == b'\n' {
        Place {
            line: place.line + 1,
            column: 1,
        }
    } else if begins_character(byte) {
        Place {
            line: place.line,
            column: place.column + 1,
        }
    } else {
        place
    }
}

// A character begins with this byte.
fn begins_character(byte: u8) -> bool
    ensures { result ≡ spec.begins_character byte }
{
    byte < 128 || byte >= 192
}
