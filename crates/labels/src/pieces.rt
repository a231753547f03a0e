//! Sets of numbers in pieces. Sets that are alike share the pieces that are the same in them.
ghost use Rattle.labels.specs.Pieces.{piece_at};
ghost use Rattle.labels.specs.Row.{FirstBeyond, has};
ghost use Rattle.std.specs.Arc.{arc_slice_items};
ghost use Rattle.std.specs.Prelude.{IfOk, IfSome, IsTrue, [], length, map, ℕ, ◌||◌, ◌≡◌, ◌≤◌};

use crate::rows::{InPieces, Row};
use crate::words::{PIECE, first_new, has_any_bit};
use std::alloc::{AllocError, Global};
use std::marker::Model;
use std::sync::ArcSlice;

// A piece has a bit for each of this many numbers.
const NUMBERS: usize = 64 * PIECE;

/// A set of numbers below `n`. A contract sees it as `n` truth values: of each number whether it is in the set.
#[derive(Debug, Drop)]
pub(crate) struct PieceRow {
    n: usize,
    pieces: Vec<ArcSlice<u64>>,
}

impl Model for PieceRow {
    ghost use Rattle.std.specs.Prelude.{Bool, List};

    ghost Value = { List Bool };

    ghost use Rattle.labels.specs.Pieces.{ArePieces, piece_bits, pieces_of};

    ghost view = { λ row. piece_bits (pieces_of row) 0 row.n };

    ghost invariant = { ArePieces };
}

// No numbers.
struct NoNumbers;

impl InPieces for NoNumbers {
    ghost numbers = { λ none. [] };

    fn piece(&self, _number: usize) -> &[u64] {
        &[]
    }
}

// The words of a piece, none where there is no such piece.
fn piece_of(pieces: &[ArcSlice<u64>], number: usize) -> &[u64]
    ensures { result.now ≡ piece_at (map arc_slice_items pieces.now) number }
{
    match pieces.get(number) {
        None => &[],
        Some(piece) => piece.as_slice(),
    }
}

// A piece of another row, if it has these words.
fn shared_piece(
    row: Option<&PieceRow>,
    number: usize,
    words: &[u64],
) -> Result<Option<ArcSlice<u64>>, AllocError>
    ensures { IfOk result (λ found.
        IfSome found (λ piece. arc_slice_items piece ≡ words.now)) }
{
    let Some(row) = row else {
        return Ok(None);
    };
    let Some(piece) = row.pieces.as_slice().get(number) else {
        return Ok(None);
    };
    if piece.as_slice() != words {
        return Ok(None);
    }
    Ok(Some(piece.clone()?))
}

// A piece with these words: that of one of two rows, if one has it, or a new one.
fn make_piece(
    alloc: Global,
    words: &[u64],
    number: usize,
    near: Option<&PieceRow>,
    last: Option<&PieceRow>,
) -> Result<ArcSlice<u64>, AllocError>
    ensures { IfOk result (λ piece. arc_slice_items piece ≡ words.now) }
{
    if let Some(piece) = shared_piece(near, number, words)? {
        return Ok(piece);
    }
    if let Some(piece) = shared_piece(last, number, words)? {
        return Ok(piece);
    }
    ArcSlice::from_slice(alloc, words)
}

impl PieceRow {
    /// The same set as a row has. It shares pieces with two others.
    pub(crate) fn of(
        alloc: Global,
        row: &Row,
        near: Option<&PieceRow>,
        last: Option<&PieceRow>,
    ) -> Result<PieceRow, AllocError>
        ensures { IfOk result (λ pieced. pieced ≡ row.now) }
    {
        let n = row.bound();
        let mut pieces = Vec::with_capacity(alloc, n / NUMBERS + 1)?;
        for number in 0..n / NUMBERS + 1 {
            pieces.push(make_piece(alloc, row.cut(number), number, near, last)?)?;
        }
        Ok(PieceRow { n, pieces })
    }

    // The bound that all numbers of the set are below.
    fn bound(&self) -> usize
        ensures { result ≡ length self.now }
    {
        self.n
    }

    /// Whether a row has the same numbers and the same bound.
    pub(crate) fn is_row(&self, row: &Row) -> bool
        ensures { IsTrue result → self.now ≡ row.now }
    {
        if self.n != row.bound() {
            return false;
        }
        let pieces = self.pieces.as_slice();
        for number in 0..self.n / NUMBERS + 1 {
            if piece_of(pieces, number) != row.cut(number) {
                return false;
            }
        }
        true
    }

    /// Whether any number is in the set: one that is not below the bound is not.
    pub(crate) fn contains(&self, i: usize) -> bool
        ensures { result ≡ has self.now i }
    {
        has_any_bit(piece_of(self.pieces.as_slice(), i / NUMBERS), i % NUMBERS)
    }

    /// Adds the numbers to a row. Precondition: its bound is not less.
    pub(crate) fn include_in(&self, row: &mut Row)
        requires { length self.now ≤ length row.old }
        ensures bound { length row.new ≡ length row.old }
        ensures members { (i : ℕ) → has row.new i ≡ (has row.old i || has self.now i) }
    {
        let _bound = row.bound();
        let pieces = self.pieces.as_slice();
        for number in 0..pieces.len() {
            row.include_words(number * PIECE, piece_of(pieces, number));
        }
    }

    /// The least number, from one on, that is in the set and not in another one.
    pub(crate) fn first_beyond<O: InPieces>(&self, other: &O, from: usize) -> Option<usize>
        ensures { FirstBeyond self.now (O.numbers other.now) from result }
    {
        let pieces = self.pieces.as_slice();
        let bound = self.bound();
        let mut at = from;
        while at < bound {
            let number = at / NUMBERS;
            let first = at - at % NUMBERS;
            let count = (bound - first).min(NUMBERS);
            let words = piece_of(pieces, number);
            match first_new(words, other.piece(number), at % NUMBERS, count) {
                Some(i) => return Some(first + i),
                None => at = first + count,
            }
        }
        None
    }

    /// The least number, from one on, that is in the set.
    pub(crate) fn first_from(&self, from: usize) -> Option<usize>
        ensures { FirstBeyond self.now [] from result }
    {
        self.first_beyond(&NoNumbers, from)
    }
}

impl InPieces for PieceRow {
    ghost numbers = { λ row. row };

    fn piece(&self, number: usize) -> &[u64] {
        piece_of(self.pieces.as_slice(), number)
    }
}
