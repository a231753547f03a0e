//! Sets of numbers below a bound, a bit for each number.
ghost use Rattle.labels.specs.Row.{FirstBeyond, Includes, has, union};
ghost use Rattle.labels.specs.Words.{has_bit};
ghost use Rattle.std.specs.Prelude.{Bool, IfOk, IsTrue, List, [], false, length, min, replicate, set, true, ℕ, ◌&&◌, ◌*◌, ◌+◌, ◌/◌, ◌<◌, ◌||◌, ◌↔◌, ◌≡◌, ◌≢◌, ◌≤◌};

use crate::words::{
    covers_words, cut, first_bit, first_new, has_any_bit, has_bit, join_words, join_words_at,
    meet_words,
};
use smallvec::SmallVec;
use std::alloc::{AllocError, Global};
use std::marker::Model;

/// A set of numbers whose words can be looked at piece by piece.
pub(crate) trait InPieces {
    ghost numbers: { Self → List Bool };

    /// The words of a piece, none where there is no such piece.
    fn piece(&self, number: usize) -> &[u64]
        ensures { (i : ℕ) → i < 2048 → has_bit result.now i
            ≡ has (numbers self.now) (2048 * number + i) };
}

/// A set of numbers below `n`. A contract sees it as `n` truth values: of each number whether it is in the set.
#[derive(Debug, Drop)]
pub struct Row {
    n: usize,
    // One word lies in the row itself: most rows have no more.
    words: SmallVec<u64, 1>,
}

impl Model for Row {
    ghost use Rattle.std.specs.Prelude.{Bool, List};

    ghost Value = { List Bool };

    ghost use Rattle.labels.specs.Words.{IsStoredRow, bits_of};

    ghost view = { λ row. bits_of row.words.items 0 row.n };

    ghost invariant = { IsStoredRow };
}

// Words without bits, as many as are added at once.
const NO_BITS: [u64; 64] = [0; 64];

// Words without bits, this many of them or as many as are added at once.
fn no_bits(count: usize) -> &'static [u64]
    ensures zeros { result.now ≡ replicate (min count 64) 0 }
{
    &NO_BITS[..count.min(NO_BITS.len())]
}

// This many words without bits. One is made at once: most rows have no more. Of more, many are added at once.
#[tactic(auto, using(crate::proofs::Zeros::zeros_more))]
fn zero_words(alloc: Global, count: usize) -> Result<SmallVec<u64, 1>, AllocError>
    ensures { IfOk result (λ words. words.items ≡ replicate count 0) }
{
    if count == 1 {
        let mut words = SmallVec::new(alloc);
        words.push(0u64)?;
        return Ok(words);
    }
    let mut words = SmallVec::with_capacity(alloc, count)?;
    let mut left = count;
    while left > 0 {
        words.extend_from_slice(no_bits(left))?;
        left -= left.min(NO_BITS.len());
    }
    Ok(words)
}

impl Row {
    /// The empty set of numbers below this.
    ///
    /// # Errors
    ///
    /// Memory ran out.
    pub fn new(alloc: Global, n: usize) -> Result<Row, AllocError>
        ensures { IfOk result (λ row. row ≡ replicate n false) }
    {
        let words = zero_words(alloc, n / 64 + 1)?;
        Ok(Row { n, words })
    }

    /// The same set once more.
    ///
    /// # Errors
    ///
    /// Memory ran out.
    pub fn copy(&self, alloc: Global) -> Result<Row, AllocError>
        ensures { IfOk result (λ row. row ≡ self.now) }
    {
        let words = SmallVec::from_slice(alloc, self.words.as_slice())?;
        Ok(Row { n: self.n, words })
    }

    /// The bound that all numbers of the set are below.
    pub fn bound(&self) -> usize
        ensures { result ≡ length self.now }
    {
        self.n
    }

    /// Whether a number is in the set. Precondition: it is below the bound.
    pub fn has(&self, i: usize) -> bool
        requires { i < length self.now }
        ensures { result ≡ has self.now i }
    {
        has_bit(self.words.as_slice(), i)
    }

    /// Whether any number is in the set: one that is not below the bound is not.
    pub fn contains(&self, i: usize) -> bool
        ensures { result ≡ has self.now i }
    {
        has_any_bit(self.words.as_slice(), i)
    }

    /// Adds a number. Precondition: it is below the bound.
    pub fn set(&mut self, i: usize)
        requires { i < length self.old }
        ensures { self.new ≡ set self.old i true }
    {
        self.words[i / 64] |= 1u64 << (i % 64);
    }

    /// Takes a number out. Precondition: it is below the bound.
    pub fn remove(&mut self, i: usize)
        requires { i < length self.old }
        ensures { self.new ≡ set self.old i false }
    {
        self.words[i / 64] &= !(1u64 << (i % 64));
    }

    /// The set becomes the union with the other one. The answer is whether it grew. Precondition: both have the same bound.
    pub fn join_from(&mut self, other: &Row) -> bool
        requires { length self.old ≡ length other.now }
        ensures union { self.new ≡ union self.old other.now }
        ensures grew { IsTrue result ↔ (self.new ≢ self.old) }
    {
        join_words(self.words.as_mut_slice(), other.words.as_slice())
    }

    /// Adds the numbers of another set. Precondition: its bound is not greater.
    pub fn include(&mut self, other: &Row)
        requires { length other.now ≤ length self.old }
        ensures bound { length self.new ≡ length self.old }
        ensures members { (i : ℕ) → has self.new i ≡ (has self.old i || has other.now i) }
    {
        let others = other.words.as_slice();
        join_words(self.words.as_mut_slice(), others);
    }

    // The words of a piece.
    pub(crate) fn cut(&self, number: usize) -> &[u64]
        ensures bits { (i : ℕ) → i < 2048 → has_bit result.now i
            ≡ has self.now (2048 * number + i) }
        ensures short { length result.now ≤ 32 }
        ensures fits { 2048 * number ≤ length self.now
            → 32 * number + length result.now ≤ length self.now / 64 + 1 }
    {
        cut(self.words.as_slice(), number)
    }

    // Adds the numbers whose bits are set in words that stand in place of those from one on. No other number is below the bound.
    pub(crate) fn include_words(&mut self, at: usize, others: &[u64])
        requires fits { at + length others.now ≤ length self.old / 64 + 1 }
        requires clear { (i : ℕ) → length self.old ≤ 64 * at + i → has_bit others.now i ≡ false }
        ensures bound { length self.new ≡ length self.old }
        ensures before { (i : ℕ) → i < 64 * at → has self.new i ≡ has self.old i }
        ensures from { (i : ℕ) → has self.new (64 * at + i)
            ≡ (has self.old (64 * at + i) || has_bit others.now i) }
    {
        join_words_at(self.words.as_mut_slice(), at, others);
    }

    /// Keeps the numbers that are in the other set too. Precondition: both have the same bound.
    pub fn meet(&mut self, other: &Row)
        requires { length self.old ≡ length other.now }
        ensures bound { length self.new ≡ length self.old }
        ensures members { (i : ℕ) → has self.new i ≡ (has self.old i && has other.now i) }
    {
        meet_words(self.words.as_mut_slice(), other.words.as_slice());
    }

    /// Whether the sets are the same and have the same bound.
    pub fn is_same(&self, other: &Row) -> bool
        ensures { IsTrue result ↔ (self.now ≡ other.now) }
    {
        if self.n != other.n {
            return false;
        }
        if !self.covers(other) {
            return false;
        }
        other.covers(self)
    }

    /// Whether the set includes the other one. Precondition: both have the same bound.
    pub fn covers(&self, other: &Row) -> bool
        requires { length self.now ≡ length other.now }
        ensures { IsTrue result ↔ Includes self.now other.now }
    {
        covers_words(self.words.as_slice(), other.words.as_slice())
    }

    /// The least number, from one on, that is in the set and not in the other one.
    pub fn first_beyond(&self, other: &Row, from: usize) -> Option<usize>
        ensures { FirstBeyond self.now other.now from result }
    {
        first_new(self.words.as_slice(), other.words.as_slice(), from, self.n)
    }

    /// The least number, from one on, that is in the set.
    pub fn first_from(&self, from: usize) -> Option<usize>
        ensures { FirstBeyond self.now [] from result }
    {
        first_bit(self.words.as_slice(), from, self.n)
    }
}

impl InPieces for Row {
    ghost numbers = { λ row. row };

    fn piece(&self, number: usize) -> &[u64] {
        self.cut(number)
    }
}
