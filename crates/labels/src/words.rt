//! Words of bits: joined and compared four at a time.
ghost use Rattle.labels.specs.Words.{AreJoined, AreJoinedAt, AreWordsMet, AreWords, FirstNew, GrowBetween, IsWordPiece, has_bit, word};
ghost use Rattle.std.specs.Prelude.{[], length, not, ◌*◌, ◌+◌, ◌/◌, ◌<◌, ◌≡◌, ◌≤◌};

use std::simd::prelude::*;

/// A piece has this many words.
pub(crate) const PIECE: usize = 32;

/// The words of a piece, none where there is no such piece.
pub(crate) fn cut(words: &[u64], number: usize) -> &[u64]
    ensures { IsWordPiece words.now number result.now }
{
    if number > words.len() / PIECE {
        return &[];
    }
    let rest = &words[number * PIECE..];
    &rest[..rest.len().min(PIECE)]
}

/// Whether the bit of a number is set.
pub(crate) fn has_bit(words: &[u64], i: usize) -> bool
    requires { i / 64 < length words.now }
    ensures { result ≡ has_bit words.now i }
{
    (words[i / 64] >> (i % 64)) & 1 == 1
}

/// Joins words, no more than there are, into these ones. The answer is whether some word grew.
pub(crate) fn join_words(words: &mut [u64], others: &[u64]) -> bool
    requires { length others.now ≤ length words.old }
    ensures joined { AreJoined words.old others.now words.new 0 (length others.now) result }
    ensures fit { AreWords others.now }
{
    let mut grew = false;
    let mut at = 0;
    'fours: while others.len() - at >= 4 {
        grew |= join_four(words, others, at);
        at += 4;
    }
    'rest: while at < others.len() {
        grew |= join_one(words, others, at);
        at += 1;
    }
    grew
}

// Joins four words, from one on.
fn join_four(words: &mut [u64], others: &[u64], at: usize) -> bool
    requires words { at + 4 ≤ length words.old }
    requires others { at + 4 ≤ length others.now }
    ensures { AreJoined words.old others.now words.new at (at + 4) result }
{
    let before = u64x4::from_slice(&words[at..]);
    let joined = before | u64x4::from_slice(&others[at..]);
    joined.copy_to_slice(&mut words[at..]);
    joined.simd_ne(before).to_bitmask() != 0
}

// Joins one word.
fn join_one(words: &mut [u64], others: &[u64], at: usize) -> bool
    requires words { at < length words.old }
    requires others { at < length others.now }
    ensures { AreJoined words.old others.now words.new at (at + 1) result }
{
    let before = words[at];
    let joined = before | others[at];
    words[at] = joined;
    joined != before
}

/// Joins words into these ones, from an index on.
pub(crate) fn join_words_at(words: &mut [u64], at: usize, others: &[u64])
    requires { at + length others.now ≤ length words.old }
    ensures { AreJoinedAt words.old others.now words.new at (length others.now) }
{
    for k in 0..others.len() {
        words[at + k] |= others[k];
    }
}

/// Keeps the bits that as many other words have too.
pub(crate) fn meet_words(words: &mut [u64], others: &[u64])
    requires { length words.old ≡ length others.now }
    ensures { AreWordsMet words.old others.now words.new (length words.old) }
{
    for at in 0..others.len() {
        words[at] &= others[at];
    }
}

/// Whether these words have all bits of other ones.
pub(crate) fn covers_words(words: &[u64], others: &[u64]) -> bool
    requires { length words.now ≡ length others.now }
    ensures compared { GrowBetween words.now others.now 0 (length words.now) (not result) }
    ensures fit { AreWords others.now }
{
    let mut at = 0;
    'fours: while words.len() - at >= 4 {
        if four_grow(words, others, at) {
            return false;
        }
        at += 4;
    }
    'rest: while at < words.len() {
        if one_grows(words, others, at) {
            return false;
        }
        at += 1;
    }
    true
}

// Whether one of four words, from one on, lacks a bit of the other one at its index.
fn four_grow(words: &[u64], others: &[u64], at: usize) -> bool
    requires words { at + 4 ≤ length words.now }
    requires others { at + 4 ≤ length others.now }
    ensures { GrowBetween words.now others.now at (at + 4) result }
{
    let before = u64x4::from_slice(&words[at..]);
    let joined = before | u64x4::from_slice(&others[at..]);
    joined.simd_ne(before).to_bitmask() != 0
}

// Whether one word lacks a bit of the other one at its index.
fn one_grows(words: &[u64], others: &[u64], at: usize) -> bool
    requires words { at < length words.now }
    requires others { at < length others.now }
    ensures { GrowBetween words.now others.now at (at + 1) result }
{
    words[at] | others[at] != words[at]
}

// A word, 0 beyond the last one.
fn word(words: &[u64], j: usize) -> u64
    ensures { result ≡ word words.now j }
{
    if j < words.len() { words[j] } else { 0 }
}

// Whether a word has a bit that the other one at its index lacks.
fn has_more(words: &[u64], others: &[u64], at: usize) -> bool
    ensures { GrowBetween others.now words.now at (at + 1) result }
{
    let other = word(others, at);
    other | word(words, at) != other
}

/// Whether the bit of a number is set, of any number.
pub(crate) fn has_any_bit(words: &[u64], i: usize) -> bool
    ensures { result ≡ has_bit words.now i }
{
    (word(words, i / 64) >> (i % 64)) & 1 == 1
}

/// The least number, from one on and below another one, whose bit is set here and not in other words. A word without such a number
/// costs one step.
pub(crate) fn first_new(words: &[u64], others: &[u64], from: usize, to: usize) -> Option<usize>
    ensures { FirstNew words.now others.now from to result }
{
    let mut i = from;
    while i < to {
        if i % 64 == 0 && !has_more(words, others, i / 64) {
            i += (to - i).min(64);
        } else if has_any_bit(words, i) && !has_any_bit(others, i) {
            return Some(i);
        } else {
            i += 1;
        }
    }
    None
}

/// The least number, from one on and below another one, whose bit is set. A word without a bit costs one step.
pub(crate) fn first_bit(words: &[u64], from: usize, to: usize) -> Option<usize>
    requires { to / 64 < length words.now }
    ensures { FirstNew words.now [] from to result }
{
    let mut i = from;
    while i < to {
        if i % 64 == 0 && words[i / 64] == 0 {
            i += (to - i).min(64);
        } else if has_bit(words, i) {
            return Some(i);
        } else {
            i += 1;
        }
    }
    None
}
