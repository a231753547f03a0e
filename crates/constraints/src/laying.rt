//! Parts that are kept for unknowns, laid out as constraints: unknowns that rows have one after the other go to them by a further one.
ghost use Rattle.constraints.specs.Added.{Stored};
ghost use Rattle.constraints.specs.Laying.{AreLaidSoFar, IsPieceFound, IsPieceOf, IsRowBegun, by_found};
ghost use Rattle.constraints.specs.Merging.{AreLaidOut, IsLaidOut, Row, rows_of};
ghost use Rattle.constraints.specs.declared.laying.Further.{Further};
ghost use Rattle.std.specs.Prelude.{Contains, IfOk, IsTrue, List, OnOk, [], drop, length, take, ℕ, ◌*◌, ◌+◌, ◌++◌, ◌<◌, ◌∷◌, ◌^◌, ◌≡◌, ◌≤◌, ◌⊎◌};

use crate::merging::Parts;
use crate::spreading::Made;
use resolved::target::Target;
use solver::{Atom, Constraint, Left, Rule};
use std::alloc::{AllocError, Global};

// Unknowns go by further ones in pieces of this many, unless the next row has all of them too.
const PIECE: usize = 16;

/// A further unknown, and the unknowns for which it stands; none where there is none.
#[derive(Drop)]
pub struct Further {
    pub number: u32,
    pub parts: Vec<Atom>,
}

// Whether two lists of parts are the same.
fn are_same(one: &[Atom], other: &[Atom]) -> bool
    ensures { IsTrue result → one.now ≡ other.now }
{
    if one.len() != other.len() {
        return false;
    }
    for i in 0..one.len() {
        if one[i] != other[i] {
            return false;
        }
    }
    true
}

// The parts from an index on, but no more than `most`, none where there are none.
fn piece_from(parts: &[Atom], from: usize, most: usize) -> &[Atom]
    ensures more { from < length parts.now → 0 < most → 0 < length result.now }
    ensures within { from ≤ length parts.now → from + length result.now ≤ length parts.now }
    ensures piece { from ≤ length parts.now →
        result.now ≡ take (length result.now) (drop from parts.now) }
{
    if from >= parts.len() {
        return &[];
    }
    let rest = &parts[from..];
    &rest[..rest.len().min(most)]
}

// Whether a further unknown is wanted for a piece: where the next row has it too, and there are fewer than a number of unknowns.
fn is_wanted(piece: &[Atom], next: &[Atom], number: u32, most: u32) -> bool
    ensures { IsTrue result → number < most }
{
    number < most && piece.len() > 1 && are_same(piece, next)
}

// The unknowns of a row, none where there is no row.
fn unknowns_of(rows: &[Parts], number: usize) -> &[Atom] {
    match rows.get(number) {
        None => &[],
        Some(row) => &row.unknowns,
    }
}

// The parts for which a further unknown stands, none where there is none.
fn parts_held(held: &[Further], at: usize) -> &[Atom] {
    match held.get(at) {
        None => &[],
        Some(further) => &further.parts,
    }
}

// How long the pieces of a row are: as long as the row, where the next one or a further unknown has all of its unknowns.
fn piece_length(held: &[Further], unknowns: &[Atom], next: &[Atom]) -> usize
    ensures { 0 < result }
{
    if are_same(unknowns, next) || are_same(unknowns, parts_held(held, 0)) {
        return unknowns.len().max(PIECE);
    }
    PIECE
}

// Holds a further unknown at an index, or behind all others.
fn hold(held: &mut Vec<Further>, at: usize, further: Further) -> Result<(), AllocError>
    ensures { OnOk result ((one : Further) → Contains held.new.items one →
        Contains held.old.items one ⊎ (one ≡ further)) }
{
    if at < held.len() {
        held[at] = further;
    } else {
        held.push(further)?;
    }
    Ok(())
}

// Adds the constraint of some parts, if there are some.
fn lay_out_one(
    number: u32,
    left: Left,
    constraints: &mut Vec<Constraint<Option<Target>>>,
) -> Result<(), AllocError>
    ensures { OnOk result (IsLaidOut number left.items
        constraints.old.items constraints.new.items) }
{
    if left.is_empty() {
        return Ok(());
    }
    constraints.push(Constraint {
        at: 0,
        rule: Rule::Between,
        left,
        target: None,
        right: Atom::Unknown(number),
    })?;
    Ok(())
}

// A new further unknown that stands for these parts.
fn open(alloc: Global, parts: &[Atom], made: &mut Made) -> Result<Further, AllocError>
    requires room { made.old.number + 1 < 2 ^ 32 }
    ensures next { OnOk result (made.new.number ≡ made.old.number + 1) }
    ensures number { IfOk result (λ further. further.number ≡ made.old.number) }
    ensures parts { IfOk result (λ further. further.parts.items ≡ parts.now) }
    ensures laid { OnOk result (IsLaidOut made.old.number parts.now
        made.old.constraints.items made.new.constraints.items) }
{
    let number = made.number;
    made.number = number + 1;
    let left = Left::from_slice(alloc, parts)?;
    lay_out_one(number, left, &mut made.constraints)?;
    let parts = Vec::from_slice(alloc, parts)?;
    Ok(Further { number, parts })
}

// The further unknown that stands for a piece: that which is held at its index, or a new one, if that is wanted.
fn further_of(
    alloc: Global,
    piece: &[Atom],
    wanted: bool,
    at: usize,
    held: &mut Vec<Further>,
    made: &mut Made,
) -> Result<Option<u32>, AllocError>
    requires room { made.old.number + 1 < 2 ^ 32 }
    ensures few { OnOk result ((most : ℕ) → made.old.number ≤ most →
        (IsTrue wanted → made.old.number < most) → made.new.number ≤ most) }
    ensures found { IfOk result (λ found. (rows : List Row) (k first : ℕ) (old : List Stored) →
        IsPieceOf rows k piece.now →
        (before : AreLaidSoFar rows k first made.old.number held.old.items old
        made.old.constraints.items) →
        IsPieceFound rows k first made.old.number made.new.number held.old.items held.new.items old
        made.old.constraints.items made.new.constraints.items before piece.now found) }
{
    if let Some(further) = held.get(at) {
        if are_same(&further.parts, piece) {
            return Ok(Some(further.number));
        }
    }
    if !wanted {
        return Ok(None);
    }
    let further = open(alloc, piece, made)?;
    let number = further.number;
    hold(held, at, further)?;
    Ok(Some(number))
}

// Adds to a left side what stands for a piece: a further unknown, or the piece itself.
fn add_found(found: Option<u32>, piece: &[Atom], left: &mut Left) -> Result<(), AllocError>
    ensures { OnOk result (left.new.items ≡ left.old.items ++ by_found found piece.now) }
{
    match found {
        Some(further) => left.push(Atom::Unknown(further))?,
        None => left.extend_from_slice(piece)?,
    }
    Ok(())
}

// The left side by which the unknowns of a row flow: further unknowns for the pieces that the next row has too, while there are fewer than a
// number of these.
fn left_of(
    alloc: Global,
    unknowns: &[Atom],
    next: &[Atom],
    most: u32,
    held: &mut Vec<Further>,
    made: &mut Made,
) -> Result<Left, AllocError>
    requires room { most + 1 < 2 ^ 32 }
    requires few { made.old.number ≤ most }
    ensures few { OnOk result (made.new.number ≤ most) }
    ensures left { IfOk result (λ left. (rows : List Row) (k first : ℕ) (old : List Stored) →
        IsPieceOf rows k unknowns.now →
        AreLaidSoFar rows k first made.old.number held.old.items old
        made.old.constraints.items →
        IsRowBegun rows k first made.new.number held.new.items old
        made.new.constraints.items unknowns.now left.items) }
{
    let size = piece_length(held, unknowns, next);
    let mut left = Left::new(alloc);
    let mut from = 0;
    let mut at = 0;
    while from < unknowns.len() {
        let piece = piece_from(unknowns, from, size);
        let wanted = is_wanted(piece, piece_from(next, from, size), made.number, most);
        let found = further_of(alloc, piece, wanted, at, held, made)?;
        add_found(found, piece, &mut left)?;
        from += piece.len();
        at += 1;
    }
    Ok(left)
}

// Adds to a left side what is written of a row. Most rows have nothing.
fn add_written(written: &[Atom], left: &mut Left) -> Result<(), AllocError>
    ensures { OnOk result (left.new.items ≡ left.old.items ++ written.now) }
{
    if written.is_empty() {
        return Ok(());
    }
    left.extend_from_slice(written)?;
    Ok(())
}

// Whether a row has no parts. Most rows have none.
#[inline(always)]
fn are_none(unknowns: &[Atom], written: &[Atom]) -> bool
    ensures { IsTrue result → unknowns.now ++ written.now ≡ [] }
{
    unknowns.is_empty() && written.is_empty()
}

// Lays out a row.
fn lay_out_row(
    alloc: Global,
    rows: &[Parts],
    number: usize,
    most: u32,
    held: &mut Vec<Further>,
    made: &mut Made,
) -> Result<(), AllocError>
    requires inside { number < length rows.now }
    requires small { number < 2 ^ 31 }
    requires room { most + 1 < 2 ^ 32 }
    requires few { made.old.number ≤ most }
    ensures few { OnOk result (made.new.number ≤ most) }
    ensures laid { OnOk result ((first : ℕ) (old : List Stored) →
        AreLaidSoFar (rows_of rows.now) number first made.old.number held.old.items old
        made.old.constraints.items →
        AreLaidSoFar (rows_of rows.now) (number + 1) first made.new.number held.new.items old
        made.new.constraints.items) }
{
    let row = &rows[number];
    if are_none(&row.unknowns, &row.written) {
        return Ok(());
    }
    let next = unknowns_of(rows, number + 1);
    let mut left = left_of(alloc, &row.unknowns, next, most, held, made)?;
    add_written(&row.written, &mut left)?;
    lay_out_one(number as u32, left, &mut made.constraints)?;
    Ok(())
}

/// Adds the constraints of the parts that are kept for unknowns. Unknowns that rows have one after the other go to them by further ones.
pub(crate) fn lay_out(alloc: Global, kept: &[Parts], made: &mut Made) -> Result<(), AllocError>
    requires room { made.old.number + length kept.now < 2 ^ 31 }
    ensures laid { OnOk result (AreLaidOut (rows_of kept.now) (length kept.now)
        made.old.number made.new.number made.old.constraints.items made.new.constraints.items) }
    ensures few { OnOk result (2 * made.new.number
        ≤ 2 * made.old.number + length kept.now + 1) }
{
    let first = made.number;
    let mut held = Vec::new(alloc);
    for number in 0..kept.len() {
        let most = first + (number / 2) as u32;
        lay_out_row(alloc, kept, number, most, &mut held, made)?;
    }
    Ok(())
}
