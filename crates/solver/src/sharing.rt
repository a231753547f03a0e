//! Rows of bits that share their numbers: a row that has few numbers beyond another one stands as that one and these.
ghost use Rattle.solver.specs.Sharing.{AreForms, AreShared, IsKeptAs, MayBeKeptAs, bits_of, with_numbers};
ghost use Rattle.labels.specs.Row.{Includes, has};
ghost use Rattle.solver.specs.Looks.{count_of};
ghost use Rattle.solver.specs.Rows.{AreSized, atom_has, has_at, left_has};
ghost use Rattle.solver.specs.Work.{IsBroughtTo, IsGrown, IsMore};
ghost use Rattle.solver.specs.declared.constraints.Atom.TheVariants.{Unknown};
ghost use Rattle.std.specs.Prelude.{All, Bool, Contains, IfOk, IfSome, IsTrue, List, OnOk, [], false, length, map, replicate, set, slice_index_or, ℕ, ◌<◌, ◌==◌, ◌||◌, ◌≡◌, ◌≤◌};

use crate::constraints::Atom;
use labels::Row;
use smallvec::SmallVec;
use std::alloc::{AllocError, Global};
use std::marker::Model;

// A row has at most this many numbers beyond the one on which it stands.
const MOST_BEYOND: usize = 4;

// A row that stands on the one that an unknown had before has at most this part of all numbers beyond it, so that it takes less memory
// than a whole one however often it grows.
const PART_BEYOND: usize = 128;

// A row stands on this many others at most.
const MOST_STEPS: u32 = 32;

// Shorter rows are kept whole.
const SHORT: usize = 512;

// The numbers of longer rows are not looked at one by one.
const LOOKED_AT: usize = 32;

/// How a row is kept: whole, or as the one with a number and some numbers beyond that.
#[derive(Debug, Drop)]
pub(crate) enum RowForm {
    Whole(Row),
    Beyond(usize, SmallVec<usize, 2>),
}

/// How a row is kept, and on how many others it stands.
#[derive(Debug, Drop)]
pub(crate) struct Kept {
    pub steps: u32,
    pub form: RowForm,
}

/// For each unknown a row of numbers. Rows of unknowns along a flow differ by few numbers, and take memory for these alone. A contract
/// sees the rows as lists of truth values.
#[derive(Debug, Drop)]
pub(crate) struct SharedRows {
    // First come a row below 0 and one without numbers. A row that stands on another one keeps its number when more are added.
    kept: Vec<Kept>,
    // For each unknown the number of its row.
    of: Vec<usize>,
    // For each written element an unknown whose row may be that of the element alone.
    alone: Vec<usize>,
}

impl Model for SharedRows {
    ghost use Rattle.std.specs.Prelude.{Bool, List, map};

    ghost Value = { List (List Bool) };

    ghost use Rattle.solver.specs.Sharing.{AreShared, bits_of};

    ghost view = { λ rows. map (bits_of rows.kept.items) rows.of.items };

    ghost invariant = { λ rows. AreShared rows.kept.items rows.of.items };
}

// A row near another one: with so few of the numbers of that which it lacked.
#[derive(Drop)]
struct Near {
    row: Row,
    more: SmallVec<usize, 2>,
}

// The first unknown of a left side, if it has one.
fn first_unknown(left: &[Atom]) -> Option<usize> {
    for atom in left {
        if let Atom::Unknown(unknown) = *atom {
            return Some(unknown as usize);
        }
    }
    None
}

// The last one.
fn last_unknown(left: &[Atom]) -> Option<usize>
    ensures { IfSome result (λ unknown. Contains left.now (Unknown unknown)) }
{
    for i in 0..left.len() {
        if let Atom::Unknown(unknown) = left[left.len() - 1 - i] {
            return Some(unknown as usize);
        }
    }
    None
}

// Whether all parts of a left side are this one.
fn are_all(left: &[Atom], only: Atom) -> bool
    ensures { IsTrue result → (k : ℕ) → k < length left.now →
        slice_index_or left.now k only ≡ only }
{
    for part in left {
        if *part != only {
            return false;
        }
    }
    true
}

// The number of the written element of which a left side consists, if it is one only.
fn only_written(left: &[Atom]) -> Option<usize>
    ensures { IfSome result (λ number. (rows : List (List Bool)) (n : ℕ) →
        left_has rows left.now n ≡ (n == number)) }
{
    if left.is_empty() {
        return None;
    }
    let first = left[0];
    let Atom::Written(number) = first else {
        return None;
    };
    if !are_all(left, first) {
        return None;
    }
    Some(number as usize)
}

// A row with some numbers more.
fn with_all(base: Row, numbers: &[usize]) -> Row
    requires { All (λ n. n < length base) numbers.now }
    ensures { result ≡ with_numbers base numbers.now }
{
    let mut row = base;
    for number in numbers {
        row.set(*number);
    }
    row
}

// The row with a number.
fn whole(alloc: Global, kept: &[Kept], number: usize) -> Result<Row, AllocError>
    requires forms { AreForms kept.now }
    requires number { number < length kept.now }
    ensures { IfOk result (λ row. row ≡ bits_of kept.now number) }
{
    match &kept[number].form {
        RowForm::Whole(row) => row.copy(alloc),
        RowForm::Beyond(base, more) => {
            let below = whole(alloc, kept, *base)?;
            Ok(with_all(below, more.as_slice()))
        }
    }
}

// A row with the first numbers of another one that it lacks, but no more than `most`.
fn come_near(alloc: Global, base: Row, row: &Row, most: usize) -> Result<Near, AllocError>
    requires { length row.now ≡ length base }
    ensures row { IfOk result (λ near. near.row ≡ with_numbers base near.more.items) }
    ensures inside { IfOk result (λ near. All (λ n. n < length base) near.more.items) }
{
    let mut near = base;
    let mut more = SmallVec::new(alloc);
    let mut from = 0;
    for _i in 0..most {
        let Some(number) = row.first_beyond(&near, from) else {
            return Ok(Near { row: near, more });
        };
        near.set(number);
        more.push(number)?;
        from = number;
    }
    Ok(Near { row: near, more })
}

// Whether a set has a number that another one lacks.
fn has_beyond(row: &Row, own: &Row) -> bool
    ensures none { result ≡ false → Includes own.now row.now }
    ensures some { IsTrue result → ¬ Includes own.now row.now }
{
    if own.bound() == row.bound() {
        return !own.covers(row);
    }
    row.first_beyond(own, 0).is_some()
}

// A row with the numbers of another one, which has no more, if it has a number that the other one lacks.
fn grown(own: &Row, row: Row) -> Option<Row>
    requires { length own.now ≤ length row }
    ensures { IsGrown own.now row result }
{
    if has_beyond(&row, own) {
        let mut grown = row;
        grown.include(own);
        return Some(grown);
    }
    None
}

// How a row is kept beyond that with a number, if it has no more than `most` numbers more.
fn beyond(
    alloc: Global,
    kept: &[Kept],
    base: usize,
    row: &Row,
    most: usize,
) -> Result<Option<Kept>, AllocError>
    requires forms { AreForms kept.now }
    requires base { base < length kept.now }
    ensures { IfOk result (MayBeKeptAs kept.now row.now) }
{
    let steps = kept[base].steps;
    if steps >= MOST_STEPS {
        return Ok(None);
    }
    let below = whole(alloc, kept, base)?;
    if below.bound() != row.bound() {
        return Ok(None);
    }
    let near = come_near(alloc, below, row, most)?;
    if !near.row.is_same(row) {
        return Ok(None);
    }
    Ok(Some(Kept {
        steps: steps + 1,
        form: RowForm::Beyond(base, near.more),
    }))
}

// How a row is kept beyond that of an unknown, if there is one and it has no more than `most` numbers more.
fn beyond_unknown(
    alloc: Global,
    kept: &[Kept],
    of: &[usize],
    unknown: Option<usize>,
    row: &Row,
    most: usize,
) -> Result<Option<Kept>, AllocError>
    requires { AreShared kept.now of.now }
    ensures { IfOk result (MayBeKeptAs kept.now row.now) }
{
    let Some(unknown) = unknown else {
        return Ok(None);
    };
    if unknown >= of.len() {
        return Ok(None);
    }
    beyond(alloc, kept, of[unknown], row, most)
}

// How a row is kept beyond one that it may be near to: that without numbers, or those of the last and the first unknown of a left side.
fn beyond_some(
    alloc: Global,
    kept: &[Kept],
    of: &[usize],
    left: &[Atom],
    row: &Row,
) -> Result<Option<Kept>, AllocError>
    requires { AreShared kept.now of.now }
    ensures { IfOk result (MayBeKeptAs kept.now row.now) }
{
    if let Some(form) = beyond(alloc, kept, 1, row, MOST_BEYOND)? {
        return Ok(Some(form));
    }
    if let Some(form) = beyond_unknown(alloc, kept, of, last_unknown(left), row, MOST_BEYOND)? {
        return Ok(Some(form));
    }
    beyond_unknown(alloc, kept, of, first_unknown(left), row, MOST_BEYOND)
}

// How a new row of an unknown is kept: beyond another one, if it is long and near to one, or else whole.
fn kept_as(
    alloc: Global,
    kept: &[Kept],
    of: &[usize],
    unknown: usize,
    row: Row,
    left: &[Atom],
) -> Result<Kept, AllocError>
    requires { AreShared kept.now of.now }
    ensures { IfOk result (IsKeptAs kept.now row) }
{
    if row.bound() >= SHORT {
        if let Some(form) = beyond_some(alloc, kept, of, left, &row)? {
            return Ok(form);
        }
        let most = MOST_BEYOND.max(row.bound() / PART_BEYOND);
        if let Some(form) = beyond_unknown(alloc, kept, of, Some(unknown), &row, most)? {
            return Ok(form);
        }
    }
    Ok(Kept {
        steps: 0,
        form: RowForm::Whole(row),
    })
}

// Whether a row is the one with a number, which is kept whole.
fn is_kept(kept: &[Kept], number: usize, row: &Row) -> bool
    requires { number < length kept.now }
    ensures { IsTrue result → bits_of kept.now number ≡ row.now }
{
    match &kept[number].form {
        RowForm::Whole(own) => own.bound() == row.bound() && own.is_same(row),
        RowForm::Beyond(_, _) => false,
    }
}

// The number of the row of an unknown of a left side, if it has one and that is kept whole and the same as this.
fn same_as_unknown(kept: &[Kept], of: &[usize], row: &Row, left: &[Atom]) -> Option<usize>
    requires { AreShared kept.now of.now }
    ensures number { IfSome result (λ number. number < length kept.now) }
    ensures same { IfSome result (λ number. bits_of kept.now number ≡ row.now) }
{
    let unknown = last_unknown(left)?;
    let number = *of.get(unknown)?;
    if is_kept(kept, number, row) {
        Some(number)
    } else {
        None
    }
}

// The number of a row that is kept whole and is the same as this, if it is that of an unknown of a left side or the last one that was
// kept. Along a flow most are, and so are those of locals that nothing flows to.
fn same_as(kept: &[Kept], of: &[usize], row: &Row, left: &[Atom]) -> Option<usize>
    requires { AreShared kept.now of.now }
    ensures number { IfSome result (λ number. number < length kept.now) }
    ensures same { IfSome result (λ number. bits_of kept.now number ≡ row.now) }
{
    if let Some(number) = same_as_unknown(kept, of, row, left) {
        return Some(number);
    }
    let last = kept.len().checked_sub(1)?;
    if is_kept(kept, last, row) {
        Some(last)
    } else {
        None
    }
}

// Whether the row with a number has all that a part of a left side has, as far as it is seen at once: the part is a number in a row
// that is kept whole, or an unknown with the same row.
fn covers_part(kept: &[Kept], of: &[usize], number: usize, part: Atom) -> bool
    requires forms { AreForms kept.now }
    requires number { number < length kept.now }
    ensures { IsTrue result → (n : ℕ) → IsTrue (atom_has (map (bits_of kept.now) of.now) n part)
        → IsTrue (has (bits_of kept.now number) n) }
{
    match part {
        Atom::Written(n) => match &kept[number].form {
            RowForm::Whole(row) => row.contains(n as usize),
            RowForm::Beyond(_, _) => false,
        },
        Atom::Unknown(unknown) => match of.get(unknown as usize) {
            Some(own) => *own == number,
            None => false,
        },
    }
}

// Whether the row with a number has all that a left side has, as far as it is seen at once.
fn covers_left(kept: &[Kept], of: &[usize], number: usize, left: &[Atom]) -> bool
    requires forms { AreForms kept.now }
    requires number { number < length kept.now }
    ensures { IsTrue result → (n : ℕ)
        → IsTrue (left_has (map (bits_of kept.now) of.now) left.now n)
        → IsTrue (has (bits_of kept.now number) n) }
{
    for part in left {
        if !covers_part(kept, of, number, *part) {
            return false;
        }
    }
    true
}

// Whether the row with a number has numbers, as far as it is seen at once.
fn has_numbers(kept: &[Kept], number: usize) -> bool
    requires { number < length kept.now }
    ensures { IsTrue result → 0 < count_of (λ b. b) (bits_of kept.now number) }
{
    match &kept[number].form {
        RowForm::Whole(row) => row.first_from(0).is_some(),
        RowForm::Beyond(_, _) => false,
    }
}

// Whether the row with a number is that below 0.
fn is_below_zero(kept: &[Kept], number: usize) -> bool
    requires { number < length kept.now }
    ensures { IsTrue result → bits_of kept.now number ≡ [] }
{
    match &kept[number].form {
        RowForm::Whole(row) => row.bound() == 0,
        RowForm::Beyond(_, _) => false,
    }
}

// The number of the row of an unknown of a left side, if it is all that the left side has, and an unknown has no number yet.
fn taken_over(kept: &[Kept], of: &[usize], unknown: usize, left: &[Atom]) -> Option<usize>
    requires shared { AreShared kept.now of.now }
    requires unknown { unknown < length of.now }
    ensures number { IfSome result (λ number. number < length kept.now) }
    ensures more { IfSome result (λ number. (count : ℕ)
        → AreSized count (map (bits_of kept.now) of.now)
        → IsMore (map (bits_of kept.now) of.now) count unknown left.now
        (bits_of kept.now number)) }
{
    let from = last_unknown(left)?;
    let number = *of.get(from)?;
    if !has_numbers(kept, number) {
        return None;
    }
    if !is_below_zero(kept, of[unknown]) {
        return None;
    }
    if !covers_left(kept, of, number, left) {
        return None;
    }
    Some(number)
}

// Whether a row has one number only, this, as far as it is seen at once: it is short.
fn has_only(row: &Row, only: usize) -> bool
    ensures { IsTrue result → (n : ℕ) → has row.now n ≡ (n == only) }
{
    if row.bound() > LOOKED_AT {
        return false;
    }
    let Some(first) = row.first_from(0) else {
        return false;
    };
    if first != only {
        return false;
    }
    row.first_from(first + 1).is_none()
}

// Whether the row with a number has one number only, as far as it is seen at once.
fn is_alone(kept: &[Kept], number: usize, only: usize) -> bool
    requires { number < length kept.now }
    ensures { IsTrue result → (n : ℕ) → has (bits_of kept.now number) n ≡ (n == only) }
{
    match &kept[number].form {
        RowForm::Whole(row) => has_only(row, only),
        RowForm::Beyond(_, _) => false,
    }
}

// The number of a row that is all that a left side has, if one is seen at once and an unknown has no number yet.
fn taken(
    kept: &[Kept],
    of: &[usize],
    alone: &[usize],
    unknown: usize,
    left: &[Atom],
) -> Option<usize>
    requires shared { AreShared kept.now of.now }
    requires unknown { unknown < length of.now }
    ensures number { IfSome result (λ number. number < length kept.now) }
    ensures more { IfSome result (λ number. (count : ℕ)
        → AreSized count (map (bits_of kept.now) of.now)
        → IsMore (map (bits_of kept.now) of.now) count unknown left.now
        (bits_of kept.now number)) }
{
    if let Some(number) = taken_over(kept, of, unknown, left) {
        return Some(number);
    }
    // Or it is a written element alone, and an unknown is noted that has the row of it.
    let only = only_written(left)?;
    let from = *alone.get(only)?;
    let number = *of.get(from)?;
    if !is_alone(kept, number, only) {
        return None;
    }
    if !is_below_zero(kept, of[unknown]) {
        return None;
    }
    Some(number)
}

// Notes that the row of an unknown is that of the written element of which a left side consists, if it is one only.
fn note_alone(alone: &mut [usize], unknown: usize, left: &[Atom]) {
    if let Some(only) = only_written(left) {
        if let Some(noted) = alone.get_mut(only) {
            *noted = unknown;
        }
    }
}

impl SharedRows {
    /// This many empty rows, which will have numbers below a count.
    pub(crate) fn new(
        alloc: Global,
        count: usize,
        unknowns: usize,
    ) -> Result<SharedRows, AllocError>
        ensures { IfOk result (λ rows. rows ≡ replicate unknowns []) }
    {
        let mut kept = Vec::new(alloc);
        let nothing = Row::new(alloc, 0)?;
        kept.push(Kept {
            steps: 0,
            form: RowForm::Whole(nothing),
        })?;
        let none = Row::new(alloc, count)?;
        kept.push(Kept {
            steps: 0,
            form: RowForm::Whole(none),
        })?;
        let of = vec![in alloc; 0usize; unknowns]?;
        let alone = vec![in alloc; 0usize; count.min(LOOKED_AT)]?;
        Ok(SharedRows { kept, of, alone })
    }

    /// The row of an unknown, which is empty where there is none.
    pub(crate) fn row(&self, alloc: Global, unknown: usize) -> Result<Row, AllocError>
        ensures { IfOk result (λ row. row ≡ slice_index_or self.now unknown []) }
    {
        if unknown >= self.of.len() {
            return Row::new(alloc, 0);
        }
        whole(alloc, self.kept.as_slice(), self.of[unknown])
    }

    /// Whether the row of an unknown has all that a left side has. It is seen without another row, and not seen of each that has.
    pub(crate) fn covers(&self, unknown: usize, left: &[Atom]) -> bool
        requires { unknown < length self.now }
        ensures { IsTrue result → (n : ℕ) → IsTrue (left_has self.now left.now n)
            → IsTrue (has_at self.now unknown n) }
    {
        covers_left(
            self.kept.as_slice(),
            self.of.as_slice(),
            self.of[unknown],
            left,
        )
    }

    /// Gives an unknown without a number a row that is all that a left side has, if one is seen at once: that of an unknown of the left
    /// side, or that of a written element alone. The answer is whether it did.
    pub(crate) fn take_over(&mut self, unknown: usize, left: &[Atom]) -> bool
        requires { unknown < length self.old }
        ensures taken { IsTrue result → (count : ℕ) → AreSized count self.old
            → IsBroughtTo self.old count unknown left.now self.new }
        ensures kept { result ≡ false → self.new ≡ self.old }
    {
        match taken(
            self.kept.as_slice(),
            self.of.as_slice(),
            self.alone.as_slice(),
            unknown,
            left,
        ) {
            Some(taken) => {
                self.of[unknown] = taken;
                true
            }
            None => false,
        }
    }

    /// Adds the numbers of the row of an unknown to another one, which is as long or longer. A row that is kept whole is not copied.
    pub(crate) fn include_in(
        &self,
        alloc: Global,
        unknown: usize,
        row: &mut Row,
    ) -> Result<(), AllocError>
        requires { length (slice_index_or self.now unknown []) ≤ length row.old }
        ensures bound { OnOk result (length row.new ≡ length row.old) }
        ensures members { OnOk result ((n : ℕ) → has row.new n
            ≡ (has row.old n || has (slice_index_or self.now unknown []) n)) }
    {
        if unknown < self.of.len() {
            if let RowForm::Whole(own) = &self.kept[self.of[unknown]].form {
                row.include(own);
                return Ok(());
            }
        }
        let own = self.row(alloc, unknown)?;
        row.include(&own);
        Ok(())
    }

    /// The row of an unknown with the numbers of another one, which is as long or longer, if that has new ones. A row that is kept whole
    /// is not copied.
    pub(crate) fn grown(
        &self,
        alloc: Global,
        unknown: usize,
        row: Row,
    ) -> Result<Option<Row>, AllocError>
        requires { length (slice_index_or self.now unknown []) ≤ length row }
        ensures { IfOk result (IsGrown (slice_index_or self.now unknown []) row) }
    {
        if unknown < self.of.len() {
            if let RowForm::Whole(own) = &self.kept[self.of[unknown]].form {
                return Ok(grown(own, row));
            }
        }
        let own = self.row(alloc, unknown)?;
        Ok(grown(&own, row))
    }

    /// Puts a row for an unknown in the place of its own. It may stand on that of an unknown of a left side.
    pub(crate) fn put(
        &mut self,
        alloc: Global,
        unknown: usize,
        row: Row,
        left: &[Atom],
    ) -> Result<(), AllocError>
        requires { unknown < length self.old }
        ensures { OnOk result (self.new ≡ set self.old unknown row) }
    {
        note_alone(&mut self.alone, unknown, left);
        if let Some(same) = same_as(self.kept.as_slice(), self.of.as_slice(), &row, left) {
            self.of[unknown] = same;
            return Ok(());
        }
        let number = self.kept.len();
        let form = kept_as(
            alloc,
            self.kept.as_slice(),
            self.of.as_slice(),
            unknown,
            row,
            left,
        )?;
        self.kept.push(form)?;
        self.of[unknown] = number;
        Ok(())
    }
}
