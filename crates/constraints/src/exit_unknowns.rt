//! Where the label of each exit flows.
ghost use Rattle.constraints.specs.Ready.{AreHandledInside, most_unknowns};
ghost use Rattle.constraints.specs.ExitUnknowns.{AreLevelled, AreWithin, entry_after, entry_in_try, no_entry, exit_unknown_of, exit_unknowns_of, thrown_exit_unknown, undone};
ghost use Rattle.gathering.specs.Walk.{in_loop, with_normal, within_single};
ghost use Rattle.resolved.specs.TreeOf.{handlers_of};
ghost use Rattle.resolved.specs.declared.statement.Handler.{Handler};
ghost use Rattle.std.specs.Prelude.{IfOk, List, OnOk, length, map, set, slice_index_or, ℕ, ◌+◌, ◌<◌, ◌≡◌, ◌≤◌};
ghost use Rattle.constraints.specs.declared.exit_unknowns.ExitUnknown.{ExitUnknown};

use path_map::{ExceptionMap, PathMap};
use resolved::statement::{Exit, Handler};
use std::alloc::{AllocError, Global};

/// The exit unknown of an exception, which counts where its level is above the barrier.
#[derive(Clone, Copy, Debug, PartialEq, Eq)]
pub struct ExitUnknown {
    pub number: u32,
    pub level: u32,
}

/// The inner unknown to which the label of each exit flows, if to any; and the level of the innermost `try`. The path map has a barrier for
/// exceptions, whose exit unknowns stand in a list of entries.
#[derive(Clone, Copy, Debug, PartialEq, Eq)]
pub struct ExitUnknowns {
    pub ends: PathMap<Option<u32>, u32>,
    pub level: u32,
}

/// The exit unknowns of exceptions: those of the entries that count.
#[derive(Clone, Copy, Debug)]
pub struct ThrownUnknowns<'a> {
    pub barrier: u32,
    pub thrown: &'a [ExitUnknown],
}

impl<'a> ExceptionMap<Option<u32>> for ThrownUnknowns<'a> {
    ghost value_of = { λ exit_unknowns. thrown_exit_unknown exit_unknowns.thrown.now exit_unknowns.barrier };

    fn get(&self, exception: u32) -> Option<u32> {
        exit_unknown_in(self.barrier, entry_in(self.thrown, exception))
    }
}

/// An entry that was there before another one took its place.
#[derive(Clone, Copy, Debug, PartialEq, Eq)]
pub struct Saved {
    pub exception: u32,
    pub entry: ExitUnknown,
}

// The entry of an exception.
pub(crate) fn entry_in(thrown: &[ExitUnknown], exception: u32) -> ExitUnknown
    ensures { result ≡ slice_index_or thrown.now exception no_entry }
{
    match thrown.get(exception as usize) {
        None => ExitUnknown {
            number: 0,
            level: 0,
        },
        Some(entry) => *entry,
    }
}

// The exit unknown that an entry gives.
pub(crate) fn exit_unknown_in(barrier: u32, entry: ExitUnknown) -> Option<u32>
    ensures { result ≡ exit_unknown_of barrier entry }
{
    if barrier < entry.level {
        return Some(entry.number);
    }
    None
}

/// Sets the exit unknown of an exception, unless there is one of the same level already, and saves the entry that was there.
pub(crate) fn take(
    exception: u32,
    entry: ExitUnknown,
    thrown: &mut Vec<ExitUnknown>,
    saved: &mut Vec<Saved>,
) -> Result<(), AllocError>
    requires { exception < length thrown.old.items }
    ensures undone { OnOk result (undone saved.new.items thrown.new.items
        ≡ undone saved.old.items thrown.old.items) }
    ensures taken { OnOk result ((x : ℕ) → slice_index_or thrown.new.items x no_entry
        ≡ entry_after exception entry x (slice_index_or thrown.old.items x no_entry)) }
{
    let old = entry_in(thrown, exception);
    if old.level == entry.level {
        return Ok(());
    }
    saved.push(Saved {
        exception,
        entry: old,
    })?;
    thrown[exception as usize] = entry;
    Ok(())
}

/// Puts a saved entry back.
pub fn put(saved: Saved, thrown: &mut Vec<ExitUnknown>)
    ensures { thrown.new.items ≡ set thrown.old.items saved.exception saved.entry }
{
    let at = saved.exception as usize;
    if at < thrown.len() {
        thrown[at] = saved.entry;
    }
}

/// Puts saved entries back, the last one first.
pub fn put_back(saved: Vec<Saved>, thrown: &mut Vec<ExitUnknown>)
    ensures { thrown.new.items ≡ undone saved.items thrown.old.items }
{
    let mut saved = saved;
    while let Some(last) = saved.pop() {
        put(last, thrown);
    }
}

/// Has handlers take their exceptions one after the other, with the inner unknowns from this number on.
pub(crate) fn take_handled(
    handlers: &[Handler],
    first: u32,
    level: u32,
    thrown: &mut Vec<ExitUnknown>,
    saved: &mut Vec<Saved>,
) -> Result<(), AllocError>
    requires inside { AreHandledInside handlers.now thrown.old.items }
    requires room { first + length handlers.now ≤ most_unknowns }
    ensures undone { OnOk result (undone saved.new.items thrown.new.items
        ≡ undone saved.old.items thrown.old.items) }
    ensures taken { OnOk result ((x : ℕ) → slice_index_or thrown.new.items x no_entry
        ≡ entry_in_try (handlers_of handlers.now) first level x
        (slice_index_or thrown.old.items x no_entry)) }
{
    for (i, handler) in handlers.iter().enumerate() {
        let number = first + i as u32;
        take(
            handler.exception,
            ExitUnknown { number, level },
            thrown,
            saved,
        )?;
    }
    Ok(())
}

/// The number of the exit unknown of each handler's exception.
pub(crate) fn numbers_of(
    alloc: Global,
    handlers: &[Handler],
    thrown: &[ExitUnknown],
) -> Result<Vec<u32>, AllocError>
    ensures { IfOk result (λ numbers. numbers.items ≡ map (λ (handler : Handler).
        (slice_index_or thrown.now handler.exception no_entry).number) handlers.now) }
{
    let mut numbers = Vec::new(alloc);
    for handler in handlers {
        numbers.push(entry_in(thrown, handler.exception).number)?;
    }
    Ok(numbers)
}

impl ExitUnknowns {
    /// The exit unknown of an exit.
    pub fn at(self, thrown: &[ExitUnknown], exit: Exit) -> Option<u32>
        ensures { result ≡ exit_unknowns_of self thrown.now exit }
    {
        let raised = ThrownUnknowns {
            barrier: self.ends.raised,
            thrown,
        };
        self.ends.with_raised(raised).at(exit)
    }

    /// The same exit unknowns but for that of the normal exit.
    pub fn with_normal(self, normal: Option<u32>) -> ExitUnknowns
        ensures level { result.level ≡ self.level }
        ensures levelled { (thrown : List ExitUnknown) →
            AreLevelled self thrown → AreLevelled result thrown }
        ensures exit_unknowns { (thrown : List ExitUnknown) →
            exit_unknowns_of result thrown ≡ with_normal normal (exit_unknowns_of self thrown) }
    {
        ExitUnknowns {
            ends: PathMap {
                normal,
                ..self.ends
            },
            ..self
        }
    }

    /// The exit unknowns in the body of a loop, whose condition is reached at the inner unknown with this number.
    pub fn in_loop(self, back: u32) -> ExitUnknowns
        ensures level { result.level ≡ self.level }
        ensures levelled { (thrown : List ExitUnknown) →
            AreLevelled self thrown → AreLevelled result thrown }
        ensures exit_unknowns { (thrown : List ExitUnknown) →
            exit_unknowns_of result thrown ≡ in_loop back (exit_unknowns_of self thrown) }
    {
        ExitUnknowns {
            ends: PathMap {
                normal: Some(back),
                breaks: self.ends.normal,
                continues: Some(back),
                ..self.ends
            },
            ..self
        }
    }

    /// The exit unknowns in the block of a `try`, whose handlers have entries of the next level.
    pub(crate) fn in_try(self) -> ExitUnknowns
        requires { self.level < most_unknowns }
        ensures { result ≡ record self { level = self.level + 1 } }
    {
        ExitUnknowns {
            level: self.level + 1,
            ..self
        }
    }

    /// No exit unknowns, where there is one exit only.
    pub fn within_single(self, only: bool) -> ExitUnknowns
        ensures level { result.level ≡ self.level }
        ensures levelled { (thrown : List ExitUnknown) →
            AreLevelled self thrown → AreLevelled result thrown }
        ensures exit_unknowns { (thrown : List ExitUnknown) → AreWithin self.level thrown →
            exit_unknowns_of result thrown ≡ within_single only (exit_unknowns_of self thrown) }
    {
        if only {
            return ExitUnknowns {
                ends: PathMap::of_all(None, self.level),
                ..self
            };
        }
        self
    }
}
