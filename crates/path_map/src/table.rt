//! The possible exits of the statements and blocks of a program, as they are kept.
ghost use Rattle.path_map.specs.Entries.{IsEntryWritten, IsRowFor, IsRowOfSet, RowsGrow, entry_exits};
ghost use Rattle.path_map.specs.ThrownExits.{has_exception};
ghost use Rattle.path_map.specs.PathMaps.{value_at};
ghost use Rattle.path_map.specs.Exits.{exits_of};
ghost use Rattle.path_map.specs.Sets.{members};
ghost use Rattle.resolved.specs.Exits.{has_exit};
ghost use Rattle.resolved.specs.declared.statement.Exit.{Exit};
ghost use Rattle.std.specs.Prelude.{IfOk, OnOk, IsTrue, [], false, length, slice_index_or, ◌++◌, ◌<◌, ◌∷◌, ◌≡◌};

use crate::exits::{ExceptionMap, Exits, PathMap, Raised};
use crate::keeping::{KeptForm, KeptRow, row_has};
use crate::members::ExceptionSet;
use crate::raises::Raises;
use crate::recent::RecentRows;
use crate::sharing::keep;
use resolved::statement::Exit;
use resolved::tables::Procedure;
use std::alloc::{AllocError, Global};
use std::marker::Model;

// What is kept of a statement or block: a summary of its exits, and the number of the row of its exceptions, where they are several.
#[derive(Clone, Copy)]
struct ExitsEntry {
    exits: Exits,
    row: usize,
}

/// The exceptions among the exits of a statement or block: whether each is one of them.
#[derive(Clone, Copy)]
pub struct Exceptions<'a> {
    raised: Raised,
    // Where they are several, those of the row with this number.
    rows: &'a [KeptRow],
    row: usize,
}

impl<'a> ExceptionMap<bool> for Exceptions<'a> {
    ghost value_of = { has_exception };

    fn get(&self, exception: u32) -> bool {
        match self.raised {
            Raised::Nothing => false,
            Raised::One(only) => exception == only,
            Raised::Several => row_has(self.rows, self.row, exception),
        }
    }
}

/// The possible exits of each statement and block of a program, by their numbers: a block comes before its statements, and a statement
/// before the blocks in it.
///
/// Statements and blocks share rows of exceptions where they are one in the other, or calls of one procedure: the row of a statement that
/// has few exceptions more or fewer than those in it takes memory for these alone.
#[derive(Drop)]
pub struct Ends {
    entries: Vec<ExitsEntry>,
    // The first row is empty, and stands for those that are not several.
    rows: Vec<KeptRow>,
    recent: RecentRows,
}

impl Model for Ends {
    ghost use Rattle.path_map.specs.Entries.{AreKept, entry_exits};
    ghost use Rattle.resolved.specs.declared.statement.Exit.{Exit};
    ghost use Rattle.std.specs.Prelude.{List, length, map, ◌<◌};

    ghost Value = { List (List Exit) };

    ghost view = { λ ends. map (entry_exits ends.rows.items) ends.entries.items };

    ghost invariant = { λ ends. (0 < length ends.rows.items)
        × AreKept ends.rows.items ends.entries.items };
}

impl Ends {
    // No exits, of a program with this many exceptions and with these procedures.
    pub(crate) fn new(
        alloc: Global,
        bound: u32,
        procedures: &[Procedure],
    ) -> Result<Ends, AllocError>
        ensures { IfOk result (λ ends. ends ≡ []) }
    {
        let mut rows = Vec::new(alloc);
        rows.push(KeptRow {
            steps: 0,
            form: KeptForm::Whole(ExceptionSet::new(alloc, bound)),
        })?;
        Ok(Ends {
            entries: Vec::with_capacity(alloc, likely_entries(procedures))?,
            rows,
            recent: RecentRows::new(alloc, bound, procedures.len())?,
        })
    }

    // Makes room for an entry, and gives its number.
    pub(crate) fn reserve(&mut self) -> Result<usize, AllocError>
        ensures number { IfOk result (λ at. at ≡ length self.old) }
        ensures room { OnOk result (self.new ≡ self.old ++ [] ∷ []) }
    {
        let at = self.entries.len();
        self.entries.push(ExitsEntry {
            exits: Exits::raise_only(Raised::Nothing),
            row: 0,
        })?;
        Ok(at)
    }

    // Writes an entry: exits with these exceptions, which are also those of a call, if it is one.
    #[inline(always)]
    pub(crate) fn put(
        &mut self,
        at: usize,
        exits: Exits,
        raised: ExceptionSet,
        call: Option<(u32, Raises)>,
    ) -> Result<(), AllocError>
        requires { at < length self.old }
        ensures { OnOk result (IsEntryWritten at exits (members raised) self.old self.new) }
    {
        let summary = raised.summary();
        let row = row_of(&mut self.rows, raised, summary, &mut self.recent, at, call)?;
        self.entries[at] = ExitsEntry {
            exits: exits.with(summary),
            row,
        };
        self.recent.note(at, call, row)?;
        Ok(())
    }

    // Writes an entry: exits without exceptions, of what is no call.
    #[inline(always)]
    pub(crate) fn put_plain(&mut self, at: usize, exits: Exits)
        requires { at < length self.old }
        ensures { IsEntryWritten at exits (λ _. false) self.old self.new }
    {
        self.entries[at] = ExitsEntry {
            exits: exits.with(Raised::Nothing),
            row: 0,
        };
    }

    /// How many statements and blocks there are.
    pub fn len(&self) -> usize
        ensures { result ≡ length self.now }
    {
        self.entries.len()
    }

    /// The summary of the exits of a statement or block.
    pub fn exits(&self, number: usize) -> Exits
        requires { number < length self.now }
        ensures { result ≡ exits_of (slice_index_or self.now number []) }
    {
        self.entries[number].exits
    }

    /// The possible exits of a statement or block as a path map: of each exit, an exception by its number, whether it is one of them.
    pub fn ends_of(&self, number: usize) -> PathMap<bool, Exceptions<'_>>
        requires { number < length self.now }
        ensures { (exit : Exit) → value_at has_exception result exit
            ≡ has_exit (slice_index_or self.now number []) exit }
    {
        let entry = self.entries[number];
        path_map_of(&self.rows, entry)
    }

    /// Whether a statement or block can end thus; an exception is one of its exits by its number, also among several.
    pub fn has(&self, number: usize, exit: Exit) -> bool
        requires { number < length self.now }
        ensures { result ≡ has_exit (slice_index_or self.now number []) exit }
    {
        self.ends_of(number).at(exit)
    }
}

// How many statements and blocks there are in most programs with these procedures: a third of them, or more, stand in the bodies
// themselves.
fn likely_entries(procedures: &[Procedure]) -> usize {
    let mut count: usize = 0;
    for procedure in procedures {
        count = count.saturating_add(procedure.body.len());
    }
    count.saturating_mul(3)
}

// The exits of an entry.
fn path_map_of<'a>(rows: &'a [KeptRow], entry: ExitsEntry) -> PathMap<bool, Exceptions<'a>>
    ensures { (exit : Exit) → value_at has_exception result exit
        ≡ has_exit (entry_exits rows.now entry) exit }
{
    entry.exits.with_raised(Exceptions {
        raised: entry.exits.raised,
        rows,
        row: entry.row,
    })
}

// The number of a row for a set with this summary, of the statement or block with a number, which may be a call: of one of its
// exceptions, if they are several.
#[inline(always)]
fn row_of(
    rows: &mut Vec<KeptRow>,
    set: ExceptionSet,
    summary: Raised,
    recent: &mut RecentRows,
    at: usize,
    call: Option<(u32, Raises)>,
) -> Result<usize, AllocError>
    requires { 0 < length rows.old.items }
    ensures row { IfOk result (IsRowFor (members set) summary rows.new.items) }
    ensures grown { RowsGrow rows.old.items rows.new.items }
{
    match summary {
        Raised::Nothing => Ok(0),
        Raised::One(_) => Ok(0),
        Raised::Several => keep_several(rows, set, recent, at, call),
    }
}

// The number of a row with the exceptions of a set, of the statement or block with a number, which may be a call.
// A call, since few statements have several exceptions.
#[inline(never)]
fn keep_several(
    rows: &mut Vec<KeptRow>,
    set: ExceptionSet,
    recent: &mut RecentRows,
    at: usize,
    call: Option<(u32, Raises)>,
) -> Result<usize, AllocError>
    ensures kept { IfOk result (IsRowOfSet (members set) rows.new.items) }
    ensures grown { RowsGrow rows.old.items rows.new.items }
{
    let nearby = recent.nearby(set.alloc, at, call)?;
    keep(set.alloc, rows, set, &nearby)
}
