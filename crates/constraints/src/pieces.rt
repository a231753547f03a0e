//! The pieces of a walk along blocks, statements and handlers that go into no block.
ghost use Rattle.constraints.specs.ByTable.{IsPartBy};
ghost use Rattle.constraints.specs.ByWalk.{scope_in, entries_in, IsWalkedBy};
ghost use Rattle.constraints.specs.Ready.{AreHandledInside, MayMakeUnknowns};
ghost use Rattle.constraints.specs.ExitUnknowns.{exit_unknowns_of};
ghost use Rattle.constraints.specs.Walked.{IsTried, branch_constraints};
ghost use Rattle.constraints.specs.Walks.{loop_head_constraints};
ghost use Rattle.gathering.specs.Names.{NamedAtom};
ghost use Rattle.gathering.specs.Walk.{block_constraints, call_constraints, inner_atom, onward_pc, rule_constraint, single};
ghost use Rattle.path_map.specs.Exits.{exits_of};
ghost use Rattle.path_map.specs.Exits.{Exits};
ghost use Rattle.resolved.specs.Exits.{one_exit};
ghost use Rattle.resolved.specs.Tree.{Empty};
ghost use Rattle.resolved.specs.TreeOf.{expression_of};
ghost use Rattle.resolved.specs.declared.statement.Exit.{Exit};
ghost use Rattle.resolved.specs.declared.target.Target.TheVariants.{ToLoop};
ghost use Rattle.std.specs.Prelude.{IfOk, List, OnOk, [], drop, length, map, ℕ, ◌+◌, ◌<◌, ◌∷◌, ◌≡◌};

use crate::around::Context;
use crate::exit_unknowns::{ExitUnknowns, Saved, numbers_of, take_handled};
use crate::forms::{CallSite, LoopSite};
use crate::progress::Progress;
use crate::statements::ProcedureWalk;
use path_map::Exits;
use resolved::expression::Expression;
use resolved::statement::{Exit, Handler};
use solver::Atom;
use std::alloc::AllocError;

/// What a `try` has in its block: its exit unknowns, the numbers of its handlers' pcs, and the entries to be put back.
#[derive(Drop)]
pub(crate) struct Tried {
    pub exit_unknowns: ExitUnknowns,
    pub numbers: Vec<u32>,
    pub saved: Vec<Saved>,
}

impl<'a> ProcedureWalk<'a> {
    // The possible exits of the next block or statement.
    #[inline(always)]
    fn next_exits(&self, progress: &mut Progress) -> Exits
        requires { progress.old.index < length (entries_in self.now) }
        ensures found { drop progress.old.index (entries_in self.now) ≡ result ∷ drop
            progress.new.index (entries_in self.now) }
        ensures others { progress.new ≡ record progress.old { index = progress.new.index } }
    {
        let count = self.map.len();
        prove!(progress.index < count);
        let exits = self.map.exits(progress.index);
        progress.index += 1;
        exits
    }

    // Comes to a block or statement: gives its possible exits, and adds the flow of the pc where there is one only.
    #[inline(always)]
    pub(crate) fn begin(
        &self,
        context: Context,
        progress: &mut Progress,
    ) -> Result<Exits, AllocError>
        requires { progress.old.index < length (entries_in self.now) }
        ensures exits { IfOk result (λ exits. (first : Exits) (left : List Exits) →
            drop progress.old.index (entries_in self.now) ≡ first ∷ left → exits ≡ first) }
        ensures added { OnOk result ((ends : List Exit) →
            IsWalkedBy self.now context.entry.pc context.entry.exit_unknowns.now (ends ∷ [])
            (λ (named : NamedAtom). single (one_exit ends) named
            (exit_unknowns_of context.entry.exit_unknowns.now progress.old.thrown.items) ends) 0
            progress.old progress.new) }
    {
        let exits = self.next_exits(progress);
        let around = context.around(&progress.thrown);
        self.add_single(exits, &around, &mut progress.constraints)?;
        Ok(exits)
    }

    // The pc of what follows a statement with these exits, whose normal exit has the exit unknown with this number.
    pub(crate) fn onward_pc(&self, exits: Exits, pc: Atom, number: u32) -> Atom
        ensures { (ends : List Exit) (named : NamedAtom) → exits ≡ exits_of ends →
            IsPartBy self.now.table.now named pc →
            IsPartBy self.now.table.now (onward_pc (one_exit ends) named number) result }
    {
        if exits.is_single() {
            return pc;
        }
        Atom::Unknown(number)
    }

    // Comes to the end of a block that is reached or not.
    pub(crate) fn end_block(
        &self,
        reached: bool,
        context: Context,
        progress: &mut Progress,
    ) -> Result<(), AllocError>
        ensures { OnOk result ((n : ℕ) →
            IsWalkedBy self.now context.entry.pc
            context.entry.exit_unknowns.now []
            (λ (named : NamedAtom). block_constraints (scope_in self.now) reached named
            (exit_unknowns_of context.entry.exit_unknowns.now progress.old.thrown.items) n Empty) 0
            progress.old progress.new) }
    {
        if !reached {
            return Ok(());
        }
        let exit_unknown = context.exit_unknowns.at(&progress.thrown, Exit::Normal);
        self.table.add_pc_flow(
            self.alloc,
            context.pc,
            exit_unknown,
            &mut progress.constraints,
        )?;
        Ok(())
    }

    // Adds what is gathered of a branch but for its blocks, and gives the number of the pc inside them.
    pub(crate) fn begin_branch(
        &self,
        condition: &Expression,
        context: Context,
        progress: &mut Progress,
    ) -> Result<u32, AllocError>
        requires { MayMakeUnknowns 1 progress.old }
        ensures number { IfOk result (λ number. number ≡ progress.old.number) }
        ensures added { OnOk result (IsWalkedBy self.now context.entry.pc
            context.entry.exit_unknowns.now []
            (λ (named : NamedAtom). branch_constraints (scope_in self.now) named
            (exit_unknowns_of context.entry.exit_unknowns.now progress.old.thrown.items)
            progress.old.number
            (expression_of condition.now)) 1 progress.old progress.new) }
    {
        let number = progress.make(1);
        self.add_branch(condition, number, context.pc, &mut progress.constraints)?;
        let around = context.around(&progress.thrown);
        self.add_condition(condition, &around, &mut progress.constraints)?;
        Ok(number)
    }

    // Adds what is gathered of a loop before its body, and gives the number of the pc inside it. The next number is that of the pc
    // back.
    pub(crate) fn begin_loop(
        &self,
        site: LoopSite,
        condition: &Expression,
        context: Context,
        progress: &mut Progress,
    ) -> Result<(u32, u32), AllocError>
        requires { MayMakeUnknowns 2 progress.old }
        ensures inner { IfOk result (λ pcs. pcs.0 ≡ progress.old.number) }
        ensures back { IfOk result (λ pcs. pcs.1 ≡ progress.old.number + 1) }
        ensures added { OnOk result (IsWalkedBy self.now context.entry.pc
            context.entry.exit_unknowns.now []
            (λ (named : NamedAtom). loop_head_constraints (scope_in self.now) named
            (exit_unknowns_of context.entry.exit_unknowns.now progress.old.thrown.items)
            progress.old.number
            site.at site.number (expression_of condition.now)) 2 progress.old progress.new) }
    {
        let inner = progress.make(2);
        let back = inner + 1;
        let around = context.around(&progress.thrown);
        self.add_loop_head(site, condition, inner, &around, &mut progress.constraints)?;
        Ok((inner, back))
    }

    // Adds the flow back to the label of a loop.
    pub(crate) fn end_loop(
        &self,
        site: LoopSite,
        back: u32,
        progress: &mut Progress,
    ) -> Result<(), AllocError>
        ensures { OnOk result ((pc : Atom) (exit_unknowns : ExitUnknowns) →
            IsWalkedBy self.now pc exit_unknowns []
            (λ (named : NamedAtom). rule_constraint (scope_in self.now) site.at 8
            (inner_atom back ∷ []) (ToLoop self.now.procedure site.number)) 0
            progress.old progress.new) }
    {
        let back = Atom::Unknown(back);
        self.add_turn(site.at, site.number, back, &mut progress.constraints)?;
        Ok(())
    }

    // Has the handlers of a `try` take their exceptions.
    pub(crate) fn begin_try(
        &self,
        handlers: &[Handler],
        exit_unknowns: ExitUnknowns,
        progress: &mut Progress,
    ) -> Result<Tried, AllocError>
        requires inside { AreHandledInside handlers.now progress.old.thrown.items }
        requires room { MayMakeUnknowns (length handlers.now) progress.old }
        requires deep { exit_unknowns.level < progress.old.number }
        ensures { IfOk result (λ tried. IsTried exit_unknowns handlers.now
            progress.old progress.new tried) }
    {
        let first = progress.make(handlers.len());
        let inner = exit_unknowns.in_try();
        let mut saved = Vec::new(self.alloc);
        take_handled(
            handlers,
            first,
            inner.level,
            &mut progress.thrown,
            &mut saved,
        )?;
        progress
            .journal
            .note_exceptions(handlers, &progress.thrown)?;
        let numbers = numbers_of(self.alloc, handlers, &progress.thrown)?;
        Ok(Tried {
            exit_unknowns: inner,
            numbers,
            saved,
        })
    }

    // Walks past a call.
    #[inline(never)]
    pub(crate) fn walk_call(
        &self,
        site: CallSite,
        arguments: &[Expression],
        context: Context,
        progress: &mut Progress,
    ) -> Result<(), AllocError>
        requires { MayMakeUnknowns 1 progress.old }
        ensures { OnOk result (IsWalkedBy self.now context.entry.pc
            context.entry.exit_unknowns.now []
            (λ (named : NamedAtom). call_constraints (scope_in self.now) named
            (exit_unknowns_of context.entry.exit_unknowns.now progress.old.thrown.items)
            progress.old.number
            site.at site.callee (map expression_of arguments.now) site.target) 1
            progress.old progress.new) }
    {
        let number = progress.make(1);
        let around = context.around(&progress.thrown);
        self.add_call(site, arguments, number, &around, &mut progress.constraints)?;
        let barrier = context.exit_unknowns.ends.raised;
        progress.journal.add_call(site.callee, barrier, number)?;
        Ok(())
    }
}
