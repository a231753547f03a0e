//! The search for a refusal of the flow of operands: from the start along each edge, one list of kinds for each offset.

ghost use Rattle.modules.specs.Code.{code_length, instruction_at, offset_at};
ghost use Rattle.modules.specs.Contents.{ModuleContents, ProcedureContents};
ghost use Rattle.modules.specs.declared.declaration.Handler.{Handler};
ghost use Rattle.common.specs.declared.base_type.BaseType.{BaseType};
ghost use Rattle.common.specs.Answers.{IfRefused};
ghost use Rattle.common.specs.declared.fault.OrNoMemory.TheVariants.{Refused};
ghost use Rattle.std.specs.List.{Contains};
ghost use Rattle.std.specs.Prelude.{List, None, Some, false, is_some, replicate, set, slice_get, true, ℕ, [], ◌≡◌, ◌+◌, ◌<◌, ◌≤◌, ◌^◌, ◌∷◌, IfErr, IfNone, IfOk, OnOk, length};
ghost use Rattle.modules.specs.Targets as targets;
ghost use Rattle.verifier.specs.Flow.{FlowsWell};
ghost use Rattle.verifier.specs.Depth.{IsGreatestDepth};
ghost use Rattle.verifier.specs.Operands.{IsLonger, StartsWithEmpty, list_of};
ghost use Rattle.verifier.specs.Boundaries.{IsBoundary, KeepsBoundaries};
ghost use Rattle.verifier.specs.Positions.{positioned};
ghost use Rattle.verifier.specs.SignatureParts.{next_of};
ghost use Rattle.verifier.specs.Work.{listed_at};
ghost use Rattle.verifier.specs.Search.{jump_of, Flowed, HasEffect, HasInstruction, HasLeft, IsApplied, IsAtEdge, IsLengthened, IsSearchableBody, IsListed, IsSearchingNext, IsSearching, IsOperandFlowRefusal, IsWaiting, IsRaising, HasRaised, StandsAt, count, left, table, waiting};

use crate::body::IndexedProcedure;
use crate::coverage::Coverage;
use crate::effects::exchange;
use crate::fault::CodeRefusalKind;
use crate::numbers::Numbers;
use crate::operands::Operands;
use crate::work::{ListedOffset, Work};
use common::{BaseType, OrNoMemory};
use modules::Instruction;
use std::alloc::{AllocError, Global};

/// A refusal of a procedure for its flow: what is wrong, and the offset where.
#[derive(Clone, Copy, Debug, PartialEq, Eq)]
pub(crate) struct FlowRefusal {
    pub kind: CodeRefusalKind,
    pub offset: u32,
}

/// Why a search gave no answer.
pub(crate) type FlowFault = OrNoMemory<FlowRefusal>;

/// The refusal of a procedure at an offset.
fn refuse(kind: CodeRefusalKind, offset: u32) -> FlowFault
    ensures { result ≡ Refused (record { kind = kind; offset = offset }) }
{
    OrNoMemory::Refused(FlowRefusal { kind, offset })
}

// The number of the instruction that begins at an offset, and how many there are where the code ends.
fn number_at(body: &IndexedProcedure, to: u32) -> usize
    requires body { IsSearchableBody body.now }
    requires boundary { IsBoundary body.now.procedure.now to }
    ensures { StandsAt body.now.procedure.now result to }
{
    match body.index.number(to as usize) {
        Some(number) => number as usize,
        None => body.procedure.code().len(),
    }
}

// The number of the instruction that is the target of one, in code with positions as targets.
fn target_in(placed: &[Instruction], number: u32) -> usize
    requires { is_some (jump_of (slice_get placed.now number)) ≡ true }
    ensures { jump_of (slice_get placed.now number) ≡ Some result }
{
    match placed[number as usize].target() {
        Some(position) => position as usize,
        None => unreachable!(),
    }
}

/// What an instruction leaves: the list when it has popped and pushed, and after how many bytes control goes on, if it goes on to the next
/// instruction.
#[derive(Clone, Copy)]
pub(crate) struct Leaving {
    pub list: u32,
    pub next: Option<u32>,
}

/// The lists of the offsets that control reaches, and the offsets that are still to be looked at.
#[derive(Drop)]
pub(crate) struct ReachedOffsets {
    operands: Operands,
    // The number of the list of each instruction that has one.
    shapes: Numbers,
    work: Work,
    // The longest list that control reached, and how many operands it has.
    longest: u32,
    deepest: u32,
}

impl ReachedOffsets {
    /// A search that has not begun.
    pub(crate) fn new(alloc: Global) -> Result<ReachedOffsets, AllocError>
        ensures { IfOk result (λ search. search.operands ≡ [] ∷ []) }
    {
        let operands = Operands::new(alloc)?;
        let shapes = Numbers::new(alloc, 0)?;
        let work = Work::new(alloc)?;
        Ok(ReachedOffsets {
            operands,
            shapes,
            work,
            longest: 0,
            deepest: 0,
        })
    }

    // A search that has not begun, for this many instructions. Lists that were made for others are kept.
    fn restart(&mut self, count: usize) -> Result<(), AllocError>
        requires some { 0 < count }
        requires few { count < 2 ^ 32 }
        ensures lists { OnOk result (StartsWithEmpty self.new.operands) }
        ensures room { OnOk result (length self.new.operands + count ≤ 2 ^ 32) }
        ensures shapes { OnOk result (self.new.shapes ≡ set (replicate count None) 0 (Some 0)) }
        ensures work { OnOk result (self.new.work ≡ listed_at 0 0 0 ∷ []) }
        ensures longest { OnOk result (self.new.longest ≡ 0) }
        ensures deepest { OnOk result (self.new.deepest ≡ 0) }
    {
        self.operands.restart(count);
        self.shapes.restart(count)?;
        self.shapes.set(0, 0);
        self.work.restart()?;
        self.longest = 0;
        self.deepest = 0;
        Ok(())
    }

    // Control goes from an offset to another one with a list, to the instruction of a number, or to the end. Answers whether it is the
    // first there; then that offset is still to be looked at.
    fn arrive(
        &mut self,
        body: &IndexedProcedure,
        at: u32,
        to: u32,
        number: usize,
        list: u32,
    ) -> Result<bool, FlowFault>
        requires searching { IsSearching body.now.program.now body.now.procedure.now self.old
            (at ∷ []) }
        requires edge { IsAtEdge body.now.program.now body.now.procedure.now self.old at to
            (list_of self.old.operands list) }
        requires list { list < length self.old.operands }
        requires deep { length (list_of self.old.operands list) ≤ self.old.deepest }
        requires place { StandsAt body.now.procedure.now number to }
        requires room { length self.old.operands + left self.old ≤ 2 ^ 32 }
        ensures first { IfOk result (λ first. first ≡ true → Flowed body.now.program.now
            body.now.procedure.now self.old (waiting self.new (listed_at to number list)) at to
            list) }
        ensures other { IfOk result (λ first. first ≡ false → Flowed body.now.program.now
            body.now.procedure.now self.old self.new at to list) }
        ensures rejected { IfErr result (IfRefused
            (IsOperandFlowRefusal body.now.program.now body.now.procedure.now)) }
    {
        if number >= self.shapes.len() {
            return Err(refuse(CodeRefusalKind::FallsOffEnd, to));
        }
        match self.shapes.at(number) {
            None => {
                self.shapes.set(number, list);
                Ok(true)
            }
            Some(other) => match self.operands.meet(list, other) {
                Ok(()) => Ok(false),
                Err(kind) => Err(refuse(kind, to)),
            },
        }
    }

    // Control goes from an offset to another one with a list, and that one waits if control is the first there. It is inlined, so that
    // where no control goes nothing is answered through memory.
    #[inline(always)]
    fn reach(
        &mut self,
        body: &IndexedProcedure,
        at: u32,
        to: u32,
        number: usize,
        list: u32,
    ) -> Result<(), FlowFault>
        requires searching { IsSearching body.now.program.now body.now.procedure.now self.old
            (at ∷ []) }
        requires edge { IsAtEdge body.now.program.now body.now.procedure.now self.old at to
            (list_of self.old.operands list) }
        requires list { list < length self.old.operands }
        requires deep { length (list_of self.old.operands list) ≤ self.old.deepest }
        requires place { StandsAt body.now.procedure.now number to }
        requires body { IsSearchableBody body.now }
        requires room { length self.old.operands + left self.old ≤ 2 ^ 32 }
        ensures accepted { OnOk result (Flowed body.now.program.now body.now.procedure.now self.old
            self.new at to list) }
        ensures rejected { IfErr result (IfRefused
            (IsOperandFlowRefusal body.now.program.now body.now.procedure.now)) }
    {
        if self.arrive(body, at, to, number, list)? {
            self.work.push(ListedOffset {
                at: to,
                number: number as u32,
                list,
            })?;
        }
        Ok(())
    }

    // The list with one more operand on it. It is noted if no list had as many operands.
    #[inline(always)]
    fn push(&mut self, list: u32, kind: BaseType) -> Result<u32, AllocError>
        requires there { list < length self.old.operands }
        requires room { length self.old.operands < 2 ^ 32 }
        ensures longer { OnOk result (IsLonger self.old.operands self.new.operands) }
        ensures few { OnOk result (length self.new.operands ≤ length self.old.operands + 1) }
        ensures there { IfOk result (λ r. r < length self.new.operands) }
        ensures made { IfOk result (λ r. list_of self.new.operands r
            ≡ kind ∷ list_of self.old.operands list) }
        ensures longest { OnOk result (IsLengthened self.old self.new
            (kind ∷ list_of self.old.operands list)) }
        ensures shapes { OnOk result (self.new.shapes ≡ self.old.shapes) }
        ensures work { OnOk result (self.new.work ≡ self.old.work) }
    {
        let above = self.operands.push(list, kind)?;
        let depth = self.operands.depth(list);
        if self.deepest <= depth {
            self.deepest = depth + 1;
            self.longest = above;
        }
        Ok(above)
    }

    // What an instruction at an offset leaves, once control went where the instruction jumps. What pushes does not jump. It is inlined, as
    // the two loops call it.
    #[inline(always)]
    fn apply(
        &mut self,
        body: &IndexedProcedure,
        placed: &[Instruction],
        listed: ListedOffset,
        instruction: Instruction,
    ) -> Result<Leaving, FlowFault>
        requires searching { IsSearching body.now.program.now body.now.procedure.now self.old
            (listed.at ∷ []) }
        requires listed { IsListed body.now.procedure.now self.old listed }
        requires instruction { instruction_at body.now.procedure.now.code listed.at
            ≡ Some instruction }
        requires placed { placed.now ≡ positioned body.now.procedure.now.code }
        requires boundaries { KeepsBoundaries body.now.procedure.now }
        requires body { IsSearchableBody body.now }
        requires room { length self.old.operands + left self.old < 2 ^ 32 }
        ensures accepted { OnOk result (IsApplied body.now.program.now body.now.procedure.now
            self.old self.new listed.at) }
        ensures there { IfOk result (λ r. r.list < length self.new.operands) }
        ensures deep { IfOk result (λ r. length (list_of self.new.operands r.list)
            ≤ self.new.deepest) }
        ensures effect { IfOk result (λ r. HasEffect body.now.program.now body.now.procedure.now
            self.new listed.at instruction (list_of self.new.operands r.list)) }
        ensures jumps { IfOk result (λ r. (to : ℕ) → targets.target_of instruction ≡ Some to →
            table body.now.procedure.now self.new to ≡ Some (list_of self.new.operands r.list)) }
        ensures next { IfOk result (λ r. r.next ≡ next_of instruction) }
        ensures rejected { IfErr result (IfRefused
            (IsOperandFlowRefusal body.now.program.now body.now.procedure.now)) }
    {
        match exchange(&self.operands, body, instruction, listed.list) {
            Err(kind) => Err(refuse(kind, listed.at)),
            Ok(exchanged) => match exchanged.pushes {
                Some(kind) => {
                    let list = self.push(exchanged.rest, kind)?;
                    Ok(Leaving {
                        list,
                        next: exchanged.next,
                    })
                }
                None => {
                    let list = exchanged.rest;
                    if let Some(to) = instruction.target() {
                        let number = target_in(placed, listed.number);
                        self.reach(body, listed.at, to, number, list)?;
                    }
                    Ok(Leaving {
                        list,
                        next: exchanged.next,
                    })
                }
            },
        }
    }

    // Control goes to each handler whose range holds the offset. Where it went before, it need not go again. A procedure without
    // handlers need not look for one.
    fn raise<const HANDLED: bool>(
        &mut self,
        body: &IndexedProcedure,
        coverage: &mut Coverage,
        at: u32,
    ) -> Result<(), FlowFault>
        requires raising { IsRaising body.now coverage.old self.old at }
        requires none { HANDLED ≡ false → body.now.procedure.now.handlers ≡ [] }
        ensures accepted { OnOk result (HasRaised body.now coverage.new self.old self.new at) }
        ensures rejected { IfErr result (IfRefused
            (IsOperandFlowRefusal body.now.program.now body.now.procedure.now)) }
    {
        if !HANDLED {
            return Ok(());
        }
        if coverage.may_cover(at) {
            self.catch(body, coverage, at)
        } else {
            Ok(())
        }
    }

    // The same where a handler may be there. It is inlined, so that nothing is answered through memory where none is.
    #[inline(always)]
    fn catch(
        &mut self,
        body: &IndexedProcedure,
        coverage: &mut Coverage,
        at: u32,
    ) -> Result<(), FlowFault>
        requires { IsRaising body.now coverage.old self.old at }
        ensures accepted { OnOk result (HasRaised body.now coverage.new self.old self.new at) }
        ensures rejected { IfErr result (IfRefused
            (IsOperandFlowRefusal body.now.program.now body.now.procedure.now)) }
    {
        self.enter_all(at, body, coverage)?;
        Ok(())
    }

    // The same. It is not inlined, so that the loop over instructions has all registers for itself.
    #[inline(never)]
    fn enter_all(
        &mut self,
        at: u32,
        body: &IndexedProcedure,
        coverage: &mut Coverage,
    ) -> Result<(), FlowFault>
        requires { IsRaising body.now coverage.old self.old at }
        ensures accepted { OnOk result (HasRaised body.now coverage.new self.old self.new at) }
        ensures rejected { IfErr result (IfRefused
            (IsOperandFlowRefusal body.now.program.now body.now.procedure.now)) }
    {
        while let Some(handler) = coverage.take(at) {
            self.reach(body, at, handler.target, number_at(body, handler.target), 0)?;
        }
        Ok(())
    }

    // Control goes on to the next instruction, where it may. All other edges were followed. Answers the offset of the next
    // instruction where control is the first there: it is to be looked at next.
    fn go_on(
        &mut self,
        body: &IndexedProcedure,
        at: u32,
        number: u32,
        leaving: Leaving,
    ) -> Result<Option<ListedOffset>, FlowFault>
        requires searching { IsSearching body.now.program.now body.now.procedure.now self.old
            (at ∷ []) }
        requires leaves { HasLeft body.now.program.now body.now.procedure.now self.old at
            leaving }
        requires list { leaving.list < length self.old.operands }
        requires deep { length (list_of self.old.operands leaving.list) ≤ self.old.deepest }
        requires number { offset_at body.now.procedure.now.code number ≡ at }
        requires caught { (h : Handler) → Contains body.now.procedure.now.handlers h →
            h.start ≤ at → at < h.end → table body.now.procedure.now self.old h.target ≡ Some [] }
        requires boundaries { KeepsBoundaries body.now.procedure.now }
        requires short { code_length body.now.procedure.now.code < 2 ^ 32 }
        requires room { length self.old.operands + left self.old ≤ 2 ^ 32 }
        ensures next { IfOk result (IsSearchingNext body.now.program.now body.now.procedure.now
            self.new) }
        ensures keeps { OnOk result ((offset : ℕ) (kinds : List BaseType) → table
            body.now.procedure.now self.old offset
            ≡ Some kinds → table body.now.procedure.now self.new offset ≡ Some kinds) }
        ensures same { OnOk result (self.new.operands ≡ self.old.operands) }
        ensures left { IfOk result (λ next. left self.new + count next ≤ left self.old) }
        ensures rejected { IfErr result (IfRefused
            (IsOperandFlowRefusal body.now.program.now body.now.procedure.now)) }
    {
        let Leaving { list, next } = leaving;
        let Some(width) = next else {
            return Ok(None);
        };
        let to = at + width;
        let number = number + 1;
        if self.arrive(body, at, to, number as usize, list)? {
            Ok(Some(ListedOffset {
                at: to,
                number,
                list,
            }))
        } else {
            Ok(None)
        }
    }

    // Looks at an offset: control goes on from it along each edge, first to handlers, so that nothing else has to be kept meanwhile.
    fn visit<const HANDLED: bool>(
        &mut self,
        body: &IndexedProcedure,
        placed: &[Instruction],
        coverage: &mut Coverage,
        listed: ListedOffset,
        instruction: Instruction,
    ) -> Result<Option<ListedOffset>, FlowFault>
        requires placed { placed.now ≡ positioned body.now.procedure.now.code }
        requires none { HANDLED ≡ false → body.now.procedure.now.handlers ≡ [] }
        requires searching { IsSearching body.now.program.now body.now.procedure.now self.old
            (listed.at ∷ []) }
        requires listed { IsListed body.now.procedure.now self.old listed }
        requires instruction { instruction_at body.now.procedure.now.code listed.at
            ≡ Some instruction }
        requires boundaries { KeepsBoundaries body.now.procedure.now }
        requires waiting { IsWaiting body.now.procedure.now coverage.old self.old }
        requires room { length self.old.operands + left self.old < 2 ^ 32 }
        requires body { IsSearchableBody body.now }
        ensures next { IfOk result (IsSearchingNext body.now.program.now body.now.procedure.now
            self.new) }
        ensures waiting { OnOk result (IsWaiting body.now.procedure.now coverage.new self.new) }
        ensures left { IfOk result (λ next. left self.new + count next ≤ left self.old) }
        ensures few { OnOk result (length self.new.operands ≤ length self.old.operands + 1) }
        ensures rejected { IfErr result (IfRefused
            (IsOperandFlowRefusal body.now.program.now body.now.procedure.now)) }
    {
        let ListedOffset {
            at,
            number,
            list: _,
        } = listed;
        self.raise::<HANDLED>(body, coverage, at)?;
        let leaving = self.apply(body, placed, listed, instruction)?;
        let next = self.go_on(body, at, number, leaving)?;
        Ok(next)
    }

    // Looks at an offset of the procedure's code.
    fn look<const HANDLED: bool>(
        &mut self,
        body: &IndexedProcedure,
        placed: &[Instruction],
        code: &[Instruction],
        coverage: &mut Coverage,
        listed: ListedOffset,
    ) -> Result<Option<ListedOffset>, FlowFault>
        requires placed { placed.now ≡ positioned body.now.procedure.now.code }
        requires none { HANDLED ≡ false → body.now.procedure.now.handlers ≡ [] }
        requires code { code.now ≡ body.now.procedure.now.code }
        requires searching { IsSearching body.now.program.now body.now.procedure.now self.old
            (listed.at ∷ []) }
        requires there { HasInstruction body.now.procedure.now self.old listed.at }
        requires listed { IsListed body.now.procedure.now self.old listed }
        requires boundaries { KeepsBoundaries body.now.procedure.now }
        requires waiting { IsWaiting body.now.procedure.now coverage.old self.old }
        requires body { IsSearchableBody body.now }
        requires room { length self.old.operands + left self.old < 2 ^ 32 }
        ensures next { IfOk result (IsSearchingNext body.now.program.now body.now.procedure.now
            self.new) }
        ensures waiting { OnOk result (IsWaiting body.now.procedure.now coverage.new self.new) }
        ensures left { IfOk result (λ next. left self.new + count next ≤ left self.old) }
        ensures few { OnOk result (length self.new.operands ≤ length self.old.operands + 1) }
        ensures rejected { IfErr result (IfRefused
            (IsOperandFlowRefusal body.now.program.now body.now.procedure.now)) }
    {
        let instruction = code[listed.number as usize];
        self.visit::<HANDLED>(body, placed, coverage, listed, instruction)
    }

    // What is to be looked at next: the offset to which control goes straight on, or else the one that came last of those that wait.
    fn take_next(&mut self, next: Option<ListedOffset>) -> Option<ListedOffset>
        ensures next { (m : ModuleContents) (p : ProcedureContents) → IsSearchingNext m p self.old next
            → IsSearchingNext m p self.new result }
        ensures none { IfNone result (self.new.work ≡ []) }
        ensures left { left self.new + count result ≤ left self.old + count next }
        ensures operands { self.new.operands ≡ self.old.operands }
        ensures shapes { self.new.shapes ≡ self.old.shapes }
        ensures longest { self.new.longest ≡ self.old.longest }
        ensures deepest { self.new.deepest ≡ self.old.deepest }
    {
        match next {
            Some(_) => next,
            None => self.work.pop(),
        }
    }

    // Looks at each offset that waits, and at those to which control goes straight on from there, until none waits. It is not inlined, so
    // that the loop has all registers for itself.
    #[inline(never)]
    fn run<const HANDLED: bool>(
        &mut self,
        body: &IndexedProcedure,
        placed: &[Instruction],
        coverage: &mut Coverage,
    ) -> Result<(), FlowFault>
        requires placed { placed.now ≡ positioned body.now.procedure.now.code }
        requires none { HANDLED ≡ false → body.now.procedure.now.handlers ≡ [] }
        requires searching { IsSearching body.now.program.now body.now.procedure.now self.old [] }
        requires boundaries { KeepsBoundaries body.now.procedure.now }
        requires waiting { IsWaiting body.now.procedure.now coverage.old self.old }
        requires body { IsSearchableBody body.now }
        requires room { length self.old.operands + left self.old ≤ 2 ^ 32 }
        ensures accepted { OnOk result (FlowsWell body.now.program.now body.now.procedure.now) }
        ensures longest { OnOk result (self.new.longest < length self.new.operands) }
        ensures depth { OnOk result (IsGreatestDepth body.now.program.now body.now.procedure.now
            (length (list_of self.new.operands self.new.longest))) }
        ensures rejected { IfErr result (IfRefused
            (IsOperandFlowRefusal body.now.program.now body.now.procedure.now)) }
    {
        let code = body.procedure.code();
        let mut next = self.take_next(None);
        while let Some(listed) = next {
            let after = self.look::<HANDLED>(body, placed, code, coverage, listed)?;
            next = self.take_next(after);
        }
        Ok(())
    }
}

/// The memory of searches, which is used again for each procedure.
#[derive(Drop)]
pub(crate) struct FlowSearch {
    reached: ReachedOffsets,
    coverage: Coverage,
}

impl FlowSearch {
    /// A search that has not begun.
    pub(crate) fn new(alloc: Global) -> Result<FlowSearch, AllocError> {
        Ok(FlowSearch {
            reached: ReachedOffsets::new(alloc)?,
            coverage: Coverage::new(alloc),
        })
    }

    /// Looks for a refusal of the flow of a procedure whose targets are right, and answers the greatest number of operands where
    /// there is none.
    pub(crate) fn find_refusal(
        &mut self,
        body: &IndexedProcedure,
        placed: &[Instruction],
    ) -> Result<u32, FlowFault>
        requires placed { placed.now ≡ positioned body.now.procedure.now.code }
        requires boundaries { KeepsBoundaries body.now.procedure.now }
        requires body { IsSearchableBody body.now }
        requires few { length body.now.procedure.now.handlers < 2 ^ 32 }
        ensures accepted { OnOk result (FlowsWell body.now.program.now body.now.procedure.now) }
        ensures depth { IfOk result (λ depth. IsGreatestDepth body.now.program.now
            body.now.procedure.now depth) }
        ensures rejected { IfErr result (IfRefused
            (IsOperandFlowRefusal body.now.program.now body.now.procedure.now)) }
    {
        let count = body.procedure.code().len();
        if count == 0 {
            return Err(refuse(CodeRefusalKind::FallsOffEnd, 0));
        }
        self.coverage.restart(body.procedure.handlers())?;
        self.reached.restart(count)?;
        if body.procedure.handlers().is_empty() {
            self.reached.run::<false>(body, placed, &mut self.coverage)?;
        } else {
            self.reached.run::<true>(body, placed, &mut self.coverage)?;
        }
        Ok(self.reached.operands.depth(self.reached.longest))
    }
}
