//! How a constraint is added: one that stands for a demand, or an inner one.
ghost use Rattle.constraints.specs.ByTable.{scope_at, IsLeftBy, AreAddedBy, IsGatheredBy};
ghost use Rattle.constraints.specs.Added.{flow_if};
ghost use Rattle.constraints.specs.ExitUnknowns.{exit_unknowns_around};
ghost use Rattle.path_map.specs.Exceptions.{AreRaised};
ghost use Rattle.gathering.specs.Names.{NamedAtom};
ghost use Rattle.gathering.specs.Walk.{flow, inner_constraint, raised_flows, rule_constraint};
ghost use Rattle.solver.specs.Rule.{rule_number};
ghost use Rattle.std.specs.Prelude.{List, OnOk, [], ◌++◌, ◌<◌, ◌∷◌, ◌≡◌, ℕ};
ghost use Rattle.std.specs.Vec.{vec_capacity, vec_len};

use crate::around::Around;
use crate::lefts::left_of_pc;
use crate::table::Table;
use common::exceptions::{ARITH, BOUNDS};
use path_map::Raises;
use resolved::statement::Exit;
use resolved::target::Target;
use solver::{Atom, Constraint, Left, Rule};
use std::alloc::{AllocError, Global};

// Makes room for one more constraint. A full list grows to two and a half times its length, so that most are moved once at most.
#[inline(always)]
fn make_room(constraints: &mut Vec<Constraint<Option<Target>>>) -> Result<(), AllocError>
    ensures same { constraints.new.items ≡ constraints.old.items }
    ensures room { OnOk result (vec_len constraints.new < vec_capacity constraints.new) }
{
    if constraints.len() < constraints.capacity() {
        return Ok(());
    }
    let count = constraints.len();
    constraints.reserve(count.saturating_add(count / 2).max(1))
}

// Adds a constraint behind the others.
#[inline(always)]
fn add(
    constraint: Constraint<Option<Target>>,
    constraints: &mut Vec<Constraint<Option<Target>>>,
) -> Result<(), AllocError>
    ensures { OnOk result (constraints.new.items
        ≡ constraints.old.items ++ constraint ∷ []) }
{
    make_room(constraints)?;
    constraints.push_reserved(constraint);
    Ok(())
}

impl<'a> Table<'a> {
    /// Adds the constraint of a rule at this byte, whose right side is the label of the target.
    pub fn add_rule(
        &self,
        at: usize,
        rule: Rule,
        left: Left,
        target: Target,
        constraints: &mut Vec<Constraint<Option<Target>>>,
    ) -> Result<(), AllocError>
        ensures { OnOk result ((procedure : ℕ) (atoms : List NamedAtom) →
            IsLeftBy self.now atoms left.items →
            AreAddedBy self.now
            (rule_constraint (scope_at self.now procedure) at (rule_number rule) atoms target)
            constraints.old.items constraints.new.items) }
    {
        let right = self.part(target);
        let constraint = Constraint {
            at,
            rule,
            left,
            target: Some(target),
            right,
        };
        add(constraint, constraints)?;
        Ok(())
    }

    /// Adds the constraint whose right side is the inner unknown with this number.
    pub fn add_inner(
        &self,
        left: Left,
        number: u32,
        constraints: &mut Vec<Constraint<Option<Target>>>,
    ) -> Result<(), AllocError>
        ensures { OnOk result ((atoms : List NamedAtom) → IsLeftBy self.now atoms left.items →
            AreAddedBy self.now (inner_constraint atoms number)
            constraints.old.items constraints.new.items) }
    {
        let right = Atom::Unknown(number);
        let constraint = Constraint {
            at: 0,
            rule: Rule::Between,
            left,
            target: None,
            right,
        };
        add(constraint, constraints)?;
        Ok(())
    }

    /// Adds the flow of the pc alone to an exit unknown, where there is one.
    pub fn add_pc_flow(
        &self,
        alloc: Global,
        pc: Atom,
        exit_unknown: Option<u32>,
        constraints: &mut Vec<Constraint<Option<Target>>>,
    ) -> Result<(), AllocError>
        ensures { OnOk result (IsGatheredBy self.now pc
            (λ (named : NamedAtom). flow (named ∷ []) exit_unknown)
            constraints.old.items constraints.new.items) }
    {
        match exit_unknown {
            None => Ok(()),
            Some(number) => self.add_inner(left_of_pc(alloc, pc)?, number, constraints),
        }
    }

    /// Adds the flow to an exit unknown, where there is one.
    pub fn add_flow(
        &self,
        alloc: Global,
        left: &[Atom],
        exit_unknown: Option<u32>,
        constraints: &mut Vec<Constraint<Option<Target>>>,
    ) -> Result<(), AllocError>
        ensures { OnOk result ((atoms : List NamedAtom) → IsLeftBy self.now atoms left.now →
            AreAddedBy self.now (flow atoms exit_unknown)
            constraints.old.items constraints.new.items) }
    {
        match exit_unknown {
            None => Ok(()),
            Some(number) => self.add_inner(Left::from_slice(alloc, left)?, number, constraints),
        }
    }

    // Adds the flow to an exit unknown if a test holds.
    fn add_flow_if(
        &self,
        alloc: Global,
        test: bool,
        left: &[Atom],
        exit_unknown: Option<u32>,
        constraints: &mut Vec<Constraint<Option<Target>>>,
    ) -> Result<(), AllocError>
        ensures { OnOk result ((atoms : List NamedAtom) → IsLeftBy self.now atoms left.now →
            AreAddedBy self.now (flow_if test atoms exit_unknown)
            constraints.old.items constraints.new.items) }
    {
        if test {
            return self.add_flow(alloc, left, exit_unknown, constraints);
        }
        Ok(())
    }

    /// Adds the flows of the exceptions that expressions can raise, each once.
    pub fn add_raised(
        &self,
        alloc: Global,
        left: &[Atom],
        around: &Around,
        found: Raises,
        constraints: &mut Vec<Constraint<Option<Target>>>,
    ) -> Result<(), AllocError>
        ensures { OnOk result ((atoms : List NamedAtom) (exceptions : List ℕ) →
            IsLeftBy self.now atoms left.now → AreRaised found exceptions →
            AreAddedBy self.now (raised_flows atoms (exit_unknowns_around around.now) exceptions)
            constraints.old.items constraints.new.items) }
    {
        let arith = around.exit_unknown(Exit::Throw(ARITH));
        self.add_flow_if(alloc, found.arith, left, arith, constraints)?;
        let bounds = around.exit_unknown(Exit::Throw(BOUNDS));
        self.add_flow_if(alloc, found.bounds, left, bounds, constraints)?;
        Ok(())
    }
}
