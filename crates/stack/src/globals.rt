ghost use Rattle.modules.specs.Machine.{first_global};
ghost use Rattle.modules.specs.MachineParts.{slot_of};
ghost use Rattle.stack.specs.Globals.{HasPut};
ghost use Rattle.stack.specs.Slab.{cell_at, cell_in, cell_index_in, total, with_cell_at};
ghost use Rattle.std.specs.Prelude.{IfOk, OnOk, Some, is_some, length, map, ◌++◌, ◌<◌, ◌≡◌};

use crate::shape::{Shape, repeat};
use common::BaseType;
use modules::{Cell, Global as Variable, Slot};
use std::alloc::{AllocError, Global};
use std::marker::Model;

/// The globals of a run.
#[derive(Debug, Drop)]
pub struct Globals {
    shape: Shape,
    cells: Vec<Cell>,
}

impl Model for Globals {
    ghost use Rattle.common.specs.declared.value.Value.{Value as Cell};
    ghost use Rattle.stack.specs.Slab.{cut, total};
    ghost use Rattle.std.specs.Prelude.{List, length, ◌≤◌};

    ghost Value = { List (List Cell) };

    ghost view = { λ g. cut g.shape g.cells.items };

    ghost invariant = { λ g. total g.shape ≤ length g.cells.items };
}

impl Globals {
    /// Globals with their first values.
    pub fn new(alloc: Global, globals: &[Variable]) -> Result<Globals, AllocError>
        ensures { IfOk result (λ made. made ≡ map first_global globals.now) }
    {
        let mut slots = Vec::new(alloc);
        let mut cells = Vec::new(alloc);
        for global in globals {
            slots.push(slot_of(*global))?;
            add_first(&mut cells, *global)?;
        }
        let shape = Shape::of(alloc, &slots)?;
        Ok(Globals { shape, cells })
    }

    /// An element of a global, if it is there.
    pub fn element(&self, global: u32, index: usize) -> Option<Cell>
        ensures { result ≡ cell_in self.now global index }
    {
        let Some(cell_index) = self.shape.cell_index(global, index) else {
            return None;
        };
        Some(self.cells[cell_index])
    }

    /// Changes an element of a global, and answers whether it is there.
    pub fn set_element(&mut self, global: u32, index: usize, cell: Cell) -> bool
        ensures there { result ≡ is_some (cell_in self.old global index) }
        ensures after { HasPut result self.old global index cell self.new }
    {
        let Some(cell_index) = self.shape.cell_index(global, index) else {
            return false;
        };
        self.cells[cell_index] = cell;
        true
    }

    /// Where an element of a global stands among the values of all globals, if it is there.
    pub fn cell_index(&self, global: u32, index: usize) -> Option<usize>
        ensures { result ≡ cell_index_in (map length self.now) global index }
    {
        self.shape.cell_index(global, index)
    }

    /// How many values all globals have.
    pub fn count(&self) -> usize
        ensures { result ≡ total (map length self.now) }
    {
        self.shape.count()
    }

    /// The value at an index among those of all globals. Precondition: there is one.
    #[inline(always)]
    pub fn at(&self, cell_index: usize) -> Cell
        requires { cell_index < total (map length self.now) }
        ensures { cell_at self.now cell_index ≡ Some result }
    {
        self.cells[cell_index]
    }

    /// Changes the value at an index among those of all globals. Precondition: there is one.
    #[inline(always)]
    pub fn set_at(&mut self, cell_index: usize, value: Cell)
        requires { cell_index < total (map length self.old) }
        ensures { self.new ≡ with_cell_at self.old cell_index value }
    {
        self.cells[cell_index] = value;
    }
}

fn slot_of(global: Variable) -> Slot
    ensures { result ≡ slot_of global }
{
    match global {
        Variable::Int(_) => Slot::Scalar(BaseType::Int),
        Variable::Boolean(_) => Slot::Scalar(BaseType::Boolean),
        Variable::Array(kind, count) => Slot::Array(kind, count),
    }
}

// Adds the first cells of a global.
fn add_first(cells: &mut Vec<Cell>, global: Variable) -> Result<(), AllocError>
    ensures { OnOk result (cells.new.items ≡ cells.old.items ++ first_global global) }
{
    match global {
        Variable::Int(number) => cells.push(Cell::Int(number))?,
        Variable::Boolean(truth) => cells.push(Cell::Bool(truth))?,
        Variable::Array(kind, count) => repeat(cells, Cell::zero_of(kind), count as usize)?,
    }
    Ok(())
}
