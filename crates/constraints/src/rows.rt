//! The parts of constraints that stand for the labels of a procedure.
use solver::Atom;

/// The label of an exception that a procedure declares.
#[derive(Clone, Copy, Debug, PartialEq, Eq, Drop)]
pub struct ThrownLabel {
    pub exception: u32,
    pub label: Atom,
}

/// The labels of a procedure. A slot without a written label is an unknown, and so is each loop: those of the loops are this many, with
/// the numbers from `loops` on.
#[derive(Drop)]
pub struct ProcedureLabels {
    pub begin: Atom,
    pub end: Atom,
    pub value: Atom,
    pub slots: Vec<Atom>,
    pub throws: Vec<ThrownLabel>,
    pub loops: u32,
    pub loop_count: u32,
}
