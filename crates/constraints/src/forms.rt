//! The parts of those statements that have many.
ghost use Rattle.resolved.specs.declared.target.Target.TheVariants.{ToChannel, ToVariable};
ghost use Rattle.solver.specs.declared.rule.Rule.TheVariants.{Assignment, Send};
ghost use Rattle.std.specs.Prelude.{◌≡◌};

use resolved::expression::Variable;
use resolved::target::Target;
use solver::Rule;

/// What a rule demands at a byte: that a label flows to that of the target.
#[derive(Clone, Copy, Debug)]
pub struct Demand {
    pub at: usize,
    pub rule: Rule,
    pub target: Target,
}

impl Demand {
    /// What is demanded of a value that is assigned in this procedure.
    pub fn of_assignment(at: usize, procedure: u32, variable: Variable) -> Demand
        ensures { result
            ≡ record { at = at; rule = Assignment; target = ToVariable procedure variable } }
    {
        Demand {
            at,
            rule: Rule::Assignment,
            target: Target::ToVariable(procedure, variable),
        }
    }

    /// What is demanded of a value that is sent.
    pub fn of_send(at: usize, channel: u32) -> Demand
        ensures { result ≡ record { at = at; rule = Send; target = ToChannel channel } }
    {
        Demand {
            at,
            rule: Rule::Send,
            target: Target::ToChannel(channel),
        }
    }
}

/// A store at a byte into an array of this length.
#[derive(Clone, Copy, Debug)]
pub struct ArrayStore {
    pub at: usize,
    pub array: Variable,
    pub length: u32,
}

impl ArrayStore {
    pub fn new(at: usize, array: Variable, length: u32) -> ArrayStore
        ensures { result ≡ record { at = at; array = array; length = length } }
    {
        ArrayStore { at, array, length }
    }
}

/// A call at a byte, whose value the target gets, if there is one.
#[derive(Clone, Copy, Debug)]
pub struct CallSite {
    pub at: usize,
    pub callee: u32,
    pub target: Option<Variable>,
}

impl CallSite {
    pub fn new(at: usize, callee: u32, target: Option<Variable>) -> CallSite
        ensures { result ≡ record { at = at; callee = callee; target = target } }
    {
        CallSite { at, callee, target }
    }
}

/// A loop at a byte, with its number among those of its procedure.
#[derive(Clone, Copy, Debug)]
pub struct LoopSite {
    pub at: usize,
    pub number: u32,
}

impl LoopSite {
    pub fn new(at: usize, number: u32) -> LoopSite
        ensures { result ≡ record { at = at; number = number } }
    {
        LoopSite { at, number }
    }
}
