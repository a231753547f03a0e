//! Why a source was not accepted.

ghost use Rattle.acceptance.specs.RefusalKinds.{refusal_message};
ghost use Rattle.checker.specs.Reported as reported;
ghost use Rattle.std.specs.Prelude.{Some, ◌≡◌};

use acceptance::{RefusalKind, Text};
use common::{OrNoMemory, Reported};
use labels::Policy;
use lexer::{Place, place};
use resolved::program::Core;
use resolved::target::Target;
use solver::Rule;
use std::error::Error;
use std::fmt;

/// A step of a flow chain.
#[derive(Clone, Copy, Debug, PartialEq, Eq)]
pub struct Step {
    /// The byte of what asks for it.
    pub at: usize,
    /// The rule of labels that asks for it.
    pub rule: Rule,
    /// What its value flows to.
    pub target: Target,
}

/// A flow that no labels of the locals allow.
#[derive(Drop)]
pub struct RefusedFlow {
    /// The program, in whose tables the targets are looked up.
    pub core: Core,
    /// The byte of the last step, where the flow arrives at a label that does not cover the policy.
    pub at: usize,
    /// The policy that flows there, of a written label.
    pub policy: Policy,
    /// The chain from that label, step by step. Steps to the label of a loop are left out.
    pub steps: Vec<Step>,
}

/// Why a source, or the hierarchy text before it, is refused: for this reason at this place of it.
#[derive(Drop)]
pub struct Refusal {
    pub text: Text,
    pub kind: RefusalKind,
    pub at: Place,
    /// The flow that is not allowed, where that is the reason.
    pub flow: Option<RefusedFlow>,
}

/// Why a check accepted no program.
pub type Fault = OrNoMemory<Refusal>;

impl fmt::Display for Refusal {
    ghost output = { λ refusal. Some (refusal_message refusal.kind).words };

    fn fmt<W: fmt::Write>(&self, f: &mut fmt::Formatter<W>) -> fmt::Result {
        write!(f, "{}", self.kind.words())
    }
}

// A flow is left out: the place says where it arrives.
impl fmt::Debug for Refusal {
    fn fmt<W: fmt::Write>(&self, f: &mut fmt::Formatter<W>) -> fmt::Result {
        write!(f, "{:?} {:?} {:?}", self.text, self.kind, self.at)
    }
}

impl Error for Refusal {}

/// The refusal of a text for a reason at one of its bytes, with the flow where one is not allowed.
pub(crate) fn refusal_at(
    text: Text,
    bytes: &[u8],
    kind: RefusalKind,
    at: usize,
    flow: Option<RefusedFlow>,
) -> Refusal
    ensures { result ≡ reported.refusal_at text bytes.now kind at flow }
{
    Refusal {
        text,
        kind,
        at: place(bytes, at),
        flow,
    }
}
