//! The first constraint with a written right side that one written element breaks: it reaches the left side, and does not lie below
//! the right side.
ghost use Rattle.solver.specs.Broken.{AllRightsInside, FoundInside, RightsInside, broken_by, candidates, earliest, found_candidates, is_below, precedes};
ghost use Rattle.solver.specs.Reach.{row_of};
ghost use Rattle.solver.specs.declared.constraints.Atom.TheVariants.{Written};
ghost use Rattle.std.specs.Prelude.{[], length, ◌++◌, ◌<◌, ◌∷◌, ◌≡◌};

use crate::constraints::Atom;
use crate::edges::{Edge, Edges};
use crate::elements::WrittenElements;
use crate::search::Found;

/// A constraint that a written element breaks.
#[derive(Clone, Copy, Debug, PartialEq, Eq, Drop)]
pub struct Broken {
    /// The constraint, by its index, and its written right side.
    pub by: usize,
    pub to: u32,
    /// The written element that breaks it, and where it comes from, as for what was found.
    pub value: usize,
    pub parent: usize,
}

/// Whether a written element lies below another one.
pub fn leq<W: WrittenElements>(written: &W, value: usize, to: usize) -> bool
    requires value { value < length (W.elements written.now) }
    requires to { to < length (W.elements written.now) }
    ensures { result ≡ is_below (W.order written.now) (W.elements written.now) value to }
{
    written.keep_laws();
    // An element is not compared with itself, however great it is.
    value == to || written.leq(value, to)
}

// Whether a constraint stands before the one that was found so far.
fn comes_before(by: usize, best: &Option<Broken>) -> bool
    ensures { result ≡ precedes by best.now }
{
    match best {
        None => true,
        Some(broken) => by < broken.by,
    }
}

// The earlier of what was found so far and of the constraint of this edge, if the written element breaks it.
fn earlier_of_edge<W: WrittenElements>(
    written: &W,
    edge: Edge,
    value: usize,
    parent: usize,
    best: Option<Broken>,
) -> Option<Broken>
    requires value { value < length (W.elements written.now) }
    requires inside { RightsInside (length (W.elements written.now)) (edge ∷ []) }
    ensures { result ≡ earliest best (broken_by
        (is_below (W.order written.now) (W.elements written.now)) value parent edge.by edge.to) }
{
    let Atom::Written(to) = edge.to else {
        return best;
    };
    if leq(written, value, to as usize) {
        return best;
    }
    if !comes_before(edge.by, &best) {
        return best;
    }
    Some(Broken {
        by: edge.by,
        to,
        value,
        parent,
    })
}

// The same of all these edges.
fn earlier_of_edges<W: WrittenElements>(
    written: &W,
    edges: &[Edge],
    value: usize,
    parent: usize,
    best: Option<Broken>,
) -> Option<Broken>
    requires value { value < length (W.elements written.now) }
    requires inside { RightsInside (length (W.elements written.now)) edges.now }
    ensures { result ≡ earliest best (candidates
        (is_below (W.order written.now) (W.elements written.now)) value parent edges.now) }
{
    let mut best = best;
    for edge in edges {
        best = earlier_of_edge(written, *edge, value, parent, best);
    }
    best
}

/// The same of the edges from a written element and from all that it reaches.
pub fn earlier_of_value<W: WrittenElements>(
    written: &W,
    edges: &Edges,
    found: &[Found],
    value: usize,
    best: Option<Broken>,
) -> Option<Broken>
    requires value { value < length (W.elements written.now) }
    requires row { value < length edges.now.written }
    requires inside { AllRightsInside (length (W.elements written.now)) edges.now }
    requires found { FoundInside (length edges.now.unknown) found.now }
    ensures { result ≡ earliest best (candidates
        (is_below (W.order written.now) (W.elements written.now)) value 0
        (row_of edges.now (Written value))
        ++ found_candidates edges.now
        (is_below (W.order written.now) (W.elements written.now)) value 0 found.now) }
{
    let row = edges.written.row(value);
    let mut best = earlier_of_edges(written, row, value, 0, best);
    for (k, step) in found.iter().enumerate() {
        let row = edges.unknown.row(step.unknown as usize);
        best = earlier_of_edges(written, row, value, k + 1, best);
    }
    best
}
