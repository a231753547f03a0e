//! Laws of layout.
ghost use Rattle.layout.specs.SameRuns.{LayoutKeepsRuns};

/// The module that a graph is laid out as runs as the graph does, on every world and for every number
/// of steps: it sends the same, ends the same, and is stuck exactly where the graph is.
pub fn layout_keeps_runs()
    ensures { LayoutKeepsRuns }
{}
