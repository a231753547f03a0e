//! Programs whose targets are positions.
ghost use Rattle.modules.specs.ContentsOf.{contents_of};
ghost use Rattle.layout.specs.Graph.{IsGraph};
ghost use Rattle.std.specs.Prelude.{◌≡◌};

use modules::Contents;
use std::marker::Model;

/// A program of the virtual machine before it is laid out. It contains what a module does, except that
/// targets are positions and not byte offsets: the number of an instruction in its procedure's code,
/// from 0 on. The range and the target of a handler are positions too.
///
/// Each target is a position of the code, no handler's range is empty or ends after the code, and the
/// numbers, names and lists are within the limits of the module file, whose version has each
/// instruction.
#[derive(Debug, Drop)]
pub struct Graph {
    contents: Contents,
}

impl Model for Graph {
    ghost use Rattle.modules.specs.Contents.{ModuleContents};
    ghost use Rattle.modules.specs.ContentsOf.{contents_of};
    ghost use Rattle.layout.specs.Graph.{IsGraph};

    ghost Value = { ModuleContents };

    ghost view = { λ graph. contents_of graph.contents };

    ghost invariant = { λ graph. IsGraph (contents_of graph.contents) };
}

impl Graph {
    /// The graph of these contents.
    ///
    /// Precondition: the targets are positions, everything is within the limits of the module file, and
    /// its version has each instruction.
    pub fn new(contents: Contents) -> Graph
        requires { IsGraph (contents_of contents) }
        ensures { result ≡ contents_of contents }
    {
        Graph { contents }
    }

    /// What the graph contains.
    pub fn contents(&self) -> &Contents
        ensures contents { contents_of result.now ≡ self.now }
        ensures graph { IsGraph self.now }
    {
        &self.contents
    }
}
