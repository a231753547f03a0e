ghost use Rattle.modules.specs.ContentsOf.{contents_of};
ghost use Rattle.modules.specs.ByteFormat.{Fits};
ghost use Rattle.modules.specs.Format.{module_file};
ghost use Rattle.std.specs.Prelude.{map, ◌≡◌};
ghost use Rattle.std.specs.String.{string_bytes};

use crate::channel::Channel;
use crate::contents::Contents;
use crate::declaration::Global;
use crate::procedure::Procedure;
use crate::version::Version;
use principals::Hierarchy;
use std::marker::Model;

/// A module that has a spelling as bytes.
#[derive(Debug, Drop)]
pub struct Module {
    contents: Contents,
}

impl Model for Module {
    ghost use Rattle.modules.specs.Contents.{ModuleContents};
    ghost use Rattle.modules.specs.ContentsOf.{contents_of};
    ghost use Rattle.modules.specs.ByteFormat.{Fits};
    ghost use Rattle.modules.specs.Format.{module_file};

    ghost Value = { ModuleContents };

    ghost view = { λ m. contents_of m.contents };

    ghost invariant = { λ m. Fits module_file (contents_of m.contents) };
}

impl Module {
    /// The module of these contents.
    ///
    /// Precondition: they have a spelling.
    pub fn new(contents: Contents) -> Module
        requires { Fits module_file (contents_of contents) }
        ensures { result ≡ contents_of contents }
    {
        Module { contents }
    }

    /// The version of the module's file, which says what instructions there are.
    pub fn version(&self) -> Version
        ensures { result ≡ self.now.version }
    {
        self.contents.version
    }

    /// The principals, and who acts for whom.
    pub fn hierarchy(&self) -> &Hierarchy
        ensures hierarchy { result.now ≡ self.now.hierarchy }
        ensures spelled { Fits module_file self.now }
    {
        &self.contents.hierarchy
    }

    /// The names of the declared exceptions, which are numbered from 3.
    pub fn exceptions(&self) -> &[String]
        ensures { map (λ name. string_bytes name) result.now ≡ self.now.exceptions }
    {
        &self.contents.exceptions
    }

    /// The channels, in the order of their numbers.
    pub fn channels(&self) -> &[Channel]
        ensures { result.now ≡ self.now.channels }
    {
        &self.contents.channels
    }

    /// The globals, in the order of their numbers.
    pub fn globals(&self) -> &[Global]
        ensures { result.now ≡ self.now.globals }
    {
        &self.contents.globals
    }

    /// The procedures, in the order of their numbers.
    pub fn procedures(&self) -> &[Procedure]
        ensures procedures { result.now ≡ self.now.procedures }
        ensures spelled { Fits module_file self.now }
    {
        &self.contents.procedures
    }

    /// The number of the procedure where a run starts.
    pub fn main(&self) -> u32
        ensures { result ≡ self.now.main }
    {
        self.contents.main
    }
}
