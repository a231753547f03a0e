//! A procedure as the search for refusals looks at it.

ghost use Rattle.modules.specs.Code.{code_length};
ghost use Rattle.std.specs.Prelude.{◌<◌, ◌^◌, ◌≡◌};
ghost use Rattle.verifier.specs.Index.{index_of};
ghost use Rattle.verifier.specs.Search.{IsSearchableBody};

use crate::index::Index;
use crate::parameters::PackedModule;
use modules::Procedure;

/// A procedure of a module, and the index of its code.
#[derive(Clone, Copy)]
pub(crate) struct IndexedProcedure<'a> {
    pub program: &'a PackedModule,
    pub procedure: &'a Procedure,
    pub index: &'a Index,
}

impl<'a> IndexedProcedure<'a> {
    /// A procedure whose code has less than 4 GiB, with its index.
    pub(crate) fn new(
        program: &'a PackedModule,
        procedure: &'a Procedure,
        index: &'a Index,
    ) -> IndexedProcedure<'a>
        requires short { code_length procedure.now.code < 2 ^ 32 }
        requires index { index.now ≡ index_of procedure.now.code }
        ensures body { IsSearchableBody result }
        ensures program { result.program.now ≡ program.now }
        ensures procedure { result.procedure.now ≡ procedure.now }
    {
        IndexedProcedure {
            program,
            procedure,
            index,
        }
    }
}
