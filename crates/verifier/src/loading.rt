//! From the bytes of a module file to a verified module.
ghost use Rattle.modules.specs.Contents.{ModuleContents};
ghost use Rattle.modules.specs.ByteFormat.{Spells};
ghost use Rattle.modules.specs.Format.{module_file};
ghost use Rattle.common.specs.Answers.{Answers, IfRefused};
ghost use Rattle.std.specs.Prelude.{◌≡◌, IfErr, IfOk, Some};
ghost use Rattle.verifier.specs.Refusals.{IsNotRefused};
ghost use Rattle.verifier.specs.Loaded.{CannotLoad, IsLoaded};
ghost use Rattle.verifier.specs.RefusalKinds.{load_message};
ghost use Rattle.verifier.specs.declared.loading.LoadRefusal.TheVariants.{Bytes, Code};

use crate::fault::CodeRefusal;
use crate::verified::{Verified, verify};
use bytecode::{FormatRefusal, decode};
use common::{Message, OrNoMemory, Reported};
use std::alloc::Global;
use std::error::Error;
use std::fmt;

/// Why bytes are not loaded.
#[derive(Clone, Copy, Debug, PartialEq, Eq)]
pub enum LoadRefusal {
    /// 801 to 806: the bytes spell no module.
    Bytes(FormatRefusal),
    /// 811 to 815: the module is refused for this in its code.
    Code(CodeRefusal),
}

impl Reported for LoadRefusal {
    ghost contents = { load_message };

    fn message(&self) -> Message {
        match self {
            LoadRefusal::Bytes(refusal) => refusal.kind.message(),
            LoadRefusal::Code(refusal) => refusal.kind.message(),
        }
    }
}

impl fmt::Display for LoadRefusal {
    ghost output = { λ refusal. Some (load_message refusal).words };

    fn fmt<W: fmt::Write>(&self, f: &mut fmt::Formatter<W>) -> fmt::Result {
        write!(f, "{}", self.words())
    }
}

impl Error for LoadRefusal {}

/// Why bytes were not loaded.
pub type LoadFault = OrNoMemory<LoadRefusal>;

impl From<FormatRefusal> for LoadRefusal {
    ghost from_gives = { λ refusal given. given ≡ Bytes refusal };

    fn from(refusal: FormatRefusal) -> LoadRefusal {
        LoadRefusal::Bytes(refusal)
    }
}

impl From<CodeRefusal> for LoadRefusal {
    ghost from_gives = { λ refusal given. given ≡ Code refusal };

    fn from(refusal: CodeRefusal) -> LoadRefusal {
        LoadRefusal::Code(refusal)
    }
}

/// The verified module that the bytes of a file spell.
///
/// The bytes are refused for what is wrong first in reading order, and a module that they spell for what is wrong first in
/// its code, as `decode` and `verify` have it.
pub fn load(alloc: Global, bytes: &[u8]) -> Result<Verified, LoadFault>
    ensures accepted { IfOk result (IsLoaded bytes.now) }
    ensures complete { (m : ModuleContents) → Spells module_file m bytes.now → IsNotRefused m →
        Answers (λ found. found ≡ m) (λ _. ⊥) result }
    ensures rejected { IfErr result (IfRefused (CannotLoad bytes.now)) }
{
    let module = decode(alloc, bytes).map_err(OrNoMemory::cast)?;
    verify(alloc, module).map_err(OrNoMemory::cast)
}
