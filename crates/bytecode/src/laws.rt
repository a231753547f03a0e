//! Laws of the spelling of modules.

ghost use Rattle.modules.specs.Contents.{ModuleContents};
ghost use Rattle.bytecode.specs.Decoded.{first_refusal};
ghost use Rattle.modules.specs.ByteFormat.{Fits, read_all, spelled, Spells};
ghost use Rattle.modules.specs.Format.{module_file};
ghost use Rattle.modules.specs.declared.fault.ReadRefusal.{ReadRefusal};
ghost use Rattle.bytecode.specs.Laws.{BytesAreSpelledOrRefused};
ghost use Rattle.std.specs.Prelude.{length, List, None, ℕ, ◌++◌, ◌≡◌, ◌≤◌};

/// Each module has one spelling, and each spelling is that of one module.
pub fn one_spelling()
    ensures contents { (m n : ModuleContents) (bytes : List ℕ)
        → Spells module_file m bytes → Spells module_file n bytes → m ≡ n }
    ensures bytes { (m : ModuleContents) (a b : List ℕ)
        → Spells module_file m a → Spells module_file m b → a ≡ b }
    ensures each { (m : ModuleContents) → Fits module_file m →
        Spells module_file m (spelled module_file m) }
{}

/// No spelling is a prefix of another: where bytes that follow make them equal, they are equal.
pub fn no_spelling_is_a_prefix()
    ensures { (m n : ModuleContents) (a b more others : List ℕ)
        → Spells module_file m a → Spells module_file n b → a ++ more ≡ b ++ others
        → (m ≡ n) × (a ≡ b) }
{}

/// The spelling of a module is not refused.
pub fn spellings_are_not_refused()
    ensures { (m : ModuleContents) (bytes : List ℕ)
        → Spells module_file m bytes → first_refusal bytes ≡ None }
{}

/// Bytes that are not refused spell a module: each list of bytes has the one or the other, and by
/// [`spellings_are_not_refused`] not both.
pub fn bytes_are_spelled_or_refused()
    ensures { BytesAreSpelledOrRefused }
{}

/// A refusal stands inside the bytes or at their end.
pub fn refusals_stand_inside()
    ensures { (bytes : List ℕ) (stop : ReadRefusal)
        → read_all module_file bytes ≡ Err stop → stop.left ≤ length bytes }
{}
