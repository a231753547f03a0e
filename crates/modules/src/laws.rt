//! Laws of the spelling of instructions, and of modules under their own hierarchy.

ghost use Rattle.labels.specs.Sent.{pairs_for};
ghost use Rattle.common.specs.declared.sent.Pair.{Pair};
ghost use Rattle.modules.specs.Contents.{ModuleContents};
ghost use Rattle.modules.specs.ByteFormat.{Fits, IsCoded};
ghost use Rattle.modules.specs.Format.{module_file};
ghost use Rattle.modules.specs.Isolated.{IsIsolated, StaysIsolated, ViewsAreIsolated, channel_label, channel_label_under, module_view};
ghost use Rattle.modules.specs.Machine.{after_steps};
ghost use Rattle.modules.specs.Opcodes.{HasCodeOf, HasSpelling, instructions};
ghost use Rattle.modules.specs.declared.instruction.Instruction.{Instruction};
ghost use Rattle.modules.specs.declared.version.Version.TheVariants.{Two};
ghost use Rattle.modules.specs.declared.version.Version.{Version};
ghost use Rattle.principals.specs.ActsFor.{IsHierarchy, PrincipalHierarchy};
ghost use Rattle.std.specs.Prelude.{All, List, ℕ, ℤ, ◌↔◌, ◌≡◌};

/// Each instruction that a version has and whose operand fits has a spelling there: its opcode is a byte, which is followed by as
/// many bytes as its operand has, and the two spell that instruction again. No other instruction is spelled so.
pub fn instructions_are_spelled()
    ensures spelled { (version : Version) (instruction : Instruction)
        → HasSpelling version instruction → IsCoded (instructions version) instruction }
    ensures none { (version : Version) (instruction : Instruction)
        → IsCoded (instructions version) instruction → HasSpelling version instruction }
{}

/// A module that has a spelling has instructions of its version alone.
pub fn modules_have_instructions_of_their_version()
    ensures { (m : ModuleContents) → Fits module_file m
        → All (λ procedure. HasCodeOf m.version procedure.code) m.procedures }
{}

/// The version of a module says which instructions there are, and nothing else: a module that has a spelling has one as a file of the
/// last version too, and runs are the same in each.
pub fn versions_keep_modules()
    ensures spelled { (m : ModuleContents) → Fits module_file m →
        Fits module_file (record m { version = Two }) }
    ensures runs { (m : ModuleContents) (version : Version) (world : ℕ → List ℤ) (n : ℕ) →
        after_steps (record m { version = version }) world n ≡ after_steps m world n }
{}

/// A module that has a spelling has a hierarchy. Under that hierarchy of its own its channels have the labels that are written, and
/// a principal sees what it may read by these; it is isolated there if it stays isolated.
pub fn labels_are_those_written()
    ensures hierarchy { (m : ModuleContents) → Fits module_file m → IsHierarchy m.hierarchy }
    ensures labels { (m : ModuleContents) → Fits module_file m → (k : ℕ) →
        channel_label_under m.hierarchy m k ≡ channel_label m k }
    ensures views { (m : ModuleContents) → Fits module_file m → (p : ℕ) (sent : List Pair) →
        module_view m.hierarchy m p sent ≡ pairs_for m.hierarchy (channel_label m) p sent }
    ensures isolated { (m : ModuleContents) → Fits module_file m → StaysIsolated m →
        IsIsolated m.hierarchy m }
{}

/// A module is isolated under a hierarchy exactly where its views are.
pub fn isolated_by_views()
    ensures { (h : PrincipalHierarchy) (m : ModuleContents) → IsIsolated h m ↔ ViewsAreIsolated h m }
{}
