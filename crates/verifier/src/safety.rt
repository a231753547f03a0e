//! Laws: what it means that a module's code is refused, or not.

ghost use Rattle.modules.specs.Contents.{ModuleContents};
ghost use Rattle.modules.specs.ByteFormat.{Fits};
ghost use Rattle.modules.specs.Format.{module_file};
ghost use Rattle.verifier.specs.Depth.{IsNeverDeeper};
ghost use Rattle.verifier.specs.Refusals.{IsNotRefused, IsCodeRefusal};
ghost use Rattle.verifier.specs.Positions.{ReadsAsCode};
ghost use Rattle.verifier.specs.Safety.{IsNeverStuck};
ghost use Rattle.verifier.specs.declared.fault.CodeRefusal.{CodeRefusal};

/// No run of a module that is not refused is ever stuck, whatever the world gives.
pub fn modules_that_no_rule_refuses_are_never_stuck()
    ensures { (m : ModuleContents) → Fits module_file m → IsNotRefused m → IsNeverStuck m }
{}

/// A module that is refused breaks a rule of its code.
pub fn refused_modules_break_a_rule()
    ensures { (m : ModuleContents) (refusal : CodeRefusal) → IsCodeRefusal m refusal →
        IsNotRefused m → ⊥ }
{}

/// No frame of a run of a module that is not refused ever has more operands than the greatest depth of its procedure.
pub fn frames_stay_within_their_depth()
    ensures { (m : ModuleContents) → Fits module_file m → IsNotRefused m → IsNeverDeeper m }
{}

/// The code with positions as targets of a module that is not refused is the module's code: renaming each position to the offset of
/// its instruction gives it.
pub fn positions_stand_for_their_offsets()
    ensures { (m : ModuleContents) → IsNotRefused m → ReadsAsCode m }
{}
