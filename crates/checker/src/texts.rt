//! Checking two texts by their bytes: that of a hierarchy, and that of a source under it.

ghost use Rattle.acceptance.specs.Accepted.{HasHierarchy, IsText, StandFor};
ghost use Rattle.checker.specs.Checked.{least_label};
ghost use Rattle.checker.specs.Read.{IsOfNoFlow, IsUnread};
ghost use Rattle.checker.specs.Reported.{HasFlow, HasNoHierarchy, IsFirstFault, IsHierarchyFault, StandForNone, TextsAskForFlow};
ghost use Rattle.common.specs.Answers.{IfRefused};
ghost use Rattle.isolation.specs.Larger.{IsolatedUnderLarger};
ghost use Rattle.resolved.specs.CoreOf.{program_of};
ghost use Rattle.resolved.specs.Flow.{AreLeast};
ghost use Rattle.resolved.specs.Isolated.{Isolated};
ghost use Rattle.std.specs.Prelude.{IfErr, IfOk, IfSome, List, OnOk, ℕ, ◌≡◌};

use crate::checked::Checked;
use crate::fault::{Fault, refusal_at};
use crate::phases::check;
use acceptance::laws::one_verdict;
use acceptance::{RefusalKind, Text};
use common::OrNoMemory;
use common::limits::MAX_TEXT;
use principals::Hierarchy;
use principals::laws::one_reading;
use std::alloc::Global;

/// Checks a source under a hierarchy text. The bytes of the hierarchy are read first: their length, whether they are UTF-8, and the
/// hierarchy of the text. The bytes of the source are then read likewise, and its text goes through all phases of [`check`].
///
/// # Errors
///
/// The first fault of the two texts, at its line and column, with the flow where one is not allowed; or out of memory.
pub fn check_texts(alloc: Global, hierarchy: &[u8], source: &[u8]) -> Result<Checked, Fault>
    // The two texts stand for the program, which is isolated, also under every hierarchy that contains its own; the labels of its
    // locals and loops are the least.
    ensures accepted { IfOk result (λ checked.
        StandFor hierarchy.now source.now (program_of checked.core)) }
    ensures isolated { IfOk result (λ checked. Isolated (program_of checked.core)) }
    ensures larger { IfOk result (λ checked. IsolatedUnderLarger (program_of checked.core)) }
    ensures least { IfOk result (λ checked.
        AreLeast (program_of checked.core) (least_label checked)) }

    // A refusal is the first fault of the two texts, which stand for no program.
    ensures first_fault { IfErr result (IfRefused (IsFirstFault hierarchy.now source.now)) }
    ensures rejected { IfErr result (IfRefused (λ _. StandForNone hierarchy.now source.now)) }

    // There is a flow exactly where one is not allowed, and it is the one that the source asks for.
    ensures flow { IfErr result (IfRefused HasFlow) }
    ensures asked { IfErr result (IfRefused (λ refusal. IfSome refusal.flow
        (TextsAskForFlow hierarchy.now source.now refusal))) }
{
    one_verdict();
    let principals = read_hierarchy(alloc, hierarchy)?;
    let text = text_of(Text::Source, source)?;
    let checked = check(alloc, &principals, text)?;
    Ok(checked)
}

/// The hierarchy of a text, by its bytes, which are read as those of the first text of [`check_texts`].
///
/// # Errors
///
/// Why the text has no hierarchy, at its line and column; or out of memory.
pub fn read_hierarchy(alloc: Global, bytes: &[u8]) -> Result<Hierarchy, Fault>
    ensures has { IfOk result (HasHierarchy bytes.now) }
    ensures refused { IfErr result (IfRefused (IsHierarchyFault bytes.now)) }
    ensures rejected { IfErr result (IfRefused (λ _. HasNoHierarchy bytes.now)) }
    ensures first_fault { (source : List ℕ) →
        IfErr result (IfRefused (IsFirstFault bytes.now source)) }
    ensures no_flow { IfErr result (IfRefused IsOfNoFlow) }
{
    one_reading();
    let text = text_of(Text::Hierarchy, bytes)?;
    match Hierarchy::read(alloc, text) {
        Ok(principals) => Ok(principals),
        Err(OrNoMemory::NoMemory) => Err(OrNoMemory::NoMemory),
        Err(OrNoMemory::Refused(refusal)) => {
            let kind = RefusalKind::Hierarchy(refusal.kind);
            let refused = refusal_at(Text::Hierarchy, bytes, kind, refusal.at, None);
            Err(OrNoMemory::Refused(refused))
        }
    }
}

// The text that the bytes of one of two texts are.
fn text_of(text: Text, bytes: &[u8]) -> Result<&str, Fault>
    ensures same { IfOk result (λ read. read.now ≡ bytes.now) }
    ensures text { OnOk result (IsText bytes.now) }
    ensures none { IfErr result (IfRefused (IsUnread text bytes.now)) }
{
    let kind = if bytes.len() > MAX_TEXT {
        RefusalKind::TextTooLong
    } else {
        match str::from_utf8(bytes) {
            Ok(read) => return Ok(read),
            Err(_) => RefusalKind::NotUtf8,
        }
    };
    Err(OrNoMemory::Refused(refusal_at(text, bytes, kind, 0, None)))
}
