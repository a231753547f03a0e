//! A hierarchy out of its text.

ghost use Rattle.common.specs.Answers.{Answers, IfRefused};
ghost use Rattle.common.specs.declared.refusal.RefusalAt.{RefusalAt};
ghost use Rattle.principals.specs.ActsFor.{IsHierarchy, PrincipalHierarchy};
ghost use Rattle.principals.specs.HierarchyText.{HasBoundary, IsHierarchyOf, IsRefusedText};
ghost use Rattle.principals.specs.declared.fault.HierarchyRefusalKind.{HierarchyRefusalKind};
ghost use Rattle.std.specs.Prelude.{IfErr, IfOk, ◌≡◌};

use crate::Hierarchy;
use crate::declaring::hierarchy_of;
use crate::fault::{HierFault, HierarchyRefusal, HierarchyRefusalKind};
use crate::reading::read_statements;
use common::OrNoMemory;
use common::limits::MAX_TEXT;
use lexer::lex;
use std::alloc::Global;

impl Hierarchy {
    /// The hierarchy of a text, or the first refusal in it.
    ///
    /// The text is a list of items: `principal A, B;` declares principals, and `A actsfor B;` writes that `A` acts for `B`.
    /// The length of the text is tested first, then the form of the whole text, then the items in order. Each principal is
    /// declared once, before it is named in a pair; there are at most 256. Out of memory is reported only where memory ran out.
    pub fn read(alloc: Global, text: &str) -> Result<Hierarchy, HierFault>
        // At a hierarchy it is that of the text, and no text of a hierarchy is refused.
        ensures accepted { IfOk result (IsHierarchyOf text.now) }
        ensures complete { (hierarchy : PrincipalHierarchy) → IsHierarchyOf text.now hierarchy →
            Answers (λ found. found ≡ hierarchy) (λ _. ⊥) result }

        // A refusal is the first of the text, and no text with a refusal is read.
        ensures first_fault { IfErr result (IfRefused (IsRefusedText text.now)) }
        ensures refuses { (refusal : RefusalAt HierarchyRefusalKind) →
            IsRefusedText text.now refusal →
            Answers (λ _. ⊥) (λ found. found ≡ refusal) result }

        // The line and the column of a refusal can be found.
        ensures boundary { IfErr result (IfRefused (HasBoundary text.now)) }
    {
        read_text(alloc, text)
    }
}

/// What [`Hierarchy::read`] gives.
fn read_text(alloc: Global, text: &str) -> Result<Hierarchy, HierFault>
    ensures accepted { IfOk result (IsHierarchyOf text.now) }
    ensures kept { IfOk result IsHierarchy }
    ensures first_fault { IfErr result (IfRefused (IsRefusedText text.now)) }
{
    if text.len() > MAX_TEXT {
        let kind = HierarchyRefusalKind::TooLong;
        return Err(OrNoMemory::Refused(HierarchyRefusal { kind, at: 0 }));
    }
    let tokens = lex(alloc, text).map_err(OrNoMemory::cast_kind)?;
    let statements = read_statements(alloc, tokens.as_slice())?;
    hierarchy_of(alloc, statements.as_slice())
}
