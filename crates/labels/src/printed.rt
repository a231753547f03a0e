//! The printed form of a label under a hierarchy.
ghost use Rattle.labels.specs.Printed.{printed_label, printed_policy, printed_principal, printed_readers};
ghost use Rattle.principals.specs.ActsFor.{PrincipalHierarchy};
ghost use Rattle.std.specs.Fmt.{WritesOnOk};
ghost use Rattle.std.specs.List.{join_by};
ghost use Rattle.std.specs.Prelude.{List, Some, flat_map, ℕ, ◌++◌};

use crate::label_sets::Label;
use crate::policies::Policy;
use principals::Hierarchy;
use std::fmt;

/// A label to be printed as `{Alice: Bob, Carol; Bob:}`, with the names of a hierarchy. A number that is no principal of it is
/// printed in decimal.
#[derive(Clone, Copy)]
pub struct PrintedLabel<'a> {
    pub hierarchy: &'a Hierarchy,
    pub label: &'a Label,
}

impl fmt::Display for PrintedLabel<'_> {
    ghost output = { λ printed. Some (printed_label printed.hierarchy.now printed.label.now) };

    fn fmt<W: fmt::Write>(&self, f: &mut fmt::Formatter<W>) -> fmt::Result {
        write!(f, "{{")?;
        write_joined(f, self.hierarchy, "; ", self.label.policies())?;
        write!(f, "}}")
    }
}

// A part of a label: a policy, or a principal by its number.
trait LabelPart {
    ghost printed: { PrincipalHierarchy → Self → List ℕ };

    fn write_part<W: fmt::Write>(
        &self,
        f: &mut fmt::Formatter<W>,
        hierarchy: &Hierarchy,
    ) -> fmt::Result
        ensures { WritesOnOk W.write_str_gives f.old result (printed hierarchy.now self.now) f.new };
}

impl LabelPart for Policy {
    ghost printed = { λ hierarchy policy. printed_policy hierarchy policy };

    fn write_part<W: fmt::Write>(
        &self,
        f: &mut fmt::Formatter<W>,
        hierarchy: &Hierarchy,
    ) -> fmt::Result {
        self.owner().write_part(f, hierarchy)?;
        write!(f, ":")?;
        write_readers(f, hierarchy, self.readers())
    }
}

impl LabelPart for u32 {
    ghost printed = { λ hierarchy number. printed_principal hierarchy number };

    fn write_part<W: fmt::Write>(
        &self,
        f: &mut fmt::Formatter<W>,
        hierarchy: &Hierarchy,
    ) -> fmt::Result {
        let number = *self;
        match hierarchy.name(number) {
            Some(name) => write!(f, "{name}"),
            None => write!(f, "{number}"),
        }
    }
}

fn write_readers<W: fmt::Write>(
    f: &mut fmt::Formatter<W>,
    hierarchy: &Hierarchy,
    readers: &[u32],
) -> fmt::Result
    ensures { WritesOnOk W.write_str_gives f.old result (printed_readers hierarchy.now readers.now)
        f.new }
{
    match readers.split_first() {
        Some(_) => {
            write!(f, " ")?;
            write_joined(f, hierarchy, ", ", readers)
        }
        None => Ok(()),
    }
}

// Writes parts with a separator between them.
fn write_joined<W: fmt::Write, P: LabelPart>(
    f: &mut fmt::Formatter<W>,
    hierarchy: &Hierarchy,
    separator: &str,
    parts: &[P],
) -> fmt::Result
    ensures { WritesOnOk W.write_str_gives f.old result
        (join_by (P.printed hierarchy.now) separator.now parts.now) f.new }
{
    match parts.split_first() {
        Some((first, others)) => {
            first.write_part(f, hierarchy)?;
            write_later(f, hierarchy, separator, others)
        }
        None => Ok(()),
    }
}

// Writes parts with a separator before each.
fn write_later<W: fmt::Write, P: LabelPart>(
    f: &mut fmt::Formatter<W>,
    hierarchy: &Hierarchy,
    separator: &str,
    parts: &[P],
) -> fmt::Result
    ensures { WritesOnOk W.write_str_gives f.old result
        (flat_map (λ part. separator.now ++ P.printed hierarchy.now part) parts.now) f.new }
{
    for part in parts {
        write!(f, "{separator}")?;
        part.write_part(f, hierarchy)?;
    }
    Ok(())
}
