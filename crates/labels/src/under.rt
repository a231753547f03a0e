//! Labels under a hierarchy, compared by the labels that they name and policy by policy.
ghost use Rattle.labels.specs.Comparing.{AllFlow};
ghost use Rattle.labels.specs.Under.{FirstAbove};
ghost use Rattle.labels.specs.Entries.{IsTable, labels_in};
ghost use Rattle.labels.specs.Label.{FlowsTo, ReaderPolicy, flows};
ghost use Rattle.labels.specs.LabelTable.{label_at};
ghost use Rattle.std.specs.Prelude.{Contains, IsTrue, length, ◌<◌, ◌≡◌};

use crate::entries::{Entry, find_uncovered, is_made_of, next_beyond, row_at};
use crate::rows::Row;
use principals::Hierarchy;

// This many labels are held against a right side by names before bits are looked at.
const FEW_LABELS: usize = 8;

// A hierarchy, and labels as their texts say.
#[derive(Clone, Copy, Debug, Drop)]
pub(crate) struct Under<'a> {
    pub hierarchy: &'a Hierarchy,
    pub entries: &'a [Entry],
}

impl Under<'_> {
    // Whether a label has all policies of another one because it is made of it, and of all that this is made of.
    pub(crate) fn includes(&self, to: usize, label: usize) -> bool
        requires to { to < length self.now.entries.now }
        requires label { label < length self.now.entries.now }
        ensures { IsTrue result → (policy : ReaderPolicy)
            → Contains (label_at (labels_in self.now.entries.now) label) policy
            → Contains (label_at (labels_in self.now.entries.now) to) policy }
    {
        if !is_made_of(self.entries, to, label) {
            return false;
        }
        match row_at(self.entries, label) {
            None => true,
            Some(row) => match next_beyond(row, row_at(self.entries, to), 0) {
                None => true,
                Some(_) => false,
            },
        }
    }

    // Whether a label is the least one, or flows to another one by its names.
    fn is_named(&self, label: usize, to: usize) -> bool
        requires table { IsTable self.now.entries.now }
        requires label { label < length self.now.entries.now }
        requires to { to < length self.now.entries.now }
        ensures { IsTrue result → FlowsTo self.now.hierarchy.now
            (label_at (labels_in self.now.entries.now) label)
            (label_at (labels_in self.now.entries.now) to) }
    {
        label == 0 || self.includes(to, label)
    }

    // Whether the labels are few, and all flow to a label by their names.
    pub(crate) fn are_named(&self, labels: &Row, to: usize) -> bool
        requires table { IsTable self.now.entries.now }
        requires count { length labels.now ≡ length self.now.entries.now }
        requires to { to < length self.now.entries.now }
        ensures { IsTrue result → AllFlow self.now.hierarchy.now self.now.entries.now
            labels.now to }
    {
        let mut from = 0;
        let mut more = FEW_LABELS;
        while let Some(label) = labels.first_from(from) {
            if more == 0 || !self.is_named(label, to) {
                return false;
            }
            more -= 1;
            from = label + 1;
        }
        true
    }

    // Whether a label flows to another one.
    fn flows(&self, from: usize, to: usize) -> bool
        requires table { IsTable self.now.entries.now }
        requires from { from < length self.now.entries.now }
        requires to { to < length self.now.entries.now }
        ensures { result ≡ flows self.now.hierarchy.now
            (label_at (labels_in self.now.entries.now) from)
            (label_at (labels_in self.now.entries.now) to) }
    {
        find_uncovered(self.hierarchy, self.entries, from, to).is_none()
    }

    // The first label of a row that does not flow to a label: each is looked at.
    pub(crate) fn first_above(&self, labels: &Row, to: usize) -> Option<usize>
        requires table { IsTable self.now.entries.now }
        requires count { length labels.now ≡ length self.now.entries.now }
        requires to { to < length self.now.entries.now }
        ensures { FirstAbove (λ label. flows self.now.hierarchy.now
            (label_at (labels_in self.now.entries.now) label)
            (label_at (labels_in self.now.entries.now) to)) labels.now result }
    {
        let mut from = 0;
        while let Some(label) = labels.first_from(from) {
            if !self.flows(label, to) {
                return Some(label);
            }
            from = label + 1;
        }
        None
    }
}
