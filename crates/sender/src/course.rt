// What the steps read of a plan.
ghost use Rattle.std.specs.Prelude.{◌≡◌, ◌≤◌, ◌||◌, true, ltb, IfSome, IsNone};
ghost use Rattle.tsar.specs.Kinds.{prohibited, is_exceptions};

use crate::{MAX_SEGMENTS, MIN_SEGMENTS, Outline};
use tsar::AcknowledgmentWindow;

// An outline whose count is that of a plan.
#[derive(Clone, Copy, Debug, PartialEq, Eq)]
pub(crate) struct Course {
    pub(crate) outline: Outline,
    ghost at_least: { 2 ≤ outline.count },
    ghost at_most: { outline.count ≤ 256 },
}

impl Course {
    // None of an outline whose count is that of no plan (62).
    pub(crate) fn of(outline: Outline) -> Option<Course>
        ensures none { IsNone result → (ltb outline.count 2 || ltb 256 outline.count) ≡ true }
        ensures some { IfSome result (λ course. course.outline ≡ outline) }
    {
        if outline.count < MIN_SEGMENTS || MAX_SEGMENTS < outline.count {
            return None;
        }
        Some(Course { outline })
    }

    // The number of segments.
    pub(crate) fn count(self) -> u16
        ensures { result ≡ self.outline.count }
    {
        self.outline.count as u16
    }

    pub(crate) fn is_prohibited(self) -> bool
        ensures { result ≡ prohibited self.outline.acknowledgment_window }
    {
        self.outline.acknowledgment_window == AcknowledgmentWindow::Prohibited
    }

    pub(crate) fn is_exceptions(self) -> bool
        ensures { result ≡ is_exceptions self.outline.acknowledgment_window }
    {
        self.outline.acknowledgment_window == AcknowledgmentWindow::Exceptions
    }
}
