// Questions about the marks of a plan's segments, on four words: the work does not grow with the segments.
ghost use Rattle.std.specs.Prelude.{◌≡◌, ◌&&◌, ◌||◌, not, eqb, ltb};
ghost use Rattle.words.specs.Marks.{marked, words_of, all_below};
ghost use Rattle.sender.specs.Record.{needs, has_pending, next_pending, mark_past};
ghost use Rattle.sender.specs.Steps.{with_last, or_last, unreceived, resent, marked_retry, marked_received};
ghost use Rattle.sender.specs.Calls.{acknowledges_unsubmitted, is_gap};

use crate::Progress;
use crate::course::Course;
use response::AcknowledgmentMap;
use words::Words;

impl Course {
    // A mark at or past the count.
    pub(crate) fn mark_past(self, w: Words) -> bool
        ensures { result ≡ mark_past w self.outline.count }
    {
        !w.minus(Words::below(self.count())).is_none()
    }

    // What a map says was received.
    pub(crate) fn marked_received(self, map: AcknowledgmentMap) -> Words
        ensures { result ≡ marked_received self.outline.count map }
    {
        map.received.first(map.bit_count).first(self.count())
    }
}

impl Progress {
    // The segments that were never submitted or are to be sent again.
    fn pending(self, course: Course) -> Words
        ensures { result ≡ words_of (λ i. ltb i course.outline.count && needs self.submitted self.retry i) }
    {
        let n = course.count();
        Words::below(n)
            .minus(self.submitted)
            .or(self.retry.first(n))
    }

    pub(crate) fn has_pending(self, course: Course) -> bool
        ensures { result ≡ has_pending course.outline.count self.submitted self.retry }
    {
        !self.pending(course).is_none()
    }

    #[tactic(auto, using(crate::proofs::Marking::lowest_first))]
    pub(crate) fn next_pending(self, course: Course) -> Option<u8>
        ensures { result ≡ next_pending course.outline.count self.submitted self.retry }
    {
        self.pending(course).lowest()
    }

    // No segment but the one at the index is pending.
    pub(crate) fn none_but(self, course: Course, index: u8) -> bool
        ensures { result ≡ all_below course.outline.count (λ i. eqb i index || not (needs self.submitted self.retry i)) }
    {
        self.pending(course).without(index).is_none()
    }

    // What is to be sent again, with the last segment.
    fn with_last(self, course: Course) -> Words
        ensures { result ≡ with_last course.outline.count self.retry }
    {
        self.retry.with((course.count() - 1) as u8)
    }

    // With the last segment where nothing is pending.
    pub(crate) fn or_last(self, course: Course) -> Words
        ensures { result ≡ or_last course.outline.count self.submitted self.retry }
    {
        if self.has_pending(course) {
            self.retry
        } else {
            self.with_last(course)
        }
    }

    pub(crate) fn unreceived(self, course: Course) -> Words
        ensures { result ≡ unreceived course.outline.count self.received self.retry }
    {
        Words::below(course.count())
            .minus(self.received)
            .or(self.retry)
    }

    pub(crate) fn resent(self, course: Course) -> Words
        ensures { result ≡ resent course.outline.count self.submitted self.retry }
    {
        self.submitted.first(course.count()).or(self.retry)
    }

    // What is to be sent again by a map's word.
    pub(crate) fn marked_retry(self, course: Course, map: AcknowledgmentMap, timeout: bool) -> Words
        ensures { result ≡ marked_retry course.outline.count self.submitted self.retry map timeout }
    {
        let known = self.submitted.first(course.count());
        let acknowledged = map.received.first(map.bit_count);
        let kept = self.retry.minus(known.and(acknowledged));
        if timeout {
            return kept.or(known.minus(acknowledged));
        }
        kept.or(known.and(Words::below(map.bit_count).minus(map.received)))
    }

    pub(crate) fn none_submitted(self, course: Course) -> bool
        ensures { result ≡ all_below course.outline.count (λ i. not (marked self.submitted i)) }
    {
        self.submitted.first(course.count()).is_none()
    }

    // An entry that is set though its segment was never submitted.
    pub(crate) fn acknowledges_unsubmitted(self, course: Course, map: AcknowledgmentMap) -> bool
        ensures { result ≡ acknowledges_unsubmitted course.outline.count self.submitted map }
    {
        !map.received
            .first(map.bit_count)
            .minus(self.submitted.first(course.count()))
            .is_none()
    }

    // Not all were submitted, or an entry is clear.
    pub(crate) fn is_gap(self, course: Course, map: AcknowledgmentMap) -> bool
        ensures { result ≡ is_gap course.outline.count self.submitted map }
    {
        let n = course.count();
        if !Words::below(n).minus(self.submitted).is_none() {
            return true;
        }
        !Words::below(map.bit_count)
            .minus(map.received)
            .first(n)
            .is_none()
    }
}
