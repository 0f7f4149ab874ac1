//! Look-ups in segments that rise and do not meet.
ghost use Rattle.std.specs.Prelude.{◌≡◌, ◌+◌, ◌≤◌, ◌<◌, length, IsTrue, All};
ghost use Rattle.std.specs.List.{AllWithin};
ghost use Rattle.layer_base.specs.Ranges.{IsSegment, AreRising, segment_at, next_first};

use crate::Segment;

/// Whether a segment begins above all of the segments, where these rise.
pub(super) fn is_above(segments: &[Segment], segment: &Segment) -> bool
    requires { All IsSegment segments.now }
    ensures { IsTrue result → AreRising segments.now → All (λ s. s.first + s.length ≤ segment.now.first) segments.now }
{
    match segments.last() {
        None => true,
        Some(last) => last.first as u128 + last.length <= segment.first as u128,
    }
}

// How many of the segments begin at or below the address. They are the first ones.
fn count_begun(segments: &[Segment], at: u64) -> usize
    requires { AreRising segments.now }
    ensures bound { result ≤ length segments.now }
    ensures begun { AllWithin (λ s. s.first ≤ at) segments.now 0 result }
    ensures later { AllWithin (λ s. at < s.first) segments.now result (length segments.now) }
{
    segments.partition_point(|segment| segment.first <= at)
}

/// The only segment that can hold the address is the last that begins at or below it.
pub(super) fn segment_at(segments: &[Segment], at: u64) -> Option<Segment>
    requires { AreRising segments.now }
    ensures { result ≡ segment_at segments.now at }
{
    let begun = count_begun(segments, at);
    if begun == 0 {
        return None;
    }
    let segment = segments[begun - 1];
    if segment.holds_address(at) {
        Some(segment)
    } else {
        None
    }
}

/// The next segment to begin is the first that begins above the address.
pub(super) fn before_next(segments: &[Segment], at: u64) -> u64
    requires { AreRising segments.now }
    ensures { result + 1 ≡ next_first segments.now at }
{
    let begun = count_begun(segments, at);
    if begun == segments.len() {
        return u64::MAX;
    }
    segments[begun].first - 1
}
