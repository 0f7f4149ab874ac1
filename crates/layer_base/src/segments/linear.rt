//! Look-ups in any list of segments.
ghost use Rattle.std.specs.Prelude.{◌≡◌, ◌+◌, ◌^◌, ◌<◌, All};
ghost use Rattle.layer_base.specs.Ranges.{segment_at, next_first};

use crate::Segment;

/// The first segment that holds the address.
pub(super) fn segment_at(segments: &[Segment], at: u64) -> Option<Segment>
    ensures { result ≡ segment_at segments.now at }
{
    for segment in segments {
        if segment.holds_address(at) {
            return Some(*segment);
        }
    }
    None
}

/// The last address before the next segment begins.
pub(super) fn before_next(segments: &[Segment], at: u64) -> u64
    ensures { result + 1 ≡ next_first segments.now at }
{
    let mut last = u64::MAX;
    for segment in segments {
        if at < segment.first {
            last = last.min(segment.first - 1);
        }
    }
    last
}
