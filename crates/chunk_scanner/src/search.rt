//! Searching what was read.
ghost use Rattle.std.specs.Prelude.{◌≡◌, ◌<◌, ◌≤◌, false, IfSome};
ghost use Rattle.layer_base.specs.AddressSpace.{AddressSpace};
ghost use Rattle.needle_search.specs.Progress.{AreReached};
ghost use Rattle.chunk_scanner.specs.Position.{pairs_behind, StandsWithin, StandsFurther, IsWanted};
ghost use Rattle.chunk_scanner.specs.Scan.{searched, Passes};
ghost use Rattle.chunk_scanner.specs.Search.{IsEnough, IsKnownUntil, Tells};
ghost use Rattle.chunk_scanner.specs.State.{IsHitWithin};

use crate::filled::Filled;
use crate::position::Position;
use crate::wanted::Wanted;
use needle_search::{Hit, Progress, first_from};

/// The last address of those at which what was read decides which needles begin.
pub(crate) fn known_until(wanted: &Wanted, at: u64, filled: &Filled) -> u64
    requires { IsEnough wanted.now at filled.now }
    ensures least { at ≤ result }
    ensures most { result ≤ wanted.now.last }
    ensures known { IsKnownUntil wanted.now at filled.now result }
{
    let last = wanted.last;
    let Some(hole) = filled.hole else {
        let end = at + (filled.count as u64 - 1);
        if end == last {
            return last;
        }
        return at + (filled.count - wanted.longest) as u64;
    };
    hole.min(last)
}

/// Goes on to behind the first hit, or behind an address up to which there is none.
pub(crate) fn search(
    wanted: &Wanted,
    position: &mut Position,
    progress: &mut Progress,
    bytes: &[u8],
    until: u64,
) -> Option<Hit>
    requires wanted { IsWanted wanted.now }
    requires stands { StandsWithin wanted.now.last position.old }
    requires begun { position.old.done ≡ false }
    requires least { position.old.at ≤ until }
    requires most { until ≤ wanted.now.last }
    requires reached { AreReached wanted.now.needles bytes.now position.old.number progress.old }
    ensures hits { (memory : AddressSpace) → Tells (searched memory wanted.now) wanted.now.needles position.old.at bytes.now until
        → Passes memory wanted.now position.old position.new result }
    ensures stands { StandsWithin wanted.now.last position.new }
    ensures further { StandsFurther position.old position.new }
    ensures reached { AreReached wanted.now.needles bytes.now position.old.number progress.new }
    ensures fewer { pairs_behind wanted.now.last position.new < pairs_behind wanted.now.last position.old }
    ensures within { IfSome result (IsHitWithin wanted.now.last wanted.now.needles) }
{
    let at = position.at;
    match first_from(&wanted.needles, position.number, bytes, progress) {
        Some(hit) if hit.at <= until - at => {
            let found = Hit {
                at: at + hit.at,
                needle: hit.needle,
            };
            *position = Position {
                at: found.at,
                number: found.needle + 1,
                done: false,
            };
            Some(found)
        }
        _ => {
            *position = Position::behind(until, wanted.last);
            None
        }
    }
}
