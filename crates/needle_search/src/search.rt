//! The first hit in a window of bytes.
ghost use Rattle.std.specs.Prelude.{◌≡◌, ◌≤◌};
ghost use Rattle.memchr.specs.Find.{FindsNeedle};
ghost use Rattle.needle_search.specs.FirstHit.{IsFirstIn, IsFirstFrom, earlier};
ghost use Rattle.needle_search.specs.Needles.{AreNeedles};
ghost use Rattle.needle_search.specs.Progress.{IsReached, AreReached, place_found};

use crate::progress::Reach;
use crate::{Hit, Needles, Progress};
use memchr::memmem::Finder;

/// Returns the least place in the window at which a needle occurs, and there the least needle number; None exactly where
/// no needle occurs. It takes no memory.
pub fn first_in(needles: &Needles, window: &[u8]) -> Option<Hit>
    ensures { IsFirstIn needles.now window.now result }
{
    let mut progress = Progress::new();
    first_among(needles.items(), 0, window, &mut progress)
}

/// Returns the first hit that is not before the needle of a number at the window's first place; None exactly where there
/// is none. It searches for each needle from where the progress is on. It takes no memory.
pub fn first_from(
    needles: &Needles,
    least: u32,
    window: &[u8],
    progress: &mut Progress,
) -> Option<Hit>
    requires least { least ≤ 8 }
    requires reached { AreReached needles.now window.now least progress.old }
    ensures first { IsFirstFrom needles.now window.now least result }
    ensures reached { AreReached needles.now window.now least progress.new }
{
    first_among(needles.items(), least, window, progress)
}

// The same, among needles that are within their limits.
fn first_among(
    needles: &[Finder<'static>],
    least: u32,
    window: &[u8],
    progress: &mut Progress,
) -> Option<Hit>
    requires needles { AreNeedles needles.now }
    requires least { least ≤ 8 }
    requires reached { AreReached needles.now window.now least progress.old }
    ensures first { IsFirstFrom needles.now window.now least result }
    ensures reached { AreReached needles.now window.now least progress.new }
{
    let mut first = None;
    for (index, needle) in needles.iter().enumerate() {
        let number = index as u32;
        let from = usize::from(number < least);
        let reach = further(window, needle, from, progress.reaches[index]);
        progress.reaches[index] = reach;
        first = earlier(first, reach, number);
    }
    first
}

// The first place from one on at which a needle occurs, or how far there is none.
fn further(window: &[u8], needle: &Finder<'static>, from: usize, reach: Reach) -> Reach
    requires { IsReached window.now needle.now from reach }
    ensures reached { IsReached window.now needle.now from result }
    ensures first { FindsNeedle window.now needle.now from (place_found result) }
{
    let start = reach.place.max(from);
    if reach.found && reach.place == start {
        return reach;
    }
    match find_from(window, needle, start) {
        Some(place) => Reach { place, found: true },
        None => Reach {
            place: start.max((window.len() + 1).saturating_sub(needle.needle().len())),
            found: false,
        },
    }
}

// The first place from one on at which a needle occurs.
fn find_from(window: &[u8], needle: &Finder<'static>, from: usize) -> Option<usize>
    ensures { FindsNeedle window.now needle.now from result }
{
    if from > window.len() {
        return None;
    }
    let place = needle.find(&window[from..])?;
    Some(from + place)
}

// The first hit of some needles, and what was reached for the needle with the next number: the first hit of them all.
fn earlier(first: Option<Hit>, reach: Reach, number: u32) -> Option<Hit>
    ensures { result ≡ earlier first (place_found reach) number }
{
    if !reach.found {
        return first;
    }
    let at = reach.place as u64;
    match first {
        Some(hit) if hit.at <= at => first,
        _ => Some(Hit { at, needle: number }),
    }
}
