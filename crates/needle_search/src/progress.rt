//! How far a window was searched for each needle.
ghost use Rattle.std.specs.Prelude.{◌≡◌, ◌<◌, ◌≤◌, ℕ, List, drop, length, slice_index_or};
ghost use Rattle.needle_search.specs.Progress.{AreReached, IsPassed, unsearched};

/// Behind the places at which a needle does not begin; where it was found, it begins at this place.
#[derive(Clone, Copy, Debug)]
pub(crate) struct Reach {
    pub(crate) place: usize,
    pub(crate) found: bool,
}

impl Reach {
    // The same from a later place on.
    fn behind(self, count: u64) -> Reach
        ensures { IsPassed count self result }
    {
        let place = self.place as u64;
        Reach {
            place: place.saturating_sub(count) as usize,
            found: self.found && count <= place,
        }
    }
}

/// How far a window was searched for each of up to 8 needles, so that a further search of the window goes on from there.
#[derive(Clone, Copy, Debug)]
pub struct Progress {
    pub(crate) reaches: [Reach; 8],
}

impl Progress {
    /// Nothing was searched yet.
    pub fn new() -> Progress
        ensures { (needles : List (List ℕ)) → (window : List ℕ) → (least : ℕ) → length needles ≤ 8 → AreReached needles window least result }
    {
        Progress {
            reaches: [Reach {
                place: 0,
                found: false,
            }; 8],
        }
    }

    /// The window goes on so many places further on. At the same place the least number does not fall.
    pub fn pass(&mut self, count: u64)
        ensures { (needles : List (List ℕ)) → (window : List ℕ) → (old new : ℕ) → AreReached needles window old self.old → (count ≡ 0 → old ≤ new) → AreReached needles (drop count window) new self.new }
    {
        pass_each(&mut self.reaches, count);
    }
}

// Each of some needles is so many places further on.
fn pass_each(reaches: &mut [Reach], count: u64)
    ensures { (k : ℕ) → k < length reaches.new → IsPassed count (slice_index_or reaches.old k unsearched) (slice_index_or reaches.new k unsearched) }
{
    for reach in reaches.iter_mut() {
        *reach = reach.behind(count);
    }
}
