//! A cache of runs.
ghost use Rattle.std.specs.Prelude.{◌≡◌, ◌↔◌, ◌<◌, [], None, Some, All, IfOk, IfSome, option_map};
ghost use Rattle.layer_base.specs.Mapped.{Holds, IsAligned};
ghost use Rattle.layer_base.specs.declared.space.Space.TheVariants.{Paged};
ghost use Rattle.run_cache.specs.declared.cache.Kept.TheVariants as Kept;
ghost use Rattle.run_cache.specs.Cache.{AreAlike, HoldsIn, IsCache, IsPaged, NoneHolds, kept_run};
ghost use Rattle.run_cache.specs.Changes.{IsFound, in_front};
ghost use Rattle.run_cache.specs.Key.{kept_held};
ghost use Rattle.run_cache.specs.Shown.{HasRoom, shown};

use crate::key::{HeldRun, RunKey};
use crate::list::{RunList, find_from, put_in_front};
use layer_base::{Levels, Mapped, Space};
use lru::LruCache;
use std::alloc::{AllocError, Global};
use std::marker::Model;
use std::num::NonZeroUsize;

/// Where a run is kept.
#[derive(Clone, Copy, Debug, PartialEq, Eq)]
pub enum Kept {
    /// In front of the list, and as the last run.
    Front,
    /// Nowhere: the cache has no room for runs.
    Off,
    /// As the last run alone: there was no memory for the list.
    Memory,
}

/// The runs that were translated so far: a list of as many as the capacity allows, the one used last in front, and
/// beside it the last run, which takes no memory.
#[derive(Drop)]
pub struct RunCache {
    runs: Option<RunList>,
    newest: Option<HeldRun>,
}

impl Model for RunCache {
    ghost use Rattle.std.specs.Prelude.{◌≡◌};
    ghost use Rattle.run_cache.specs.Cache.{CacheState, IsCache};
    ghost use Rattle.run_cache.specs.Codes.{cache_code};

    ghost Value = { CacheState };

    ghost coded = { cache_code };

    ghost use Rattle.run_cache.specs.Shown.{HasRoom, shown};

    ghost view = { λ c. shown c.runs c.newest };

    ghost invariant = { λ c. IsCache (shown c.runs c.newest) × HasRoom c.runs };
}

// The list of a cache, none where it has no room.
fn list_of(alloc: Global, capacity: usize) -> Result<Option<RunList>, AllocError>
    ensures shown { IfOk result (λ runs. shown runs None ≡ record { capacity = capacity; kept = []; last = None }) }
    ensures room { IfOk result HasRoom }
{
    match NonZeroUsize::new(capacity) {
        Some(room) => Ok(Some(LruCache::sparse(alloc, room)?)),
        None => Ok(None),
    }
}

// The last run, where it is of the space of a root and holds an address.
fn newest_at(newest: Option<HeldRun>, root: u64, levels: Levels, at: u64) -> Option<Mapped>
    ensures found { IfSome result (λ run. option_map kept_held newest ≡ Some (kept_run (Paged root levels) run)) }
    ensures holds { IfSome result (λ run. Holds run at) }
    ensures misses { result ≡ None → IfSome (option_map kept_held newest) (λ last. HoldsIn (Paged root levels) at last → ⊥) }
{
    match newest {
        Some(held) if held.holds(root, levels, at) => Some(held.run()),
        _ => None,
    }
}

impl RunCache {
    /// A cache with room for so many runs, none of which is kept.
    pub fn new(alloc: Global, capacity: usize) -> Result<RunCache, AllocError>
        ensures { IfOk result (λ cache. cache ≡ record { capacity = capacity; kept = []; last = None }) }
    {
        let runs = list_of(alloc, capacity)?;
        Ok(RunCache { runs, newest: None })
    }

    /// The kept run of a space that holds an address: the last run, or else one of the list, which goes to the front. It
    /// looks at most once in the list for each size of a block, and takes no memory.
    pub fn look(&mut self, space: Space, at: u64) -> Option<Mapped>
        ensures found { IfSome result (λ run. IsFound (kept_run space run) self.old self.new) }
        ensures holds { IfSome result (λ run. Holds run at) }
        ensures last { IfSome self.old.last (λ last. HoldsIn space at last → (result ≡ Some last.run) × (self.new ≡ self.old)) }
        ensures none { result ≡ None → (self.new ≡ self.old) × NoneHolds space at self.old }
        ensures cache { IsCache self.new }
    {
        let newest = self.newest;
        let Space::Paged { root, levels } = space else {
            return None;
        };
        if let Some(run) = newest_at(newest, root, levels, at) {
            return Some(run);
        }
        let Some(runs) = &mut self.runs else {
            return None;
        };
        find_from(runs, root, levels, 1, at)
    }

    /// Keeps a run of a paged space that is not in the list: it becomes the last run, and goes in front of the list,
    /// whose end is dropped where it was full. The list stays as it was where there is no memory for it. A cache with
    /// no room for runs keeps nothing.
    pub fn keep(&mut self, space: Space, run: Mapped) -> Kept
        requires paged { IsPaged space }
        requires aligned { IsAligned run }
        requires absent { All (λ kept. AreAlike kept (kept_run space run) → ⊥) self.old.kept }
        ensures off { (result ≡ Kept.Off) ↔ (self.old.capacity ≡ 0) }
        ensures nothing { self.old.capacity ≡ 0 → self.new ≡ self.old }
        ensures front { result ≡ Kept.Front → self.new ≡ record { capacity = self.old.capacity; kept = in_front self.old.capacity (kept_run space run) self.old.kept; last = Some (kept_run space run) } }
        ensures memory { result ≡ Kept.Memory → self.new ≡ record { capacity = self.old.capacity; kept = self.old.kept; last = Some (kept_run space run) } }
        ensures cache { IsCache self.new }
    {
        let Space::Paged { root, levels } = space else {
            return Kept::Off;
        };
        let Some(runs) = &mut self.runs else {
            return Kept::Off;
        };
        let key = RunKey::of(root, levels, run.first, run.last);
        self.newest = Some(HeldRun { key, to: run.to });
        if put_in_front(runs, key, run.to).is_err() {
            return Kept::Memory;
        }
        Kept::Front
    }
}
