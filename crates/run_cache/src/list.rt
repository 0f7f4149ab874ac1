//! The list of kept runs.
ghost use Rattle.std.specs.Prelude.{◌≡◌, ◌≢◌, ℕ, ◌-◌, ◌≤◌, ◌∷◌, map, take, None, All, IfSome, OnOk, OnErr};
ghost use Rattle.layer_base.specs.Mapped.{Holds};
ghost use Rattle.layer_base.specs.declared.space.Space.TheVariants.{Paged};
ghost use Rattle.run_cache.specs.Cache.{kept_run};
ghost use Rattle.run_cache.specs.Changes.{IsMovedToFront};
ghost use Rattle.run_cache.specs.Key.{key_around, kept_entry, run_at_key};

use crate::key::{HeldRun, RunKey};
use layer_base::{Levels, Mapped};
use lru::LruCache;
use std::alloc::AllocError;

/// Which runs are kept and what they are mapped to, the one used last in front.
pub(crate) type RunList = LruCache<RunKey, Option<u64>>;

/// The greatest level of a table.
const MOST_LEVELS: u32 = 5;

/// What a run of the list is mapped to, which goes to the front.
pub(crate) fn take_to_front(list: &mut RunList, key: &RunKey) -> Option<Option<u64>>
    ensures found { IfSome result (λ to. IsMovedToFront (key.now, to) list.old.entries list.new.entries) }
    ensures capacity { list.new.cap ≡ list.old.cap }
    ensures none { result ≡ None → list.new ≡ list.old }
    ensures misses { result ≡ None → All (λ entry. entry.0 ≢ key.now) list.old.entries }
{
    list.get(key).copied()
}

/// Puts a run that the list does not have in front of it, and drops its end where it was full.
pub(crate) fn put_in_front(
    list: &mut RunList,
    key: RunKey,
    to: Option<u64>,
) -> Result<(), AllocError>
    requires { All (λ entry. entry.0 ≢ key) list.old.entries }
    ensures ok { OnOk result (list.new.entries ≡ (key, to) ∷ take (list.old.cap - 1) list.old.entries) }
    ensures err { OnErr result (list.new.entries ≡ list.old.entries) }
    ensures capacity { list.new.cap ≡ list.old.cap }
{
    list.put(key, to)?;
    Ok(())
}

/// The run of the list that is of the space of a root and holds an address, of those that are blocks of a level or of a
/// greater one. It goes to the front. It looks once at each level.
pub(crate) fn find_from(
    list: &mut RunList,
    root: u64,
    levels: Levels,
    level: u32,
    at: u64,
) -> Option<Mapped>
    requires { 1 ≤ level }
    ensures found { IfSome result (λ run. IsMovedToFront (kept_run (Paged root levels) run) (map kept_entry list.old.entries) (map kept_entry list.new.entries)) }
    ensures holds { IfSome result (λ run. Holds run at) }
    ensures capacity { list.new.cap ≡ list.old.cap }
    ensures none { result ≡ None → list.new ≡ list.old }
    ensures misses { result ≡ None → (l : ℕ) → level ≤ l → l ≤ 5 → All (λ entry. entry.0 ≢ key_around root levels l at) list.old.entries }
{
    if level > MOST_LEVELS {
        return None;
    }
    let key = RunKey::around(root, levels, level, at);
    match take_to_front(list, &key) {
        Some(to) => Some(HeldRun { key, to }.run()),
        None => find_from(list, root, levels, level + 1, at),
    }
}
