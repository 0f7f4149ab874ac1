//! A scan: it searches what stands in its window, and reads on where that is too little.
ghost use Rattle.std.specs.Prelude.{◌≡◌, ◌+◌, ◌-◌, ◌<◌, ◌≤◌, ℕ, List, [], true, false, drop, length, vec_len, IsErr, IfOk, IfSome, OnOk, OnErr};
ghost use Rattle.layer_base.specs.Counts.{HasCause};
ghost use Rattle.layer_base.specs.View.{physical};
ghost use Rattle.space_memory.specs.InSpace.{in_space};
ghost use Rattle.space_memory.specs.State.{IsSameMemory};
ghost use Rattle.needle_search.specs.Progress.{AreReached};
ghost use Rattle.chunk_scanner.specs.Filled.{IsHoleBehind};
ghost use Rattle.chunk_scanner.specs.Position.{pairs_behind, IsWanted};
ghost use Rattle.chunk_scanner.specs.Scan.{hits_behind, IsScan, Keeps, Passes};
ghost use Rattle.chunk_scanner.specs.Search.{IsEnough};
ghost use Rattle.chunk_scanner.specs.State.{GivesFirst, IsHitWithin};
ghost use Rattle.chunk_scanner.specs.Window.{kept_bytes, AreBytesFrom, IsWindow, ReadsOn};

use crate::filled::Filled;
use crate::position::Position;
use crate::search::{known_until, search};
use crate::wanted::Wanted;
use crate::window::Window;
use layer_base::{DeviceFailed, Layer, Steps};
use needle_search::{Hit, Progress};
use space_memory::Memory;
use std::sync::ledger::Ledger;

// Passes the bytes from an address up to where the scan stands now.
fn follow(window: &mut Window, progress: &mut Progress, from: u64, position: &Position)
    requires window { IsWindow window.old }
    requires order { from ≤ position.now.at }
    ensures window { IsWindow window.new }
    ensures room { vec_len window.new.buf ≡ vec_len window.old.buf }
    ensures done { position.now.done ≡ true → kept_bytes window.new ≡ [] }
    ensures kept { position.now.done ≡ false → kept_bytes window.new ≡ drop (position.now.at - from) (kept_bytes window.old) }
    ensures reached { (needles : List (List ℕ)) → (least : ℕ) → AreReached needles (kept_bytes window.old) least progress.old → (position.now.done ≡ false → position.now.at ≡ from → least ≤ position.now.number)
        → AreReached needles (kept_bytes window.new) position.now.number progress.new }
{
    if position.done {
        window.clear();
        *progress = Progress::new();
    } else {
        let count = position.at - from;
        window.pass(count);
        progress.pass(count);
    }
}

// Sees that what is kept from an address on is enough for a search: where it is too little, more is read behind it.
fn enough<Y: Layer, L: Ledger>(
    wanted: &Wanted,
    at: u64,
    window: &mut Window,
    memory: &mut Memory<Y>,
    steps: &mut Steps<L>,
) -> Result<Filled, DeviceFailed>
    requires wanted { IsWanted wanted.now }
    requires window { IsWindow window.old }
    requires room { wanted.now.longest + wanted.now.chunk ≤ vec_len window.old.buf }
    requires address { at ≤ wanted.now.last }
    requires inside { length (kept_bytes window.old) ≤ wanted.now.last + 1 - at }
    requires kept { IfSome memory.old.view (λ view. AreBytesFrom (in_space (physical view) wanted.now.space) at (kept_bytes window.old)) }
    ensures window { IsWindow window.new }
    ensures room { vec_len window.new.buf ≡ vec_len window.old.buf }
    ensures front { ReadsOn window.old window.new }
    ensures same { OnErr result (kept_bytes window.new ≡ kept_bytes window.old) }
    ensures count { IfOk result (λ filled. length (kept_bytes window.new) ≡ filled.count) }
    ensures enough { IfOk result (IsEnough wanted.now at) }
    ensures kept { IfSome memory.old.view (λ view. AreBytesFrom (in_space (physical view) wanted.now.space) at (kept_bytes window.new)) }
    ensures hole { IfSome memory.old.view (λ view. IfOk result (IsHoleBehind (in_space (physical view) wanted.now.space) at)) }
    ensures memory { IsSameMemory memory.old memory.new }
    ensures cause { HasCause memory.old.faults memory.new.faults (IsErr result) }
{
    let count = window.bytes().len();
    let more = wanted.last - at;
    if count >= wanted.longest || count as u64 > more {
        return Ok(Filled { count, hole: None });
    }
    window.read_on(memory, wanted.space, at, more, wanted.chunk, steps)
}

// One search, of what is kept or of more where that is too little. After a failure the scan stands where it stood.
fn turn<Y: Layer, L: Ledger>(
    wanted: &Wanted,
    position: &mut Position,
    window: &mut Window,
    progress: &mut Progress,
    memory: &mut Memory<Y>,
    steps: &mut Steps<L>,
) -> Result<Option<Hit>, DeviceFailed>
    requires scan { IsScan wanted.now position.old window.old progress.old }
    requires begun { position.old.done ≡ false }
    requires kept { IfSome memory.old.view (λ view. Keeps (physical view) wanted.now position.old window.old) }
    ensures hits { IfSome memory.old.view (λ view. IfOk result (Passes (physical view) wanted.now position.old position.new)) }
    ensures same { OnErr result (position.new ≡ position.old) }
    ensures kept { IfSome memory.old.view (λ view. Keeps (physical view) wanted.now position.new window.new) }
    ensures scan { IsScan wanted.now position.new window.new progress.new }
    ensures fewer { OnOk result (pairs_behind wanted.now.last position.new < pairs_behind wanted.now.last position.old) }
    ensures within { IfOk result (λ found. IfSome found (IsHitWithin wanted.now.last wanted.now.needles)) }
    ensures memory { IsSameMemory memory.old memory.new }
    ensures cause { HasCause memory.old.faults memory.new.faults (IsErr result) }
{
    let at = position.at;
    let filled = enough(wanted, at, window, memory, steps)?;
    let until = known_until(wanted, at, &filled);
    let found = search(wanted, position, progress, window.bytes(), until);
    follow(window, progress, at, position);
    Ok(found)
}

/// Gives the next hit and goes on to behind it. It reads on only where what stands in the window is searched.
pub(crate) fn next<Y: Layer, L: Ledger>(
    wanted: &Wanted,
    position: &mut Position,
    window: &mut Window,
    progress: &mut Progress,
    memory: &mut Memory<Y>,
    steps: &mut Steps<L>,
) -> Result<Option<Hit>, DeviceFailed>
    requires scan { IsScan wanted.now position.old window.old progress.old }
    requires kept { IfSome memory.old.view (λ view. Keeps (physical view) wanted.now position.old window.old) }
    ensures hits { IfSome memory.old.view (λ view.
        GivesFirst (hits_behind (physical view) wanted.now position.old) (hits_behind (physical view) wanted.now position.new) result) }
    ensures kept { IfSome memory.old.view (λ view. Keeps (physical view) wanted.now position.new window.new) }
    ensures scan { IsScan wanted.now position.new window.new progress.new }
    ensures fewer { IfOk result (λ found. IfSome found (λ hit. pairs_behind wanted.now.last position.new < pairs_behind wanted.now.last position.old)) }
    ensures within { IfOk result (λ found. IfSome found (IsHitWithin wanted.now.last wanted.now.needles)) }
    ensures memory { IsSameMemory memory.old memory.new }
    ensures cause { HasCause memory.old.faults memory.new.faults (IsErr result) }
{
    while !position.done {
        if let Some(hit) = turn(wanted, position, window, progress, memory, steps)? {
            return Ok(Some(hit));
        }
    }
    Ok(None)
}
