//! Which calls on an object in memory fail.
ghost use Rattle.std.specs.Prelude.{◌≡◌, ◌↔◌, OnErr, OnOk, IsErr, Contains};
ghost use Rattle.layer_base.specs.Counts.{next_count};

use crate::Failed;

/// Counts a call, and fails it where its number, from 0, stands among those that fail.
pub(super) fn count_call(fails: &[u64], calls: &mut u64, faults: &mut u64) -> Result<(), Failed>
    ensures planned { IsErr result ↔ Contains fails.now calls.old }
    ensures calls { calls.new ≡ next_count calls.old }
    ensures ok { OnOk result (faults.new ≡ faults.old) }
    ensures err { OnErr result (faults.new ≡ next_count faults.old) }
{
    let number = *calls;
    *calls = number.saturating_add(1);
    if fails.contains(&number) {
        *faults = faults.saturating_add(1);
        return Err(Failed);
    }
    Ok(())
}
