//! Where a table of words stands, and how far it is listed.
ghost use Rattle.std.specs.Prelude.{◌≡◌, ◌-◌, ◌/◌, ◌^◌, ◌≤◌};
ghost use Rattle.word_table.specs.Table.{wanted, listed, outside, end_of, table_stop};

use kernel_records::Stop;

/// A table of words of eight bytes that stand one behind the other.
#[derive(Clone, Copy, Debug, PartialEq, Eq)]
pub struct WordTable {
    /// The address of its first word.
    pub base: u64,
    /// How many words it has.
    pub count: u64,
    /// How many of them are wanted at most.
    pub limit: u64,
}

const END: u128 = 1 << 64;

// How many words have room from an address on.
fn room_from(base: u64) -> u64
    ensures { result ≡ (2 ^ 64 - base) / 8 }
{
    ((END - u128::from(base)) / 8) as u64
}

impl WordTable {
    fn wanted(self) -> u64
        ensures { result ≡ wanted self }
    {
        self.count.min(self.limit)
    }

    /// How many words are listed: those that are wanted and end at the last address at most.
    pub fn listed(self) -> u64
        ensures { result ≡ listed self }
    {
        self.wanted().min(room_from(self.base))
    }

    // Why the table ends before the word of an index, which has no room.
    fn outside(self, index: u64) -> Stop
        requires { index ≤ (2 ^ 64 - self.base) / 8 }
        ensures { result ≡ outside self index }
    {
        let address = u128::from(self.base) + 8 * u128::from(index);
        if address < END {
            Stop::Outside { at: address as u64 }
        } else {
            Stop::Outside {
                at: (address - 8) as u64,
            }
        }
    }

    fn end_of(self) -> Stop
        ensures { result ≡ end_of self }
    {
        if self.limit < self.count {
            Stop::Limit { n: self.limit }
        } else {
            Stop::End
        }
    }

    /// Why the table ends behind the words that are listed: `Outside` where the next one that is wanted passes 2^64 - 1,
    /// with its address, or where that is above 2^64 - 1, with the address of the word before it; else `Limit` where the
    /// table has more words than are wanted; else `End`.
    pub fn stop(self) -> Stop
        ensures { result ≡ table_stop self }
    {
        let listed = self.listed();
        if listed < self.wanted() {
            self.outside(listed)
        } else {
            self.end_of()
        }
    }
}
