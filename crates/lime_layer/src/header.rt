//! The header of a range.
ghost use Rattle.std.specs.Prelude.{◌≡◌, ◌+◌, ◌^◌, ◌≤◌, ◌<◌, length, drop, take, Some, IsErr, IfOk, IfSome};
ghost use Rattle.byteorder.specs.Endian.{little_number};
ghost use Rattle.layer_base.specs.Ranges.{IsSegment};
ghost use Rattle.layer_base.specs.Lime.{range_of, is_lime};

use byteorder::{ByteOrder, LittleEndian};
use layer_base::{Rule, Segment, Why};

/// How long a header is.
pub(crate) const LENGTH: usize = 32;

// The magic, in the file `45 4d 69 4c`.
const MAGIC: u32 = 0x4C69_4D45;

// The version of the format.
const VERSION: u32 = 1;

/// What is present of a header: its first bytes, one at least.
#[derive(Clone, Copy)]
pub(crate) struct Header {
    pub(crate) place: u64,
    pub(crate) bytes: [u8; 32],
    pub(crate) count: usize,
    ghost some: { 0 < count },
    ghost within: { count ≤ length bytes },
    ghost places: { place + count ≤ 2 ^ 64 },
}

impl Header {
    /// Whether it is whole and has the magic.
    pub(crate) fn is_lime(&self) -> bool
        ensures { result ≡ is_lime (take self.now.count self.now.bytes) }
    {
        let header = &self.bytes[..self.count];
        header.len() == LENGTH && LittleEndian::read_u32(header) == MAGIC
    }

    /// The range, or the first rule that the header breaks. The range is to lie at or above the address `above`.
    pub(crate) fn range(&self, above: u128) -> Result<Segment, Rule>
        ensures range { result ≡ range_of self.now.place above (take self.now.count self.now.bytes) }
        ensures fit { IfOk result IsSegment }
    {
        range_in(&self.bytes[..self.count], self.place, above)
    }

    /// The refusal of a header that breaks a rule.
    pub(crate) fn refusal(&self, rule: Rule) -> Why
        ensures { result ≡ Why.Bad self.now.place rule }
    {
        Why::Bad {
            at: self.place,
            rule,
        }
    }
}

#[tactic(auto, unfolding(layer_base::specs::Lime::range_of))]
fn range_in(header: &[u8], place: u64, above: u128) -> Result<Segment, Rule>
    requires { place + length header.now ≤ 2 ^ 64 }
    ensures range { result ≡ range_of place above header.now }
    ensures fit { IfOk result IsSegment }
{
    if header.len() < LENGTH {
        return Err(Rule::Cut);
    }
    if u32_at(header, 0) != MAGIC {
        return Err(Rule::Magic);
    }
    if u32_at(header, 4) != VERSION {
        return Err(Rule::Version);
    }
    let first = u64_at(header, 8);
    let last = u64_at(header, 16);
    if last < first || u128::from(first) < above {
        return Err(Rule::Order);
    }
    Ok(Segment {
        first,
        place: u128::from(place) + 32,
        length: u128::from(last - first) + 1,
    })
}

fn u32_at(header: &[u8], offset: usize) -> u32
    requires { offset + 4 ≤ length header.now }
    ensures { result ≡ little_number 4 (drop offset header.now) }
{
    LittleEndian::read_u32(&header[offset..])
}

fn u64_at(header: &[u8], offset: usize) -> u64
    requires { offset + 8 ≤ length header.now }
    ensures { result ≡ little_number 8 (drop offset header.now) }
{
    LittleEndian::read_u64(&header[offset..])
}
