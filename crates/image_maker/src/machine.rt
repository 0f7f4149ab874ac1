//! Where the machine of a made image stands in memory.
ghost use Rattle.std.specs.Prelude.{◌≡◌, ◌+◌, ◌*◌, ◌≤◌, ◌<◌};
ghost use Rattle.image_maker.specs.Machine.{task_count, has_five_levels, start, block, memory_size, shifted_pages, physical_at, virtual_at};

// Where the kernel stands where nothing shifts it.
const LINK_BASE: u64 = 0xffff_ffff_8000_0000;

pub(crate) const LARGE_PAGE: u64 = 0x20_0000;

pub(crate) fn task_count(number: u64) -> u64
    requires { number ≤ 64 }
    ensures { result ≡ task_count number }
{
    48 * number
}

pub(crate) fn has_five_levels(number: u64) -> bool
    ensures { result ≡ has_five_levels number }
{
    number % 2 == 0
}

// Where the machine's memory starts.
pub(crate) fn start(number: u64) -> u64
    ensures { result ≡ start number }
{
    LARGE_PAGE * (1 + number % 16)
}

// The offset of a task's block.
pub(crate) fn block(index: u64) -> usize
    requires { index ≤ 4096 }
    ensures { result ≡ block index }
{
    0x10_0000 + 0x8000 * index as usize
}

pub(crate) fn memory_size(number: u64) -> usize
    requires { number ≤ 64 }
    ensures { result ≡ memory_size number }
{
    block(task_count(number) + 1)
}

// How many large pages the kernel is shifted by.
pub(crate) fn shifted_pages(number: u64) -> u64
    requires { number ≤ 64 }
    ensures { result ≡ shifted_pages number }
{
    7 * number % 16
}

// The physical address of an offset.
#[tactic(auto, unfolding(crate::specs::Machine::physical_at))]
pub(crate) fn physical_at(number: u64, offset: usize) -> u64
    requires { offset < 0x10000000 }
    ensures { result ≡ physical_at number offset }
{
    start(number) + offset as u64
}

// The address of an offset in the kernel's space.
#[tactic(auto, unfolding(crate::specs::Machine::virtual_at))]
pub(crate) fn virtual_at(number: u64, offset: usize) -> u64
    requires number { number ≤ 64 }
    requires offset { offset < 0x10000000 }
    ensures { result ≡ virtual_at number offset }
{
    LINK_BASE + LARGE_PAGE * shifted_pages(number) + offset as u64
}
