//! What a run works with.
use crate::read::Page;
use crate::setup::Chunk;
use crate::symbol_file::SymbolFile;
use kernel_find::Found;
use layer_base::Layer;
use space_memory::Memory;
use std::alloc::Global;

/// What every line of a script works with: the memory of the image, the symbol file, how many bytes a search reads at
/// once, the page that reads and dumps fill, and what the search for the kernel came to, once a command needed it.
#[derive(Drop)]
pub(crate) struct Desk<'s, 't, Y: Layer> {
    pub(crate) alloc: Global,
    pub(crate) memory: Memory<Y>,
    pub(crate) file: SymbolFile<'s, 't>,
    pub(crate) chunk: Chunk,
    pub(crate) page: Page,
    pub(crate) found: Option<Found>,
}
