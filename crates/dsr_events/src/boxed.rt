//! A block on the heap.
ghost use Rattle.std.specs.Prelude.{◌≡◌, IfOk};
ghost use Rattle.dsr_events.specs.layer.Blocks.{empty_block};

use crate::block::Block;
use dsr_cells::NoMemory;
use std::alloc::Global;
use std::boxed::Box;
use std::marker::Model;
use std::mem;

/// A block on the heap, which is moved and exchanged by its address. Contracts see it as the block.
#[derive(Drop)]
pub struct BoxedBlock {
    block: Box<Block>,
}

impl Model for BoxedBlock {
    ghost use Rattle.dsr_events.specs.meaning.Blocks.{BlockParts};

    ghost Value = { BlockParts };

    ghost view = { λ b. b.block.value };
}

impl BoxedBlock {
    ghost use Rattle.std.specs.Borrow.{sem};
    ghost use Rattle.dsr_events.specs.inner.Boxes.{lends_block};

    /// A block of an empty resource, to be overwritten.
    ///
    /// # Errors
    ///
    /// `NoMemory`: out of memory for the block.
    pub fn empty(alloc: Global) -> Result<BoxedBlock, NoMemory>
        ensures { IfOk result (λ b. b ≡ empty_block) }
    {
        Ok(BoxedBlock {
            block: Box::new(alloc, Block::empty(alloc))?,
        })
    }

    /// The block.
    #[inline(always)]
    pub fn get(&self) -> &Block
        ensures { result.now ≡ self.now }
    {
        &self.block
    }

    /// The block, for writing.
    #[inline(always)]
    pub fn get_mut(&mut self) -> &mut Block
        ensures* writes_back { sem 𝓛 (lends_block self.entry result) }
        ensures value { result.now ≡ self.old }
    {
        &mut self.block
    }

    /// Overwrites the block, and returns the old one.
    pub fn replace(&mut self, block: Block) -> Block
        ensures new { self.new ≡ block }
        ensures old { result ≡ self.old }
    {
        mem::replace(&mut *self.block, block)
    }
}
