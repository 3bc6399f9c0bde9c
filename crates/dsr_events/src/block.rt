//! A block: one resource, its works and its usages.
ghost use Rattle.std.specs.Prelude.{◌≡◌, ◌≤◌, ◌+◌, length};
ghost use Rattle.dsr_events.specs.layer.Blocks.{empty_block};

use crate::record::{Resource, Usage, Work};
use dsr_cells::Text;
use dsr_texts::InlineItems;
use std::alloc::Global;
use std::default::MadeWith;
use std::marker::Model;

/// A list of works.
pub type WorkList = InlineItems<Work, 1>;

/// A list of usages.
pub type UsageList = InlineItems<Usage, 4>;

/// The records of one resource, at most 64.
pub struct Block {
    /// BlockId, which all its records have: 1 to 32 bytes of printable ASCII; empty in an empty block.
    pub id: Text,
    /// The resource that was used.
    pub resource: Resource,
    /// The works of the resource, in the order of their lines.
    pub works: WorkList,
    /// The usages, in the order of their lines.
    pub usages: UsageList,
}

/// Written out, so that dropping one is a call: a derived drop is proved anew wherever it happens.
impl Drop for Block {
    fn drop(self) {
        let Block {
            id: _,
            resource: _,
            works: _,
            usages: _,
        } = self;
    }
}

impl Model for Block {
    ghost use Rattle.std.specs.Prelude.{◌≤◌, ◌+◌, length};
    ghost use Rattle.dsr_events.specs.meaning.Blocks.{BlockParts};

    ghost Value = { BlockParts };

    ghost view = { λ a. record {
      id = a.id;
      resource = a.resource;
      works = a.works;
      usages = a.usages;
    } };

    ghost invariant = { λ a. 1 + length a.works + length a.usages ≤ 64 };
}

impl Block {
    /// A block of an empty resource, to be overwritten. Nothing is allocated.
    pub fn empty(alloc: Global) -> Block
        ensures { result ≡ empty_block }
    {
        Block {
            id: Text::default(),
            resource: Resource::made_with(alloc),
            works: WorkList::new(alloc),
            usages: UsageList::new(alloc),
        }
    }

    /// The number of records, including the resource: 1 to 64.
    pub fn len(&self) -> usize
        ensures value { result ≡ 1 + length self.now.works + length self.now.usages }
        ensures bound { result ≤ 64 }
    {
        1 + self.works.len() + self.usages.len()
    }
}
