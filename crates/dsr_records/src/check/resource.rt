//! AS01: the resource of a block.
ghost use Rattle.std.specs.Prelude.{◌≡◌, Ok, Err, MatchResult, IfOk, OnOk};
ghost use Rattle.dsr_events.specs.declared.kinds.Kind.TheVariants as kinds;
ghost use Rattle.dsr_events.specs.declared.record.Record.TheVariants as records;
ghost use Rattle.dsr_events.specs.layer.Blocks.{OpensBlock};
ghost use Rattle.dsr_records.specs.meaning.Values.{record_by_row};

use crate::fault::RecordFault;
use crate::row::Row;
use crate::spelled::read_identifier;
use dsr_cells::{NoMemory, read_texts_into};
use dsr_events::{Block, Column, Resource};
use std::alloc::Global;
use std::default::MadeWith;
use std::marker::Model;

/// A resource whose texts and list cells are borrowed from its line. Contracts see it as the resource.
#[derive(Drop)]
pub struct ResourceLine<'l> {
    pub(crate) block_id: &'l str,
    pub(crate) isrc: &'l str,
    pub(crate) titles: &'l str,
    pub(crate) artists: &'l str,
}

impl<'l> Model for ResourceLine<'l> {
    ghost use Rattle.dsr_events.specs.declared.record.Resource.{Resource as ResourceRecord};
    ghost use Rattle.dsr_records.specs.meaning.Values.{values_of};

    ghost Value = { ResourceRecord };

    ghost view = { λ r. record {
      block_id = r.block_id.now;
      isrc = r.isrc.now;
      titles = values_of r.titles.now;
      artists = values_of r.artists.now;
    } };
}

/// The resource that a row spells, or its first fault.
#[inline(always)]
pub(crate) fn check_resource<'l>(row: &Row<'_, 'l>) -> Result<ResourceLine<'l>, RecordFault>
    ensures { MatchResult result
        (λ r. record_by_row row.now kinds.Resource ≡ Ok (records.Resource r))
        (λ fault. record_by_row row.now kinds.Resource ≡ Err fault) }
{
    Ok(ResourceLine {
        block_id: read_identifier(row, 0, Column::BlockId, 32)?,
        isrc: row.text(1),
        titles: row.text(2),
        artists: row.text(3),
    })
}

impl<'l> ResourceLine<'l> {
    /// The resource, with its texts copied.
    pub(crate) fn read(&self, alloc: Global) -> Result<Resource, NoMemory>
        ensures { IfOk result (λ r. r ≡ self.now) }
    {
        let mut resource = Resource::made_with(alloc);
        self.write(alloc, &mut resource)?;
        Ok(resource)
    }

    /// Writes the resource over another one.
    #[inline(always)]
    pub(crate) fn write(&self, alloc: Global, resource: &mut Resource) -> Result<(), NoMemory>
        ensures { OnOk result (resource.new ≡ self.now) }
    {
        resource.block_id.assign(alloc, self.block_id)?;
        resource.isrc.assign(alloc, self.isrc)?;
        read_texts_into(alloc, self.titles, &mut resource.titles)?;
        read_texts_into(alloc, self.artists, &mut resource.artists)
    }

    /// Writes a new block of the resource, without works and usages, over another one. If memory is refused, the block may have
    /// any value.
    pub(crate) fn open_block(&self, alloc: Global, block: &mut Block) -> Result<(), NoMemory>
        ensures { OnOk result (OpensBlock (records.Resource self.now) block.new) }
    {
        block.works.restart();
        block.usages.restart();
        block.id.assign(alloc, self.block_id)?;
        self.write(alloc, &mut block.resource)
    }
}
