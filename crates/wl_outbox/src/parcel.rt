//! Parcels: frames with their tab and partition.

ghost use Rattle.std.specs.Prelude.{◌≡◌, ◌≢◌, IfOk, OnOk, OnErr};
ghost use Rattle.wl_outbox.specs.Parcels.{packed};

use crate::fault::CrossPartition;
use std::marker::Model;
use wl_grammar::Frame;

/// A frame on its way to a tab, from a source in the tab's partition.
#[derive(Drop)]
pub struct Parcel {
    partition: u16,
    tab: u16,
    frame: Frame,
}

impl Model for Parcel {
    ghost use Rattle.wl_outbox.specs.Parcels.{Packed, packed};

    ghost Value = { Packed };

    ghost view = { λ p. packed p.partition p.tab p.frame };
}

impl Parcel {
    /// Creates a parcel. Fails with `CrossPartition` if the partitions of source and target differ.
    pub fn new(
        source_partition: u16,
        target_partition: u16,
        tab: u16,
        frame: Frame,
    ) -> Result<Parcel, CrossPartition>
        ensures parcel { IfOk result (λ p. p ≡ packed source_partition tab frame) }
        ensures allowed { OnOk result (source_partition ≡ target_partition) }
        ensures refused { OnErr result (source_partition ≢ target_partition) }
    {
        if source_partition != target_partition {
            return Err(CrossPartition);
        }
        Ok(Parcel {
            partition: target_partition,
            tab,
            frame,
        })
    }

    /// Returns the partition of the source, which is also the tab's.
    pub fn partition(&self) -> u16
        ensures { result ≡ self.now.partition }
    {
        self.partition
    }

    /// Returns the tab that the parcel is for.
    pub fn tab(&self) -> u16
        ensures { result ≡ self.now.tab }
    {
        self.tab
    }

    /// Returns the frame.
    pub fn frame(&self) -> &Frame
        ensures { result.now ≡ self.now.frame }
    {
        &self.frame
    }

    /// Consumes the parcel and returns its frame.
    pub fn into_frame(self) -> Frame
        ensures { result ≡ self.frame }
    {
        self.frame
    }
}
