//! Reasons for refusing a parcel.

use crate::parcel::Parcel;
use thiserror::Error;

/// The frame's source and the target tab are in different partitions.
#[derive(Clone, Copy, Debug, PartialEq, Eq, Error)]
#[error("CrossPartition")]
pub struct CrossPartition;

/// The outbox was full. Contains the parcel that was not put.
#[derive(Drop)]
pub struct Full(pub Parcel);
