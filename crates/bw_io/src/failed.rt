//! The error of an I/O device.
use thiserror::Error;

/// A read or a write failed, and the device has counted it.
#[derive(Clone, Copy, Debug, PartialEq, Eq, Error)]
#[error("device failed")]
pub struct Failed;
