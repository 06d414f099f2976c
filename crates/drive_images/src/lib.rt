//! The image of a drive: all that it holds, as bytes that a file keeps.
//!
//! ```text
//! let mut image = Vec::new(alloc);
//! write_image(&drive, &mut image)?;
//! let again = read_image(alloc, &mut image.as_slice())?; // a drive with the same zones
//! ```
//!
//! An image is a head of 64 bytes with the geometry, and then each zone in order: 8 bytes with its state and the
//! number of its written blocks, and these blocks. Nothing follows. So each drive has one image (`specs/Image.antt`).
//!
//! # What is promised
//!
//! * [`write_image`] writes the image, straight from the zones, and after a fault a beginning of it. It allocates
//!   nothing.
//! * [`read_image`] accepts the images of drives and no other bytes. It gives the drive, which has completed no
//!   command. It reads a zone at a time, straight into its place, so that it holds no copy of the file.
//! * [`read_image_front`] reads an image that other bytes follow, and leaves the reader behind it.
//! * Other bytes are refused by the first fault in them, from the first byte on (`specs/Reading.antt`). Before that
//!   fault is met, the reader may fail or memory may run out. [`image_fault_line`] is the line that tells it.
//! * No image has a fault. No bytes are the images of two drives, or have two first faults. Bytes begin with one image
//!   at most (`laws`).
//!
//! # What is not proved
//!
//! * That `Input` comes only if the reader failed.
//! * That an image is read and written once, to its end, is tested; so are readers and writers that fail, and images
//!   that are cut or changed.
//!
//! Tests: the rows of `worked_runs`, and `images.rt` of `job_tests`.
#![tactic(auto)]

mod counts;
mod fault;
mod fault_line;
mod fill;
mod head;
pub mod laws;
mod length;
mod read;
mod write;
mod zone;
mod zone_head;

pub use fault::ImageFault;
pub use fault_line::image_fault_line;
pub use length::image_length;
pub use read::{SavedZones, read_image, read_image_front};
pub use write::write_image;
