//! The one text of an image, from which `read_image` of [`tm_image`] reads the image back, but for the digest
//! of its file.
//!
//! [`image_text`] appends it: the header, the tasks each with its text and its data words, the resources,
//! alarms, boxes and lines each rising, and the capacities of a recorder's buffers.
//!
//! ```text
//! tmi 1
//! task 0 basic 1 auto 0 1
//! text 0 00200893 00000073
//! ring control 256
//! ring data 256
//! ring outputs 256
//! ring checks 4
//! ```
#![tactic(auto)]

mod examples;
mod laws;
mod lines;
mod text;
mod words;

pub use examples::text_examples;
pub use laws::{images_are_read_back, read_images_fit};
pub use text::image_text;
