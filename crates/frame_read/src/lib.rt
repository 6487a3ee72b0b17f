//! Frames read one after another: binary PPM images, as `ffmpeg -f image2pipe -c:v ppm` and many other programs write them.
#![tactic(auto)]

mod error;
mod frame;
mod head;
mod input;
mod laws;
mod number;
mod pixels;
mod source;

pub use error::{Flaw, FrameError, HeadNumber};
pub use frame::{read_first, read_frame};
pub use h265_model::NoMemory;
pub use head::read_head;
pub use input::InputSource;
pub use laws::{each_frame_is_read, each_list_is_read};
pub use pixels::read_pixels;
pub use source::{ReadFailed, Source};

#[cfg(test)]
mod tests;
