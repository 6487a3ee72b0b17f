//! Paint scripts: reading them, writing them, and keeping them.
//!
//! A script is a list of lines of ASCII, each ended by a line feed:
//!
//! - `fill X Y W H RRGGBB` paints a rectangle with one colour,
//! - `blit X Y W H HEX` paints `W * H` pixels in rows from the top, each as `RRGGBB`,
//! - `cut` asks for a picture.
//!
//! A file whose first line is `paint 2` is of version 2. Its script begins with the second line, and may have one more kind of
//! line: `copy X Y W H DX DY` copies what the rectangle at X, Y shows to the one of the same sides at DX, DY.
//!
//! One space parts the words. Numbers are decimal, without leading zeros, and at most 65535; sides are at least 1, and
//! a `blit` has at most 4096 pixels. Hexadecimal digits are `0` to `9` and `a` to `f`.
#![tactic(auto)]

mod colour;
mod laws;
mod line;
mod number;
mod read;
mod script;
mod scripts;
mod split;
#[cfg(test)]
mod tests;
mod write;

pub use laws::each_script_is_read_back;
pub use number::number_up_to;
pub use read::{ScriptError, read_script};
pub use script::Script;
pub use scripts::{AddError, Scripts};
pub use write::write_script;
