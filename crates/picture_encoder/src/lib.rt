//! The pictures of a recording as NAL units (Rec. ITU-T H.265, 7.3.1 and 7.3.8), one after another.
#![tactic(auto)]

ghost use Rattle.picture_encoder.specs.Laws.{EachPictureFollows};

mod at_once;
mod before;
mod encoder;
mod history;
mod order;
mod picture;
mod planning;
mod rows;
mod tiles;

pub use encoder::Encoder;
pub use h265_model::{Extra, NoMemory};
pub use history::{Begun, History};
pub use planning::{Task, plan_unit};
pub use px_plane::{Job, Size};
pub use rows::picture_fits;

/// A stream has the NAL units of one picture more as one piece more, whatever it has besides pictures.
pub fn each_picture_follows()
    ensures { EachPictureFollows }
{}
