//! Laws over the definitions of `recorder_model`. Each function does nothing: its clause is the law.
#![tactic(auto)]

ghost use Rattle.recorder_laws.specs.Laws.{EachPictureIsRaster};

/// The pictures of a script are rasters of its size.
pub fn each_picture_is_raster()
    ensures { EachPictureIsRaster }
{}
