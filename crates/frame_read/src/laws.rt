//! What holds of the definitions.
ghost use Rattle.frame_read.specs.Laws.{EachFrameIsRead, EachListIsRead};

/// A frame as it is written is read as that frame, whatever follows it.
pub fn each_frame_is_read()
    ensures { EachFrameIsRead }
{}

/// A list of frames as they are written is read as these frames, up to the end.
pub fn each_list_is_read()
    ensures { EachListIsRead }
{}
