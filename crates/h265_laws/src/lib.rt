//! Laws over the definitions of `h265_model`. Each function does nothing: its clause is the law.
#![tactic(auto)]

ghost use Rattle.h265_laws.specs.Laws.{EachCodeIsRead, EachNalUnitIsRead, EachSizeIsRead, EachSizeIsSpelled, EachHeadIsRead, EachHeadIsSpelled, EachEscapeIsUndone, EachSubstreamIsCut, EachListIsReadBack, EachTruncatedCodeIsRead, EachFixedCodeIsRead, EachGolombCodeIsRead, EachRemainingLevelIsRead, EachModeIsRead, EachBlockIsRead, EachChoiceIsLawful, EachPictureIsSource, EachRowIsWellFormed, EachRowIsSubstream, EachRasterIsCropped, EachPrefixIsKept, EachScheduleGivesTheBytes};

/// Each Exp-Golomb code is read back.
pub fn each_code_is_read()
    ensures { EachCodeIsRead }
{}

/// Each list of NAL units is read back.
pub fn each_nal_unit_is_read()
    ensures { EachNalUnitIsRead }
{}

/// Each size is read back from its parameter sets, with whether a picture has a segment for each row.
pub fn each_size_is_read()
    ensures { EachSizeIsRead }
{}

/// Nothing but its parameter sets is read as a size, with or without a segment for each row.
pub fn each_size_is_spelled()
    ensures { EachSizeIsSpelled }
{}

/// Each slice header is read back.
pub fn each_head_is_read()
    ensures { EachHeadIsRead }
{}

/// Nothing but its spelling is read as a slice header.
pub fn each_head_is_spelled()
    ensures { EachHeadIsSpelled }
{}

/// Bytes are read back from after their emulation prevention.
pub fn each_escape_is_undone()
    ensures { EachEscapeIsUndone }
{}

/// Each substream is cut off by its entry point.
pub fn each_substream_is_cut()
    ensures { EachSubstreamIsCut }
{}

/// What is coded is read back, whatever follows the code.
pub fn each_list_is_read_back()
    ensures { EachListIsReadBack }
{}

/// Each truncated Rice code is read back.
pub fn each_truncated_code_is_read()
    ensures { EachTruncatedCodeIsRead }
{}

/// Each fixed-length code is read back.
pub fn each_fixed_code_is_read()
    ensures { EachFixedCodeIsRead }
{}

/// Each Exp-Golomb code among the bins of slice data is read back.
pub fn each_golomb_code_is_read()
    ensures { EachGolombCodeIsRead }
{}

/// Each remaining level is read back.
pub fn each_remaining_level_is_read()
    ensures { EachRemainingLevelIsRead }
{}

/// Each intra mode is read back.
pub fn each_mode_is_read()
    ensures { EachModeIsRead }
{}

/// Each block of levels is read back.
pub fn each_block_is_read()
    ensures { EachBlockIsRead }
{}

/// The leaves that are chosen are a lawful tree.
pub fn each_choice_is_lawful()
    ensures { EachChoiceIsLawful }
{}

/// Predictions are samples, so the levels of each picture can be written.
pub fn each_picture_is_source()
    ensures { EachPictureIsSource }
{}

/// The items of each row are well formed.
pub fn each_row_is_well_formed()
    ensures { EachRowIsWellFormed }
{}

/// The bytes of each row can be a substream.
pub fn each_row_is_substream()
    ensures { EachRowIsSubstream }
{}

/// Each raster is cut out of its coded picture.
pub fn each_raster_is_cropped()
    ensures { EachRasterIsCropped }
{}

/// Pieces of a list of pictures begin those of a longer one.
pub fn each_prefix_is_kept()
    ensures { EachPrefixIsKept }
{}

/// However the rows of a wave are scheduled, each finishes with its bytes.
pub fn each_schedule_gives_the_bytes()
    ensures { EachScheduleGivesTheBytes }
{}
