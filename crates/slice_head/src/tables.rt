//! The fixed fields of the slice segment header (7.3.6.1).
ghost use Rattle.std.specs.Prelude.{◌≡◌, IsTrue};
ghost use Rattle.h265_model.specs.SliceHead.{head_front, head_middle};
ghost use Rattle.slice_head.specs.Answers.{dependent_front};
ghost use Rattle.bit_string.specs.Tables.{fields_of, all_wide, all_writable};

use bit_string::{Descriptor, Field};

macro_rules! u {
    ($number:expr, $width:expr, $value:expr) => {
        Field { number: $number, coding: Descriptor::U($width), value: $value }
    };
}

macro_rules! ue {
    ($number:expr, $value:expr) => {
        Field { number: $number, coding: Descriptor::Ue, value: $value }
    };
}

static IDR_FRONT: [Field; 4] = [
    // first_slice_segment_in_pic_flag
    u!(1, 1, 1),
    // no_output_of_prior_pics_flag
    u!(2, 1, 0),
    // slice_pic_parameter_set_id
    ue!(3, 0),
    // slice_type: I
    ue!(4, 2),
];

static FRONT: [Field; 3] = [
    // first_slice_segment_in_pic_flag
    u!(1, 1, 1),
    // slice_pic_parameter_set_id
    ue!(3, 0),
    // slice_type: P
    ue!(4, 1),
];

static IDR_MIDDLE: [Field; 1] = [
    // slice_qp_delta, se(v)
    ue!(9, 0),
];

static MIDDLE: [Field; 4] = [
    // short_term_ref_pic_set_sps_flag
    u!(6, 1, 1),
    // num_ref_idx_active_override_flag
    u!(7, 1, 0),
    // five_minus_max_num_merge_cand
    ue!(8, 4),
    // slice_qp_delta, se(v)
    ue!(9, 0),
];

static IDR_DEPENDENT: [Field; 4] = [
    // first_slice_segment_in_pic_flag
    u!(1, 1, 0),
    // no_output_of_prior_pics_flag
    u!(2, 1, 0),
    // slice_pic_parameter_set_id
    ue!(3, 0),
    // dependent_slice_segment_flag
    u!(4, 1, 1),
];

static DEPENDENT: [Field; 3] = [
    // first_slice_segment_in_pic_flag
    u!(1, 1, 0),
    // slice_pic_parameter_set_id
    ue!(3, 0),
    // dependent_slice_segment_flag
    u!(4, 1, 1),
];

/// The fields up to slice_type.
pub fn front(idr: bool) -> &'static [Field]
    ensures fields { fields_of result.now ≡ head_front idr }
    ensures writable { IsTrue (all_writable (fields_of result.now)) }
    ensures wide { IsTrue (all_wide (fields_of result.now)) }
{
    if idr { &IDR_FRONT } else { &FRONT }
}

/// The fields after slice_pic_order_cnt_lsb, up to slice_qp_delta.
pub fn middle(idr: bool) -> &'static [Field]
    ensures fields { fields_of result.now ≡ head_middle idr }
    ensures writable { IsTrue (all_writable (fields_of result.now)) }
    ensures wide { IsTrue (all_wide (fields_of result.now)) }
{
    if idr { &IDR_MIDDLE } else { &MIDDLE }
}

/// The fields of a dependent segment before slice_segment_address.
pub fn dependent_front(idr: bool) -> &'static [Field]
    ensures fields { fields_of result.now ≡ dependent_front idr }
    ensures writable { IsTrue (all_writable (fields_of result.now)) }
    ensures wide { IsTrue (all_wide (fields_of result.now)) }
{
    if idr { &IDR_DEPENDENT } else { &DEPENDENT }
}
