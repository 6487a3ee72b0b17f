//! The tables of the parameter sets: each field's number, its descriptor and its value (Rec. ITU-T H.265, 7.3.2, 7.3.3 and E.2.1).

use bit_string::{Descriptor, Field};

macro_rules! u {
    ($number:expr, $width:expr, $value:expr) => {
        Field { number: $number, coding: Descriptor::U($width), value: $value }
    };
}

macro_rules! ue {
    ($number:expr, $value:expr) => {
        Field { number: $number, coding: Descriptor::Ue, value: $value }
    };
}

// A table with a profile_tier_level in it, all of which is one field (7.3.3).
macro_rules! around_profile_tier_level {
    ($number:expr; [$($front:expr,)*] [$($back:expr,)*]) => {
        [
            $($front,)*
            // general_profile_space
            u!($number, 2, 0),
            // general_tier_flag
            u!($number, 1, 1),
            // general_profile_idc: the format range extensions profiles
            u!($number, 5, 4),
            // general_profile_compatibility_flag: that of 4 alone
            u!($number, 32, 0x0800_0000),
            // general_progressive_source_flag
            u!($number, 1, 1),
            // general_interlaced_source_flag
            u!($number, 1, 0),
            // general_non_packed_constraint_flag
            u!($number, 1, 1),
            // general_frame_only_constraint_flag
            u!($number, 1, 1),
            // general_max_12bit_constraint_flag
            u!($number, 1, 1),
            // general_max_10bit_constraint_flag
            u!($number, 1, 1),
            // general_max_8bit_constraint_flag
            u!($number, 1, 1),
            // general_max_422chroma_constraint_flag
            u!($number, 1, 0),
            // general_max_420chroma_constraint_flag
            u!($number, 1, 0),
            // general_max_monochrome_constraint_flag
            u!($number, 1, 0),
            // general_intra_constraint_flag
            u!($number, 1, 0),
            // general_one_picture_only_constraint_flag
            u!($number, 1, 0),
            // general_lower_bit_rate_constraint_flag
            u!($number, 1, 1),
            // general_reserved_zero_34bits and general_inbld_flag
            u!($number, 35, 0),
            // general_level_idc: level 5.2
            u!($number, 8, 156),
            $($back,)*
        ]
    };
}

/// The video parameter set (7.3.2.1).
pub static VPS: [Field; 34] = around_profile_tier_level! {
    8;
    [
        // vps_video_parameter_set_id
        u!(1, 4, 0),
        // vps_base_layer_internal_flag
        u!(2, 1, 1),
        // vps_base_layer_available_flag
        u!(3, 1, 1),
        // vps_max_layers_minus1
        u!(4, 6, 0),
        // vps_max_sub_layers_minus1
        u!(5, 3, 0),
        // vps_temporal_id_nesting_flag
        u!(6, 1, 1),
        // vps_reserved_0xffff_16bits
        u!(7, 16, 65535),
    ]
    [
        // vps_sub_layer_ordering_info_present_flag
        u!(9, 1, 1),
        // vps_max_dec_pic_buffering_minus1
        ue!(10, 1),
        // vps_max_num_reorder_pics
        ue!(11, 0),
        // vps_max_latency_increase_plus1
        ue!(12, 0),
        // vps_max_layer_id
        u!(13, 6, 0),
        // vps_num_layer_sets_minus1
        ue!(14, 0),
        // vps_timing_info_present_flag
        u!(15, 1, 0),
        // vps_extension_flag
        u!(16, 1, 0),
    ]
};

/// The sequence parameter set up to the picture's size (7.3.2.2).
pub static SPS_FRONT: [Field; 25] = around_profile_tier_level! {
    4;
    [
        // sps_video_parameter_set_id
        u!(1, 4, 0),
        // sps_max_sub_layers_minus1
        u!(2, 3, 0),
        // sps_temporal_id_nesting_flag
        u!(3, 1, 1),
    ]
    [
        // sps_seq_parameter_set_id
        ue!(5, 0),
        // chroma_format_idc: 4:4:4
        ue!(6, 3),
        // separate_colour_plane_flag
        u!(7, 1, 0),
    ]
};

/// The sequence parameter set after the size, with the VUI (7.3.2.2, E.2.1).
pub static SPS_BACK: [Field; 48] = [
    // bit_depth_luma_minus8
    ue!(15, 0),
    // bit_depth_chroma_minus8
    ue!(16, 0),
    // log2_max_pic_order_cnt_lsb_minus4
    ue!(17, 4),
    // sps_sub_layer_ordering_info_present_flag
    u!(18, 1, 1),
    // sps_max_dec_pic_buffering_minus1
    ue!(19, 1),
    // sps_max_num_reorder_pics
    ue!(20, 0),
    // sps_max_latency_increase_plus1
    ue!(21, 0),
    // log2_min_luma_coding_block_size_minus3
    ue!(22, 0),
    // log2_diff_max_min_luma_coding_block_size
    ue!(23, 2),
    // log2_min_luma_transform_block_size_minus2
    ue!(24, 0),
    // log2_diff_max_min_luma_transform_block_size
    ue!(25, 3),
    // max_transform_hierarchy_depth_inter
    ue!(26, 0),
    // max_transform_hierarchy_depth_intra
    ue!(27, 0),
    // scaling_list_enabled_flag
    u!(28, 1, 0),
    // amp_enabled_flag
    u!(29, 1, 0),
    // sample_adaptive_offset_enabled_flag
    u!(30, 1, 0),
    // pcm_enabled_flag
    u!(31, 1, 1),
    // pcm_sample_bit_depth_luma_minus1
    u!(32, 4, 7),
    // pcm_sample_bit_depth_chroma_minus1
    u!(33, 4, 7),
    // log2_min_pcm_luma_coding_block_size_minus3
    ue!(34, 0),
    // log2_diff_max_min_pcm_luma_coding_block_size
    ue!(35, 2),
    // pcm_loop_filter_disabled_flag
    u!(36, 1, 1),
    // num_short_term_ref_pic_sets
    ue!(37, 1),
    // num_negative_pics
    ue!(38, 1),
    // num_positive_pics
    ue!(39, 0),
    // delta_poc_s0_minus1
    ue!(40, 0),
    // used_by_curr_pic_s0_flag
    u!(41, 1, 1),
    // long_term_ref_pics_present_flag
    u!(42, 1, 0),
    // sps_temporal_mvp_enabled_flag
    u!(43, 1, 0),
    // strong_intra_smoothing_enabled_flag
    u!(44, 1, 0),
    // vui_parameters_present_flag
    u!(45, 1, 1),
    // aspect_ratio_info_present_flag
    u!(46, 1, 0),
    // overscan_info_present_flag
    u!(47, 1, 0),
    // video_signal_type_present_flag
    u!(48, 1, 1),
    // video_format
    u!(49, 3, 5),
    // video_full_range_flag
    u!(50, 1, 1),
    // colour_description_present_flag
    u!(51, 1, 1),
    // colour_primaries
    u!(52, 8, 1),
    // transfer_characteristics
    u!(53, 8, 13),
    // matrix_coeffs: the components are G, B and R
    u!(54, 8, 0),
    // chroma_loc_info_present_flag
    u!(55, 1, 0),
    // neutral_chroma_indication_flag
    u!(56, 1, 0),
    // field_seq_flag
    u!(57, 1, 0),
    // frame_field_info_present_flag
    u!(58, 1, 0),
    // default_display_window_flag
    u!(59, 1, 0),
    // vui_timing_info_present_flag
    u!(60, 1, 0),
    // bitstream_restriction_flag
    u!(61, 1, 0),
    // sps_extension_present_flag
    u!(62, 1, 0),
];

/// The picture parameter set before dependent_slice_segments_enabled_flag (7.3.2.3).
pub static PPS_FRONT: [Field; 2] = [
    // pps_pic_parameter_set_id
    ue!(1, 0),
    // pps_seq_parameter_set_id
    ue!(2, 0),
];

/// The picture parameter set behind dependent_slice_segments_enabled_flag, which is field 3.
pub static PPS_BACK: [Field; 27] = [
    // output_flag_present_flag
    u!(4, 1, 0),
    // num_extra_slice_header_bits
    u!(5, 3, 0),
    // sign_data_hiding_enabled_flag
    u!(6, 1, 0),
    // cabac_init_present_flag
    u!(7, 1, 0),
    // num_ref_idx_l0_default_active_minus1
    ue!(8, 0),
    // num_ref_idx_l1_default_active_minus1
    ue!(9, 0),
    // init_qp_minus26, se(v)
    ue!(10, 0),
    // constrained_intra_pred_flag
    u!(11, 1, 0),
    // transform_skip_enabled_flag
    u!(12, 1, 0),
    // cu_qp_delta_enabled_flag
    u!(13, 1, 0),
    // pps_cb_qp_offset, se(v)
    ue!(14, 0),
    // pps_cr_qp_offset, se(v)
    ue!(15, 0),
    // pps_slice_chroma_qp_offsets_present_flag
    u!(16, 1, 0),
    // weighted_pred_flag
    u!(17, 1, 0),
    // weighted_bipred_flag
    u!(18, 1, 0),
    // transquant_bypass_enabled_flag
    u!(19, 1, 1),
    // tiles_enabled_flag
    u!(20, 1, 0),
    // entropy_coding_sync_enabled_flag
    u!(21, 1, 1),
    // pps_loop_filter_across_slices_enabled_flag
    u!(22, 1, 0),
    // deblocking_filter_control_present_flag
    u!(23, 1, 1),
    // deblocking_filter_override_enabled_flag
    u!(24, 1, 0),
    // pps_deblocking_filter_disabled_flag
    u!(25, 1, 1),
    // pps_scaling_list_data_present_flag
    u!(26, 1, 0),
    // lists_modification_present_flag
    u!(27, 1, 0),
    // log2_parallel_merge_level_minus2
    ue!(28, 0),
    // slice_segment_header_extension_present_flag
    u!(29, 1, 0),
    // pps_extension_present_flag
    u!(30, 1, 0),
];
