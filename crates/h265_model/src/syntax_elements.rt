//! The syntax elements of slice data whose bins have contexts (7.3.8): of each the number of its first context variable among the 130 of a slice
//! (9.3.2.2, Table 9-4), and how many it has. Where there are several, ctxInc is added (9.3.4.2). No other place says such a number.

/// Of the coding quadtree (7.3.8.4): 3 contexts, by how many neighbours are deeper (9.3.4.2.2).
pub const SPLIT_CU_FLAG: u32 = 1;

/// Of a coding unit (7.3.8.5): 1 context.
pub const CU_TRANSQUANT_BYPASS_FLAG: u32 = 0;
/// Of a coding unit: 3 contexts, by how many neighbours are skipped (9.3.4.2.2).
pub const CU_SKIP_FLAG: u32 = 4;
/// Of a coding unit: 1 context.
pub const PRED_MODE_FLAG: u32 = 7;
/// Of a coding unit: the context of its first bin, the only one that occurs.
pub const PART_MODE: u32 = 8;
/// Of a coding unit: 1 context.
pub const PREV_INTRA_LUMA_PRED_FLAG: u32 = 9;
/// Of a coding unit: the context of its first bin, the only one that occurs.
pub const INTRA_CHROMA_PRED_MODE: u32 = 10;
/// Of a coding unit: 1 context.
pub const RQT_ROOT_CBF: u32 = 129;

/// Of a prediction unit (7.3.8.6): 1 context.
pub const MERGE_FLAG: u32 = 125;
/// Of a prediction unit: 1 context.
pub const MVP_L0_FLAG: u32 = 126;
/// Of a vector difference (7.3.8.9): 1 context.
pub const ABS_MVD_GREATER0_FLAG: u32 = 127;
/// Of a vector difference: 1 context.
pub const ABS_MVD_GREATER1_FLAG: u32 = 128;

/// Of the transform tree (7.3.8.8): the context at trafoDepth 0, the only one that occurs.
pub const CBF_LUMA: u32 = 11;
/// Of the transform tree: the context at trafoDepth 0, the only one that occurs.
pub const CBF_CB: u32 = 12;
/// Of the transform tree: that of cbf_cb.
pub const CBF_CR: u32 = 12;

/// Of a residual (7.3.8.11): 18 contexts (9.3.4.2.3).
pub const LAST_SIG_COEFF_X_PREFIX: u32 = 13;
/// Of a residual: 18 contexts (9.3.4.2.3).
pub const LAST_SIG_COEFF_Y_PREFIX: u32 = 31;
/// Of a residual: 4 contexts (9.3.4.2.4).
pub const CODED_SUB_BLOCK_FLAG: u32 = 49;
/// Of a residual: 42 contexts, of which chroma has those from 27 on (9.3.4.2.5).
pub const SIG_COEFF_FLAG: u32 = 53;
/// Of a residual: 24 contexts (9.3.4.2.6).
pub const COEFF_ABS_LEVEL_GREATER1_FLAG: u32 = 95;
/// Of a residual: 6 contexts (9.3.4.2.7).
pub const COEFF_ABS_LEVEL_GREATER2_FLAG: u32 = 119;
