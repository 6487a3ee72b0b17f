//! Places and contexts, as an independent model of the format computes them.
use crate::{
    greater1_context, greater2_context, last_context, places, scan, scan_kind, sig_context,
    sub_block_context,
};
use std::test::Fail;

// A square of side 4 in each scan.
const SCANS_OF_4: [[(u32, u32); 16]; 3] = [
    [
        (0, 0),
        (0, 1),
        (1, 0),
        (0, 2),
        (1, 1),
        (2, 0),
        (0, 3),
        (1, 2),
        (2, 1),
        (3, 0),
        (1, 3),
        (2, 2),
        (3, 1),
        (2, 3),
        (3, 2),
        (3, 3),
    ],
    [
        (0, 0),
        (1, 0),
        (2, 0),
        (3, 0),
        (0, 1),
        (1, 1),
        (2, 1),
        (3, 1),
        (0, 2),
        (1, 2),
        (2, 2),
        (3, 2),
        (0, 3),
        (1, 3),
        (2, 3),
        (3, 3),
    ],
    [
        (0, 0),
        (0, 1),
        (0, 2),
        (0, 3),
        (1, 0),
        (1, 1),
        (1, 2),
        (1, 3),
        (2, 0),
        (2, 1),
        (2, 2),
        (2, 3),
        (3, 0),
        (3, 1),
        (3, 2),
        (3, 3),
    ],
];

// Some places of other sides: scan, base-2 logarithm, number, place.
const PLACES: [(u32, u32, u32, (u32, u32)); 10] = [
    (0, 1, 2, (1, 0)),
    (1, 1, 1, (1, 0)),
    (2, 1, 1, (0, 1)),
    (0, 3, 3, (0, 2)),
    (0, 3, 7, (1, 2)),
    (0, 3, 35, (7, 0)),
    (0, 3, 36, (1, 7)),
    (0, 3, 63, (7, 7)),
    (1, 3, 13, (5, 1)),
    (2, 3, 13, (1, 5)),
];

// Modes and sides, and their scan.
const KINDS: [(u32, u32, u32); 13] = [
    (0, 3, 0),
    (5, 3, 0),
    (6, 3, 2),
    (10, 3, 2),
    (14, 3, 2),
    (15, 3, 0),
    (21, 3, 0),
    (22, 3, 1),
    (26, 3, 1),
    (30, 3, 1),
    (31, 3, 0),
    (10, 4, 0),
    (26, 5, 0),
];

// Component, base-2 logarithm of the side, whether it is the y prefix, and the contexts of its bins.
const LAST: [(u32, u32, bool, &[u32]); 7] = [
    (0, 3, false, &[16, 16, 17, 17, 18]),
    (0, 3, true, &[34, 34, 35, 35, 36]),
    (0, 4, false, &[19, 19, 20, 20, 21, 21, 22]),
    (0, 5, true, &[41, 41, 42, 42, 43, 43, 44, 44, 45]),
    (1, 3, false, &[28, 28, 29, 29, 30]),
    (2, 4, true, &[46, 46, 46, 46, 47, 47, 47]),
    (1, 5, false, &[28, 28, 28, 28, 28, 28, 28, 28, 29]),
];

// Component, base-2 logarithm of the side and scan; sub-block; place in it; flags of the sub-blocks on the right and below; context.
const SIG: [((u32, u32, u32), (u32, u32), (u32, u32), (bool, bool), u32); 42] = [
    ((2, 4, 0), (0, 0), (0, 1), (true, true), 94),
    ((0, 4, 0), (0, 0), (3, 2), (true, false), 74),
    ((1, 3, 0), (0, 0), (0, 0), (true, true), 80),
    ((0, 3, 1), (0, 0), (1, 3), (true, true), 70),
    ((0, 3, 1), (0, 0), (2, 0), (true, false), 70),
    ((1, 5, 0), (0, 7), (1, 0), (true, false), 94),
    ((2, 4, 0), (0, 3), (3, 0), (true, false), 94),
    ((2, 3, 0), (0, 1), (2, 3), (true, false), 89),
    ((1, 4, 0), (0, 0), (2, 2), (false, true), 92),
    ((2, 5, 0), (1, 5), (1, 0), (false, false), 93),
    ((1, 4, 0), (0, 0), (0, 1), (false, true), 94),
    ((1, 4, 0), (0, 0), (3, 2), (false, true), 92),
    ((2, 5, 0), (2, 0), (3, 2), (true, false), 92),
    ((1, 3, 1), (0, 1), (3, 2), (true, true), 91),
    ((0, 3, 1), (0, 0), (0, 3), (true, false), 68),
    ((2, 4, 0), (0, 0), (2, 2), (false, true), 92),
    ((2, 5, 0), (4, 0), (3, 2), (true, true), 94),
    ((1, 5, 0), (5, 4), (3, 2), (false, true), 92),
    ((2, 4, 0), (2, 0), (1, 2), (false, true), 93),
    ((2, 3, 2), (0, 1), (2, 0), (true, false), 91),
    ((2, 5, 0), (0, 0), (3, 1), (true, false), 93),
    ((0, 4, 0), (1, 0), (3, 3), (true, false), 77),
    ((0, 5, 0), (0, 0), (2, 3), (false, false), 74),
    ((0, 5, 0), (0, 0), (2, 2), (false, true), 74),
    ((1, 3, 1), (1, 0), (1, 3), (false, false), 89),
    ((0, 5, 0), (1, 0), (0, 2), (false, false), 78),
    ((0, 4, 0), (3, 0), (3, 2), (true, false), 77),
    ((1, 3, 2), (1, 1), (3, 0), (true, false), 91),
    ((1, 4, 0), (1, 0), (3, 1), (true, false), 93),
    ((1, 3, 1), (0, 0), (1, 3), (true, true), 91),
    ((1, 4, 0), (3, 0), (1, 2), (true, false), 92),
    ((2, 4, 0), (0, 2), (1, 0), (true, false), 94),
    ((2, 3, 2), (0, 1), (3, 3), (true, false), 89),
    ((2, 3, 1), (0, 0), (3, 2), (false, true), 89),
    ((1, 3, 0), (1, 0), (3, 0), (true, true), 91),
    ((0, 3, 2), (0, 0), (3, 3), (true, false), 68),
    ((0, 5, 0), (0, 4), (1, 1), (false, true), 78),
    ((0, 3, 2), (0, 0), (0, 2), (true, false), 68),
    ((2, 4, 0), (0, 0), (2, 3), (true, false), 92),
    ((1, 3, 0), (0, 0), (2, 0), (false, true), 89),
    ((0, 3, 0), (0, 0), (0, 0), (true, true), 53),
    ((1, 4, 0), (0, 0), (0, 0), (true, true), 80),
];

// Component, set, counter and context.
const GREATER1: [(u32, u32, u32, u32); 8] = [
    (0, 0, 1, 96),
    (0, 2, 1, 104),
    (0, 3, 0, 107),
    (0, 1, 3, 102),
    (0, 2, 7, 106),
    (1, 0, 1, 112),
    (2, 1, 2, 117),
    (1, 1, 16, 118),
];

#[test]
fn gives_places(rt: HostRuntime) -> Result<(), Fail> {
    for kind in 0..3 {
        for index in 0..16 {
            assert_eq!(rt;
                scan(kind, 2, index),
                SCANS_OF_4[kind as usize][index as usize]
            );
        }
    }
    for (kind, log2, index, want) in PLACES {
        assert!(rt; kind < 3 && log2 >= 1 && log2 <= 3 && index < 4u32.pow(log2));
        assert_eq!(rt; scan(kind, log2, index), want);
    }
    assert_eq!(rt; places(2, 1), [(0, 0), (0, 1), (1, 0), (1, 1)].as_slice());
    Ok(())
}

#[test]
fn chooses_scans(rt: HostRuntime) -> Result<(), Fail> {
    for (mode, log2, want) in KINDS {
        assert_eq!(rt; scan_kind(mode, log2), want);
    }
    Ok(())
}

#[test]
fn numbers_contexts_of_the_last_place(rt: HostRuntime) -> Result<(), Fail> {
    for (component, log2, vertical, wants) in LAST {
        assert!(rt; component < 3 && log2 >= 3 && log2 <= 5 && wants.len() < 2 * log2 as usize);
        for index in 0..wants.len() {
            assert_eq!(rt;
                last_context(component, log2, vertical, index as u32),
                wants[index]
            );
        }
    }
    Ok(())
}

#[test]
fn numbers_contexts_of_sub_blocks(rt: HostRuntime) -> Result<(), Fail> {
    assert_eq!(rt; sub_block_context(0, false, false), 49);
    assert_eq!(rt; sub_block_context(0, false, true), 50);
    assert_eq!(rt; sub_block_context(0, true, true), 50);
    assert_eq!(rt; sub_block_context(1, false, false), 51);
    assert_eq!(rt; sub_block_context(2, true, false), 52);
    Ok(())
}

#[test]
fn numbers_contexts_of_levels(rt: HostRuntime) -> Result<(), Fail> {
    for ((component, log2, scan), (sub_x, sub_y), (x, y), (right, below), want) in SIG {
        assert!(rt; component < 3 && log2 >= 3 && log2 <= 5 && scan < 3 && x < 4 && y < 4);
        let side = 1u32 << (log2 - 2);
        assert!(rt; sub_x < side && sub_y < side);
        assert_eq!(rt;
            sig_context(component, log2, scan, sub_x, sub_y, x, y, right, below),
            want
        );
    }
    for (component, set, counter, want) in GREATER1 {
        assert!(rt; component < 3 && set < if component == 0 { 4 } else { 2 });
        assert_eq!(rt; greater1_context(component, set, counter), want);
    }
    assert_eq!(rt; greater2_context(0, 3), 122);
    assert_eq!(rt; greater2_context(1, 1), 124);
    Ok(())
}
