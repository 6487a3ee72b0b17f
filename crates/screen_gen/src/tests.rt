//! Scripts of numbers, as an independent model of the format makes them.
use crate::generate;
use paint_script::write_script;
use std::process::Abort;
use std::test::Fail;

// For each client the length of its script's text, and the hash of that text
type Texts = [(usize, u64); 4];

const NUMBERS: [(u64, Texts); 3] = [
    (
        0,
        [
            (32_200, 0xC16D_FE18_EB77_92E2),
            (18_185, 0x7FD8_9F05_6C50_DC3C),
            (25_386, 0x4224_47A5_4542_46FA),
            (27_357, 0x2D8B_BBB1_B5B5_6231),
        ],
    ),
    (
        7,
        [
            (28_868, 0x180B_084C_96AF_0281),
            (17_995, 0x5D79_CC8B_63C6_AB47),
            (17_795, 0xC85E_B798_280D_0587),
            (21_239, 0xB42F_B017_0A71_AA54),
        ],
    ),
    // the last client's state begins at 1
    (
        u64::MAX - 1,
        [
            (31_734, 0x745D_6E4F_CA97_C88F),
            (33_038, 0x9BFB_51C3_D12B_78C7),
            (33_361, 0x693F_05FB_32DF_E51B),
            (18_185, 0x7FD8_9F05_6C50_DC3C),
        ],
    ),
];

#[test]
fn generates_scripts(rt: HostRuntime) -> Result<(), Fail> {
    for (number, texts) in NUMBERS {
        let scripts = generate(rt.alloc(), number)?;
        assert_eq!(rt; scripts.count(), 4);
        for (client, (length, hash)) in texts.iter().enumerate() {
            let script = scripts.script(client as u32).expect(&rt, "a script");
            assert_eq!(rt; script.lines(), 60);
            assert_eq!(rt; script.cuts(), if client == 0 { 6 } else { 0 });
            let text = write_script(rt.alloc(), script)?;
            assert_eq!(rt; text.len(), *length);
            assert_eq!(rt; hash_of(&text), *hash);
        }
    }
    Ok(())
}

#[test]
fn begins_with_known_lines(rt: HostRuntime) -> Result<(), Fail> {
    let scripts = generate(rt.alloc(), 0)?;
    let text = write_script(rt.alloc(), scripts.script(1).expect(&rt, "a script"))?;
    assert!(rt; text.starts_with(b"fill 359 30 36 82 150280\nfill 373 0 151 58 cf8bfe\n"));
    let text = write_script(rt.alloc(), scripts.script(3).expect(&rt, "a script"))?;
    assert!(rt; text.starts_with(b"fill 521 129 48 7 1f4f07\nfill 150 122 123 61 5c487f\n"));
    Ok(())
}

// FNV-1a
fn hash_of(text: &[u8]) -> u64 {
    let mut hash: u64 = 0xCBF2_9CE4_8422_2325;
    for byte in text {
        hash = (hash ^ *byte as u64).wrapping_mul(0x0100_0000_01B3);
    }
    hash
}
