// The three families at both ends of their range, against numbers worked out apart from this code.
use crate::{number_behind, numbers, past_the_ways};
use families::{Digit, Family, Mix, Table};
use std::process::Abort;

const DIGITS: [(u64, [u32; 3]); 8] = [
    (0, [0, 0, 0]),
    (1, [1, 0, 0]),
    (36, [36, 4, 0]),
    (0xFFFF_FFFF, [0xFFFF_FFFF, 0x1FFF_FFFF, 0x03FF_FFFF]),
    (0x1_0000_0000, [0, 0x2000_0000, 0x0400_0000]),
    (0x1_FFFF_FFFF, [0xFFFF_FFFF, 0x3FFF_FFFF, 0x07FF_FFFF]),
    (0x2_0000_0000, [0, 0, 0]),
    (u64::MAX, [0, 0, 0]),
];

const MIXES: [(u64, [u32; 3]); 8] = [
    (0, [0, 0, 0]),
    (1, [0x79B1_9E37, 0xCA6B_85EB, 0xAE35_C2B2]),
    (36, [0x1CE4_3FCD, 0x770C_D528, 0x7F74_6120]),
    (0xFFFF_FFFF, [0x864F_61C8, 0x3595_7A14, 0x51CB_3D4D]),
    (0x1_0000_0000, [0x99E9_F1A2, 0xDA53_C10E, 0xF14D_4AD9]),
    (0x1_FFFF_FFFF, [0x2038_536B, 0x0FE8_3B23, 0x4318_8827]),
    (0x2_0000_0000, [0, 0, 0]),
    (u64::MAX, [0, 0, 0]),
];

const TABLES: [(u64, [u32; 3]); 8] = [
    (0, [0xDAA5_FCC1, 0x2FE6_0ED5, 0x3076_A97F]),
    (1, [0xDAA1_DCE1, 0x0EE7_0ED5, 0x3876_A877]),
    (36, [0xE086_C934, 0x3649_A704, 0x4D38_21B2]),
    (0xFFFF_FFFF, [0xCAA7_72C6, 0x3B96_3655, 0xB1B2_A9DC]),
    (0x1_0000_0000, [0xEC05_745A, 0x2BA2_D760, 0x16BB_015D]),
    (0x1_FFFF_FFFF, [0xFC07_FA5D, 0x3FD2_EFE0, 0x977F_01FE]),
    (0x2_0000_0000, [0, 0, 0]),
    (u64::MAX, [0, 0, 0]),
];

fn agrees<F: Family>(rt: &impl Abort, family: &F, cases: &[(u64, [u32; 3])]) {
    for (cluster, expected) in cases {
        assert_eq!(rt; numbers(family, *cluster), *expected);
        assert_eq!(rt; past_the_ways(family, *cluster), 0);
        assert_eq!(rt; family.number_of(usize::MAX, *cluster), 0);
    }
}

#[test]
fn digits(rt: HostRuntime) {
    agrees(&rt, &Digit, &DIGITS);
    assert_eq!(rt; number_behind(&Digit, 1, 36), 4);
    assert_eq!(rt; number_behind(&Digit, 3, 36), 0);
}

#[test]
fn mixes(rt: HostRuntime) {
    agrees(&rt, &Mix, &MIXES);
}

#[test]
fn tables(rt: HostRuntime) {
    agrees(&rt, &Table, &TABLES);
}
