// Every pair of bytes with both carries, against the carries into and out of bit 7.
use super::*;

// The nibble of a result, by X, C and the result.
fn nibble_of(overflow: bool, carry: bool, byte: u8) -> u8 {
    let mut nibble = byte >> 7 << 1;
    if overflow {
        nibble |= 8;
    }
    if carry {
        nibble |= 4;
    }
    if byte == 0 {
        nibble |= 1;
    }
    nibble
}

// a + b + carry in wide arithmetic: X where the carry into bit 7 is not the carry out of it.
fn wide_sum(a: u8, b: u8, carry: bool) -> (u8, u8) {
    let total = a as u32 + b as u32 + carry as u32;
    let into_top = (a & 0x7F) as u32 + (b & 0x7F) as u32 + carry as u32 > 0x7F;
    let byte = (total & 0xFF) as u8;
    (
        byte,
        nibble_of(into_top != (total > 0xFF), total > 0xFF, byte),
    )
}

// a - b - borrow as a + (255 - b) + 1 - borrow, whose carry is no borrow.
fn wide_difference(a: u8, b: u8, borrow: bool) -> (u8, u8) {
    let (byte, flags) = wide_sum(a, !b, !borrow);
    (byte, flags ^ 4)
}

#[test]
fn all_sums_and_differences(rt: HostRuntime) {
    for a in 0..=255u8 {
        for b in 0..=255u8 {
            assert!(rt; add(a, b) == wide_sum(a, b, false));
            assert!(rt; adc(a, b, false) == wide_sum(a, b, false));
            assert!(rt; adc(a, b, true) == wide_sum(a, b, true));
            assert!(rt; sub(a, b) == wide_difference(a, b, false));
            assert!(rt; sbc(a, b, false) == wide_difference(a, b, false));
            assert!(rt; sbc(a, b, true) == wide_difference(a, b, true));
        }
    }
}

#[test]
fn all_immediates(rt: HostRuntime) {
    for a in 0..=255u8 {
        for amount in 1..=16u8 {
            assert!(rt; adi(a, amount) == wide_sum(a, amount, false));
            assert!(rt; sbi(a, amount) == wide_difference(a, amount, false));
        }
    }
}

// One place to the left, as often as asked for; what leaves at the top is kept or not.
fn left_by_ones(b: u8, times: u8, turns: bool) -> u8 {
    let mut byte = b;
    for _ in 0..times {
        let top = byte >> 7;
        byte = byte << 1;
        if turns {
            byte |= top;
        }
    }
    byte
}

fn right_by_ones(b: u8, times: u8, turns: bool) -> u8 {
    let mut byte = b;
    for _ in 0..times {
        let bottom = byte << 7;
        byte = byte >> 1;
        if turns {
            byte |= bottom;
        }
    }
    byte
}

#[test]
fn shifts_and_rotations(rt: HostRuntime) {
    for b in 0..=255u8 {
        for amount in 0..=20u8 {
            assert_eq!(rt; sll(amount, b), left_by_ones(b, amount, false));
            assert_eq!(rt; srl(amount, b), right_by_ones(b, amount, false));
            assert_eq!(rt; rol(amount, b), left_by_ones(b, amount, true));
            assert_eq!(rt; ror(amount, b), right_by_ones(b, amount, true));
        }
        assert_eq!(rt; sll(255, b), 0);
        assert_eq!(rt; srl(128, b), 0);
    }
}

#[test]
fn logic(rt: HostRuntime) {
    assert_eq!(rt; and(0b1100, 0b1010), 0b1000);
    assert_eq!(rt; lor(0b1100, 0b1010), 0b1110);
    assert_eq!(rt; xor(0b1100, 0b1010), 0b0110);
    assert_eq!(rt; not(0b1100_0101), 0b0011_1010);
}
