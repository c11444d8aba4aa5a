// The expected values are zlib's.
use sd_crc::{combine, crc32, crc32_by_table};

// What `crc32` and its yardstick say, if they agree.
fn sum(bytes: &[u8]) -> Option<u32> {
    let sum = crc32(bytes);
    (sum == crc32_by_table(bytes)).then_some(sum)
}

#[test]
fn gives_the_check_values(rt: HostRuntime) {
    assert_eq!(rt; sum(b"123456789"), Some(0xcbf4_3926));
    assert_eq!(rt; sum(b""), Some(0));
    assert_eq!(rt; sum(b"hello"), Some(0x3610_a686));
}

// The checksum bit by bit, as it is defined.
fn sum_by_bits(bytes: &[u8]) -> u32 {
    let mut register = u32::MAX;
    for byte in bytes {
        register ^= u32::from(*byte);
        for _ in 0..8 {
            let half = register >> 1;
            register = if register % 2 == 1 {
                half ^ 0xedb8_8320
            } else {
                half
            };
        }
    }
    register ^ u32::MAX
}

// Whether the checksums of `bytes` up to `at` and from there on are combined to that of them all.
fn is_combined_at(bytes: &[u8], at: usize) -> bool {
    let (front, back) = bytes.split_at(at.min(bytes.len()));
    match u32::try_from(back.len()) {
        Ok(count) => combine(crc32(front), crc32(back), count) == sum_by_bits(bytes),
        Err(_) => false,
    }
}

#[test]
fn combines_to_the_check_value(rt: HostRuntime) {
    assert_eq!(rt; combine(crc32(b"1234"), crc32(b"56789"), 5), 0xcbf4_3926);
    assert_eq!(rt; sum_by_bits(b"123456789"), 0xcbf4_3926);
    for at in 0..10 {
        assert!(rt; is_combined_at(b"123456789", at), "at {at}");
    }
    assert!(rt; is_combined_at(b"", 0));
}

#[test]
fn combines_the_parts_of_a_block(rt: HostRuntime) {
    let mut block = [0_u8; 64_508];
    let mut state = 1_u32;
    for byte in block.iter_mut() {
        state = state.wrapping_mul(1_664_525).wrapping_add(1_013_904_223);
        *byte = state.to_be_bytes()[0];
    }
    for at in [
        0, 1, 19, 20, 21, 299, 300, 301, 4_096, 32_768, 64_507, 64_508,
    ] {
        assert!(rt; is_combined_at(&block, at), "at {at}");
    }
}

#[test]
fn combines_behind_many_bytes(rt: HostRuntime) {
    assert_eq!(rt; combine(0x3610_a686, 0xcbf4_3926, 1 << 20), 0xc033_5cc8);
    assert_eq!(rt; combine(0x3610_a686, 0xcbf4_3926, 1 << 31), 0x8527_5216);
    assert_eq!(rt; combine(0x3610_a686, 0xcbf4_3926, u32::MAX), 0xfde4_9fa0);
}
