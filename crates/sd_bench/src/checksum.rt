// The checksum of a block, beside the plain table body and a copy.
use crate::rate::{Length, print_rate, tell};
use sd_crc::{crc32, crc32_by_table};
use std::time::Instant;

/// Checksums of buffers of a usual and of the greatest block.
pub fn run(rt: HostRuntime, length: Length) -> bool {
    checksums(rt, length, "64,512 bytes", 64_512) && checksums(rt, length, "1 MiB", 1_048_576)
}

fn checksums(rt: HostRuntime, length: Length, label: &str, size: usize) -> bool {
    let Ok(mut buffer) = vec![in rt.alloc(); 0x5au8; size] else {
        return false;
    };
    let rounds = length.rounds(size);
    let start = Instant::now(&rt);
    let mut sum = 0;
    for number in 0..rounds {
        set_first(&mut buffer, number);
        sum ^= crc32(&buffer);
    }
    print_rate(rt, length, "crc32", start, size, rounds);
    let start = Instant::now(&rt);
    let mut table_sum = 0;
    for number in 0..rounds {
        set_first(&mut buffer, number);
        table_sum ^= crc32_by_table(&buffer);
    }
    print_rate(rt, length, "crc32 by one table", start, size, rounds);
    tell(rt, "checksums of", label, "agree", sum == table_sum)
}

// Makes each round's buffer another one: of one that stays the compiler takes the checksum once for all rounds.
fn set_first(buffer: &mut [u8], number: usize) {
    if let Some(first) = buffer.first_mut() {
        *first = (number & 0xff) as u8;
    }
}
