// Fields of bytes. The values are those that the network order of C and python's struct give.
use sd_base::{Short, get_i32, get_i64, get_u32, get_u64, put_i32, put_i64, put_u32, put_u64};

static FIELDS: [u8; 24] = [
    1, 2, 3, 4, 128, 0, 0, 0, 0, 0, 1, 0, 0, 0, 0, 0, 255, 255, 255, 255, 255, 255, 255, 254,
];

fn written() -> [u8; 24] {
    let mut bytes = [0; 24];
    put_u32(&mut bytes, 0, 0x0102_0304);
    put_i32(&mut bytes, 4, i32::MIN);
    put_u64(&mut bytes, 8, 1 << 40);
    put_i64(&mut bytes, 16, -2);
    bytes
}

fn are_read() -> bool {
    get_u32(&FIELDS, 0) == Ok(0x0102_0304)
        && get_i32(&FIELDS, 4) == Ok(i32::MIN)
        && get_u64(&FIELDS, 8) == Ok(1 << 40)
        && get_i64(&FIELDS, 16) == Ok(-2)
}

// Whether no field is at a place.
fn is_behind(at: usize) -> bool {
    get_u32(&FIELDS, at) == Err(Short)
        && get_i32(&FIELDS, at) == Err(Short)
        && get_u64(&FIELDS, at) == Err(Short)
        && get_i64(&FIELDS, at) == Err(Short)
}

#[test]
fn fields(rt: HostRuntime) {
    assert!(rt; written() == FIELDS);
    assert!(rt; are_read());
    for at in [21, 24, usize::MAX] {
        assert!(rt; is_behind(at), "at {at}");
    }
}
