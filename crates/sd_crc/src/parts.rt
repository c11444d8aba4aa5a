// The checksum of bytes from the checksums of two parts of them. The bytes behind others only move the
// register that those leave, and moving is linear: how a single one at its top is moved says how every
// register is.
ghost use Rattle.std.specs.Prelude.{◌≡◌, ℕ, List, ◌++◌, length};
ghost use Rattle.sd_crc.specs.Crc32.{bit_step as bit_step_of, bit_steps, crc32_of};

const POLYNOMIAL: u32 = 0xedb88320;

// What 1, 2, 4, 8 .. bytes of zeros leave of a single one at the top.
static POWERS: [u32; 32] = [
    0x00800000, 0x00008000, 0xedb88320, 0xb1e6b092, 0xa06a2517, 0xed627dae, 0x88d14467, 0xd7bbfe6a,
    0xec447f11, 0x8e7ea170, 0x6427800e, 0x4d47bae0, 0x09fe548f, 0x83852d0f, 0x30362f1a, 0x7b5a9cc3,
    0x31fec169, 0x9fec022a, 0x6c8dedc4, 0x15d6874d, 0x5fde7a4e, 0xbad90e37, 0x2e4e5eef, 0x4eaba214,
    0xa8a472c0, 0x429a969e, 0x148d302a, 0xc40ba6d0, 0xc4e22c3c, 0x40000000, 0x20000000, 0x08000000,
];

/// The CRC-32 of bytes whose front has the CRC-32 `front`, and the `count` bytes behind it `back`. None
/// of the bytes is needed.
pub fn combine(front: u32, back: u32, count: u32) -> u32
    ensures { (first second : List ℕ) → front ≡ crc32_of first → back ≡ crc32_of second
        → count ≡ length second → result ≡ crc32_of (first ++ second) }
{
    let mut register = front;
    for (i, power) in POWERS.iter().enumerate() {
        if (count >> i) & 1 == 1 {
            register = moved(register, *power);
        }
    }
    register ^ back
}

// What as many zero bits leave of a register as leave `power` of a single one at the top.
fn moved(register: u32, power: u32) -> u32
    ensures { (n : ℕ) → power ≡ bit_steps n 0x80000000 → result ≡ bit_steps n register }
{
    let mut sum = 0;
    for i in 0..32_u32 {
        let bit = (register >> i) & 1;
        sum = bit_step(sum) ^ (bit * power);
    }
    sum
}

#[inline(always)]
fn bit_step(register: u32) -> u32
    ensures { result ≡ bit_step_of register }
{
    let half = register >> 1;
    if register % 2 == 1 {
        half ^ POLYNOMIAL
    } else {
        half
    }
}
