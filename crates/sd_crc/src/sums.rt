// Bytes without a table. What 300 bytes do to the register, 155, 117, 89 and 0 bytes do, added. So
// a byte need not be stepped through: copies of it do what it does, added to the bytes 145, 183,
// 211 and 300 places after it. A byte with all that is so added to it is its sum. A sum needs
// only the 300 before it and many are made at once; the last 300 bytes alone go through the table.
ghost use Rattle.std.specs.Prelude.{◌≡◌, ◌+◌, ◌≤◌, List, ℕ, ◌∷◌, ◌++◌, length, take, drop, fold, slice_index};
ghost use Rattle.sd_crc.specs.Crc32.{byte_step};
ghost use Rattle.sd_crc.specs.Sums.{register_after};

use crate::table::take_byte;

// The sums that the next byte's sum is made of.
const WINDOW: usize = 300;
// The bytes whose sums are made before the last of them move to the front.
const BLOCK: usize = 4096;

const PLACES: usize = WINDOW + BLOCK;
// The bytes that turn a register of zeros into the ones that a checksum starts from.
const START: [u8; 4] = [0x62, 0xf5, 0x26, 0x92];

// The latest 300 sums, and room for those of a block.
#[derive(Drop)]
pub(crate) struct Sums {
    places: [u8; PLACES],
}

impl Sums {
    // The sums before any byte.
    fn new() -> Sums
        ensures { (rest : List ℕ) → WINDOW ≤ length rest
            → register_after (take WINDOW result.places) rest ≡ fold byte_step 0xFFFFFFFF rest }
    {
        let mut sums = Sums {
            places: [0; PLACES],
        };
        sums.take_block(&START);
        sums
    }

    fn take_block(&mut self, block: &[u8])
        requires { length block.now ≤ BLOCK }
        ensures { (rest : List ℕ) → WINDOW ≤ length rest
            → register_after (take WINDOW self.old.places) (block.now ++ rest)
            ≡ register_after (take WINDOW self.new.places) rest }
    {
        add_sums(&mut self.places, block);
        self.places
            .copy_within(block.len()..block.len() + WINDOW, 0);
    }

    /// The sums after `bytes`, which 300 more at least follow.
    pub(crate) fn after(bytes: &[u8]) -> Sums
        ensures { (rest : List ℕ) → WINDOW ≤ length rest
            → register_after (take WINDOW result.places) rest
            ≡ fold byte_step 0xFFFFFFFF (bytes.now ++ rest) }
    {
        let (blocks, rest) = bytes.as_chunks::<BLOCK>();
        let mut sums = Sums::new();
        for block in blocks {
            sums.take_block(block);
        }
        sums.take_block(rest);
        sums
    }

    /// The register after the last 300 bytes.
    pub(crate) fn finish(&self, last: &[u8; WINDOW]) -> u32
        ensures { result ≡ register_after (take WINDOW self.now.places) last.now }
    {
        let sums = &self.places[..WINDOW];
        let mut register = 0;
        for (i, byte) in last.iter().enumerate() {
            let sum = *byte
                ^ sum_at(sums, i)
                ^ sum_at(sums, i + 89)
                ^ sum_at(sums, i + 117)
                ^ sum_at(sums, i + 155);
            register = take_byte(register, sum);
        }
        register
    }
}

fn sum_at(sums: &[u8], at: usize) -> u8
    ensures { result ≡ slice_index sums.now at }
{
    sums.get(at).copied().unwrap_or(0)
}

// The sums of `bytes`, after the 300 at the front.
fn add_sums(sums: &mut [u8], bytes: &[u8])
    requires { WINDOW + length bytes.now ≤ length sums.old }
    ensures { (rest : List ℕ) → WINDOW ≤ length rest
        → register_after (take WINDOW sums.old) (bytes.now ++ rest)
        ≡ register_after (take WINDOW (drop (length bytes.now) sums.new)) rest }
{
    for (i, byte) in bytes.iter().enumerate() {
        sums[i + WINDOW] = *byte ^ sums[i] ^ sums[i + 89] ^ sums[i + 117] ^ sums[i + 155];
    }
}
