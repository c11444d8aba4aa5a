// Volumes on devices: blocks added one after another, and the adoption of what they made. All blocks have one body, whose
// checksum is taken once, before.
ghost use Rattle.std.specs.Prelude.{◌≡◌, None, Some};

use crate::rate::{Length, print_rate, tell, tell_sum};
use sd_base::{LEAST_BODY, MOST_BODY, MOST_VOLUME, MediaName, PoolName, SessionKey, VolName};
use sd_block::FramedBody;
use sd_crc::crc32;
use sd_driver::{Driver, DriverFault};
use sd_label::VolumeLabel;
use sd_memdrive::MemDrive;
use sd_volume::{Appended, Volume, VolumeStatus, adopt, append_block, label_new};
use std::alloc::Global;
use std::time::Instant;

/// The session that all blocks are of.
pub const KEY: SessionKey = SessionKey { time: 1000, id: 1 };

/// The bytes of a usual block and of its body.
const BLOCK: usize = 64_512;

/// The body of a usual block.
pub static BODY: [u8; 64_488] = [0x5a; 64_488];

static WRITTEN: [u8; 64_512] = [0x5a; 64_512];

/// Adds blocks to a volume in memory, and adopts it.
pub fn run(rt: HostRuntime, length: Length) -> bool {
    let (Some(label), Ok(mut drive)) = (label(), MemDrive::new(rt.alloc(), MOST_VOLUME, &[])) else {
        return false;
    };
    print_volume(rt, length, &mut drive, &label) && print_sum(rt, length)
}

fn print_volume<D: Driver>(
    rt: HostRuntime,
    length: Length,
    drive: &mut D,
    label: &VolumeLabel,
) -> bool
    requires { (D.meaning drive.old).loaded ≡ None }
{
    let blocks = length.rounds(BLOCK);
    let Ok(mut volume) = label_new(rt.alloc(), drive, label) else {
        return false;
    };
    let start = Instant::now(&rt);
    let mut all = fill(rt.alloc(), drive, &mut volume, blocks);
    print_rate(rt, length, "add a block to a volume", start, BLOCK, blocks);
    let start = Instant::now(&rt);
    all &= adopt(
        rt.alloc(),
        drive,
        &label.name,
        &label.media,
        2000,
        MOST_VOLUME,
    )
    .is_ok();
    print_rate(rt, length, "adopt a volume", start, BLOCK, blocks);
    tell(
        rt,
        "volumes of blocks of",
        "64,512 bytes",
        "are adopted",
        all,
    )
}

// The checksums alone of as many bytes, which like the volume's are in no cache.
fn print_sum(rt: HostRuntime, length: Length) -> bool {
    let blocks = length.rounds(BLOCK);
    let Ok(bytes) = vec![in rt.alloc(); 0x5au8; blocks.saturating_mul(BLOCK)] else {
        return false;
    };
    let start = Instant::now(&rt);
    let mut sum = 0;
    for block in bytes.chunks(BLOCK) {
        sum ^= crc32(block);
    }
    print_rate(
        rt,
        length,
        "crc32 of a volume's bytes",
        start,
        BLOCK,
        blocks,
    );
    tell_sum(rt, "a volume's bytes", sum)
}

/// The label of the volume that jobs write.
pub fn label() -> Option<VolumeLabel> {
    Some(VolumeLabel {
        name: VolName::parse("Vol-0001").ok()?,
        pool: PoolName::parse("Default").ok()?,
        media: MediaName::parse("File").ok()?,
        moment: 0,
        host: None,
    })
}

// Whether so many blocks were added to the volume.
fn fill<D: Driver>(alloc: Global, drive: &mut D, volume: &mut Volume, blocks: usize) -> bool
    requires { (D.meaning drive.old).loaded ≡ None }
    ensures { (D.meaning drive.new).loaded ≡ None }
{
    if drive.load(volume.name()).is_err() {
        return false;
    }
    let all = match FramedBody::from_slice(alloc, &BODY) {
        Ok(mut body) => add_again(drive, volume, &mut body, blocks),
        Err(_) => false,
    };
    drive.unload();
    all
}

// Whether so many blocks of this body were added.
fn add_again<D: Driver>(
    drive: &mut D,
    volume: &mut Volume,
    body: &mut FramedBody,
    blocks: usize,
) -> bool
    requires { (D.meaning drive.old).loaded ≡ Some volume.old.name }
{
    let mut all = true;
    for _ in 0..blocks {
        all = all && add(drive, volume, body);
    }
    all
}

/// Whether one block more was added.
pub fn add<D: Driver>(drive: &mut D, volume: &mut Volume, body: &mut FramedBody) -> bool
    requires { (D.meaning drive.old).loaded ≡ Some volume.old.name }
    ensures loaded { (D.meaning drive.new).loaded ≡ (D.meaning drive.old).loaded }
    ensures name { volume.new.name ≡ volume.old.name }
{
    let VolumeStatus::Append = volume.status() else {
        return false;
    };
    if body.len() < LEAST_BODY || body.len() > MOST_BODY {
        return false;
    }
    let appended = append_block(drive, volume, KEY, body, MOST_VOLUME);
    matches!(appended, Appended::At { .. })
}

/// Appends so many bytes as a block has, so many times, to a new volume, and syncs them at the end. Whether the
/// device did all that.
pub fn write<D: Driver>(drive: &mut D, blocks: u64) -> bool
    requires { (D.meaning drive.old).loaded ≡ None }
{
    match label() {
        Some(label) => write_blocks(drive, &label.name, blocks).is_ok(),
        None => false,
    }
}

fn write_blocks<D: Driver>(drive: &mut D, name: &VolName, blocks: u64) -> Result<(), DriverFault>
    requires { (D.meaning drive.old).loaded ≡ None }
{
    drive.create(name)?;
    for _ in 0..blocks {
        drive.append(&WRITTEN)?;
    }
    drive.sync()?;
    drive.unload();
    Ok(())
}
