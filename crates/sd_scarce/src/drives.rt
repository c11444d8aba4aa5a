// A drive, the session that it notes, and its receipt. Worlds note theirs by the two parts of that call, and ask for none.
use crate::names::{KEY, Names};
use sd_drive::{Drive, Limits, NotMade};
use sd_memdrive::MemDrive;
use std::alloc::{AllocError, Global};
use std::io;

/// What a drive tells of a session.
#[derive(Clone, Copy)]
struct Told {
    /// Whether its pool is the drive's.
    served: bool,
    /// Whether there is a receipt for no block of it, and for one.
    no_block: bool,
    one_block: bool,
    /// Whether a block awaits a sync.
    awaits_sync: bool,
}

/// Makes a drive on a device in memory, notes a session at it, and asks for its receipts.
pub fn run(rt: HostRuntime, names: &Names) -> io::Result<()> {
    let Told {
        served,
        no_block,
        one_block,
        awaits_sync,
    } = make_and_serve(rt.alloc(), names)?;
    println!(rt; "session noted at its drive: {served}")?;
    println!(rt; "a receipt for no block: {no_block}, for one: {one_block}")?;
    println!(rt; "a block awaits a sync: {awaits_sync}")
}

fn make_and_serve(alloc: Global, names: &Names) -> Result<Told, AllocError> {
    let device = match MemDrive::new(alloc, 1000, &[]) {
        Ok(device) => device,
        Err(_) => MemDrive::new(alloc, 1000, &[])?,
    };
    let drive = match make(alloc, device, names) {
        Ok(drive) => Ok(drive),
        Err(kept) => make(alloc, kept.driver, names),
    };
    match drive {
        Ok(mut drive) => Ok(Told {
            served: serve(&mut drive, names)?,
            no_block: has_receipt(&drive, 0)?,
            one_block: has_receipt(&drive, 1)?,
            awaits_sync: drive.awaits_sync(),
        }),
        Err(_) => Err(AllocError),
    }
}

fn make(
    alloc: Global,
    device: MemDrive,
    names: &Names,
) -> Result<Drive<MemDrive>, NotMade<MemDrive>> {
    let limits = Limits {
        block: 1024,
        volume: 2048,
        spool: 0,
        time: KEY.time,
        host: None,
    };
    Drive::new(alloc, device, names.media.copy(), limits)
}

fn serve(drive: &mut Drive<MemDrive>, names: &Names) -> Result<bool, AllocError> {
    if drive.serve(KEY, &names.pool).is_err() {
        drive.serve(KEY, &names.pool)?;
    }
    match drive.pool() {
        Some(pool) => Ok(pool.is_same(&names.pool)),
        None => Ok(false),
    }
}

// Whether there is a receipt for so many blocks of the session, which names no others.
fn has_receipt(drive: &Drive<MemDrive>, blocks: u64) -> Result<bool, AllocError> {
    let receipt = match drive.receipt(KEY, blocks) {
        Err(_) => drive.receipt(KEY, blocks)?,
        Ok(receipt) => receipt,
    };
    Ok(match receipt {
        Some(given) => given.key() == KEY && given.blocks() == blocks && given.spans().is_empty(),
        None => false,
    })
}
