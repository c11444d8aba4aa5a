// The open file of a spool, and what calls of its folder do with it.
ghost use Rattle.std.specs.Prelude.{◌≡◌, ◌+◌, ◌++◌, ◌^◌, ◌<◌, true, length, take, drop, IfOk, OnOk, OnErr};
ghost use Rattle.sd_folder.specs.Meaning.{IsHonest};
ghost use Rattle.sd_folder.specs.Place.{IsFileName};
ghost use Rattle.sd_spool.specs.Opened.{IsWhole, Holds, Looks, OthersStay, file_bytes, spool_bytes};

use sd_folder::{Access, Folder, FolderFault};

/// The open file of a spool.
#[derive(Drop)]
pub(crate) struct Opened<H: Drop> {
    pub file: H,
    // It was made by this spool.
    pub is_made: bool,
    // It ends where the spool's bytes do. It may go on past them if an earlier run left it, and after an append or a cut
    // that failed.
    pub is_even: bool,
}

/// Makes the file of that name, or opens the one that an earlier run left.
pub(crate) fn find<F: Folder>(folder: &mut F, name: &str) -> Result<Opened<F::File>, FolderFault>
    requires rule { IsFileName name.now }
    requires whole { IsHonest (F.meaning folder.old)
        → IsWhole name.now (F.meaning folder.old) }
    ensures honest { (F.meaning folder.new).honest ≡ (F.meaning folder.old).honest }
    ensures others { IsHonest (F.meaning folder.old)
        → OthersStay name.now (F.meaning folder.old) (F.meaning folder.new) }
    ensures file { IsHonest (F.meaning folder.old)
        → IfOk result (λ opened. F.name_of opened.file ≡ name.now) }
    ensures ok { IsHonest (F.meaning folder.old)
        → IfOk result (λ opened. Holds name.now opened.is_even 0 (F.meaning folder.new)) }
    ensures err { IsHonest (F.meaning folder.old)
        → OnErr result (IsWhole name.now (F.meaning folder.new)) }
{
    match folder.create(name) {
        Ok(file) => Ok(Opened {
            file,
            is_made: true,
            is_even: true,
        }),
        Err(FolderFault::Exists) => {
            let file = folder.open(name, Access::ReadWrite)?;
            Ok(Opened {
                file,
                is_made: false,
                is_even: false,
            })
        }
        Err(fault) => Err(fault),
    }
}

/// Ends the file at `end`, if it may go on past that.
pub(crate) fn cut_even<F: Folder>(
    folder: &mut F,
    opened: &mut Opened<F::File>,
    end: u64,
) -> Result<(), FolderFault>
    requires { IsHonest (F.meaning folder.old)
        → Holds (F.name_of opened.old.file) opened.old.is_even end (F.meaning folder.old) }
    ensures honest { (F.meaning folder.new).honest ≡ (F.meaning folder.old).honest }
    ensures others { IsHonest (F.meaning folder.old)
        → OthersStay (F.name_of opened.old.file) (F.meaning folder.old) (F.meaning folder.new) }
    ensures file { opened.new.file ≡ opened.old.file }
    ensures even { OnOk result (opened.new.is_even ≡ true) }
    ensures holds { IsHonest (F.meaning folder.old)
        → Holds (F.name_of opened.old.file) opened.new.is_even end (F.meaning folder.new) }
    ensures bytes { IsHonest (F.meaning folder.old)
        → spool_bytes (F.meaning folder.new) (F.name_of opened.old.file) end
        ≡ spool_bytes (F.meaning folder.old) (F.name_of opened.old.file) end }
{
    if opened.is_even {
        return Ok(());
    }
    folder.cut(&opened.file, end)?;
    opened.is_even = true;
    Ok(())
}

/// Writes at the file's end, which is at `end`.
pub(crate) fn write_at<F: Folder>(
    folder: &mut F,
    opened: &mut Opened<F::File>,
    end: u64,
    bytes: &[u8],
) -> Result<(), FolderFault>
    requires even { opened.old.is_even ≡ true }
    requires holds { IsHonest (F.meaning folder.old)
        → Holds (F.name_of opened.old.file) opened.old.is_even end (F.meaning folder.old) }
    ensures honest { (F.meaning folder.new).honest ≡ (F.meaning folder.old).honest }
    ensures others { IsHonest (F.meaning folder.old)
        → OthersStay (F.name_of opened.old.file) (F.meaning folder.old) (F.meaning folder.new) }
    ensures file { opened.new.file ≡ opened.old.file }
    ensures even { OnOk result (opened.new.is_even ≡ true) }
    ensures ok { IsHonest (F.meaning folder.old) → OnOk result
        (Holds (F.name_of opened.old.file) opened.new.is_even (end + length bytes.now)
        (F.meaning folder.new)) }
    ensures adds { IsHonest (F.meaning folder.old) → OnOk result
        (spool_bytes (F.meaning folder.new) (F.name_of opened.old.file) (end + length bytes.now)
        ≡ spool_bytes (F.meaning folder.old) (F.name_of opened.old.file) end ++ bytes.now) }
    ensures err { IsHonest (F.meaning folder.old) → OnErr result
        (Holds (F.name_of opened.old.file) opened.new.is_even end (F.meaning folder.new)) }
    ensures adds_none { IsHonest (F.meaning folder.old) → OnErr result
        (spool_bytes (F.meaning folder.new) (F.name_of opened.old.file) end
        ≡ spool_bytes (F.meaning folder.old) (F.name_of opened.old.file) end) }
{
    opened.is_even = false;
    folder.append(&opened.file, end, bytes)?;
    opened.is_even = true;
    Ok(())
}

/// Fills `into` from the byte at `at` of the file on.
pub(crate) fn fill<F: Folder>(
    folder: &mut F,
    file: &F::File,
    at: u64,
    into: &mut [u8],
) -> Result<(), FolderFault>
    requires fits { at + length into.old < 2 ^ 64 }
    requires whole { IsHonest (F.meaning folder.old)
        → IsWhole (F.name_of file.now) (F.meaning folder.old) }
    ensures looks { Looks (F.meaning folder.old) (F.meaning folder.new) }
    ensures ok { IsHonest (F.meaning folder.old) → OnOk result
        (into.new ≡ take (length into.old)
        (drop at (file_bytes (F.meaning folder.old) (F.name_of file.now)))) }
{
    let mut count = 0;
    for _ in 0..u64::MAX {
        if count >= into.len() {
            return Ok(());
        }
        match folder.read_at(file, at + count as u64, &mut into[count..]) {
            Ok(0) => return Err(FolderFault::Failed),
            Ok(more) => count += more,
            Err(FolderFault::Interrupted) => {}
            Err(fault) => return Err(fault),
        }
    }
    Err(FolderFault::Interrupted)
}
