// The blocks of the loaded volume are made to last.
ghost use Rattle.std.specs.Prelude.{◌≡◌, ◌+◌, false, OnOk, OnErr, IfErr, IsErr, IsErrOf};
ghost use Rattle.sd_driver.specs.Meaning.{IsHonest};
ghost use Rattle.sd_driver.specs.Shelf.{StillLasts};
ghost use Rattle.sd_volume.specs.Device.{Counted, OthersStay, CallsAtMost};
ghost use Rattle.sd_drive.specs.Shelf.{KeepsPieces};
ghost use Rattle.sd_drive.specs.Moves.{Syncs, FailsToSync, Unmounts, awaits_sync, sync_calls};

use crate::drive::Drive;
use sd_base::Refusal;
use sd_driver::Driver;

impl<D: Driver> Drive<D> {
    /// Makes the blocks of the loaded volume last. With no block that awaits that it calls no device and succeeds.
    /// If the device fails, the volume has status `Error` and is out, and those blocks are lost. Takes no memory.
    pub fn sync(&mut self) -> Result<(), Refusal>
        ensures ok { OnOk result (Syncs self.old self.new) }
        ensures none { OnOk result (awaits_sync self.new ≡ false) }
        ensures err { OnErr result (FailsToSync self.old self.new) }
        ensures refusal { IfErr result (λ fault. fault ≡ Refusal.DeviceFault) }
        ensures quiet { awaits_sync self.old ≡ false → self.new ≡ self.old }
        ensures counted { Counted (IsErrOf result Refusal.DeviceFault) ⊥
            (D.meaning self.old.device) (D.meaning self.new.device) }
        ensures keeps { KeepsPieces (D.meaning self.old.device) (D.meaning self.new.device)
            self.old.journal self.new.journal self.old.hand self.new.hand }
        ensures later { StillLasts (D.meaning self.old.device).shelf
            (D.meaning self.new.device).shelf }
        ensures others { IsHonest (D.meaning self.old.device)
            → OthersStay (D.meaning self.old.device).loaded
            (D.meaning self.old.device).shelf (D.meaning self.new.device).shelf }
        ensures calls { OnOk result (CallsAtMost (sync_calls self.old)
            (D.meaning self.old.device) (D.meaning self.new.device)) }
        ensures calls_failing { OnErr result (CallsAtMost (sync_calls self.old + 1)
            (D.meaning self.old.device) (D.meaning self.new.device)) }
    {
        let Some(at) = self.loaded else {
            return Ok(());
        };
        if !self.journal.has_unsynced(self.volumes[at].name()) {
            return Ok(());
        }
        match self.driver.sync() {
            Ok(()) => {
                self.journal.synced(self.volumes[at].name());
                Ok(())
            }
            Err(_) => {
                self.driver.unload();
                self.loaded = None;
                self.journal.sync_failed(self.volumes[at].name());
                self.volumes[at].fail();
                Err(Refusal::DeviceFault)
            }
        }
    }

    /// Whether a block of the loaded volume awaits a sync. Takes no memory.
    pub fn awaits_sync(&self) -> bool
        ensures { result ≡ awaits_sync self.now }
    {
        match self.loaded {
            None => false,
            Some(at) => self.journal.has_unsynced(self.volumes[at].name()),
        }
    }

    /// Makes the blocks of the loaded volume last, as a sync does, and takes it out. With no volume loaded nothing
    /// changes. Takes no memory.
    pub fn unmount(&mut self) -> Result<(), Refusal>
        ensures ok { OnOk result (Unmounts self.old self.new) }
        ensures err { OnErr result (FailsToSync self.old self.new) }
        ensures refusal { IfErr result (λ fault. fault ≡ Refusal.DeviceFault) }
        ensures counted { Counted (IsErrOf result Refusal.DeviceFault) ⊥
            (D.meaning self.old.device) (D.meaning self.new.device) }
        ensures keeps { KeepsPieces (D.meaning self.old.device) (D.meaning self.new.device)
            self.old.journal self.new.journal self.old.hand self.new.hand }
        ensures later { StillLasts (D.meaning self.old.device).shelf
            (D.meaning self.new.device).shelf }
        ensures others { IsHonest (D.meaning self.old.device)
            → OthersStay (D.meaning self.old.device).loaded
            (D.meaning self.old.device).shelf (D.meaning self.new.device).shelf }
        ensures calls { CallsAtMost (sync_calls self.old + 1)
            (D.meaning self.old.device) (D.meaning self.new.device) }
    {
        self.sync()?;
        self.driver.unload();
        self.loaded = None;
        Ok(())
    }
}
