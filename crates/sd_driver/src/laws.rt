// What holds of every device, whoever wrote it.
ghost use Rattle.sd_driver.specs.Laws.{StableBytesLast, SyncedBytesLast, CallsKeepWhatLasts, CutsKeepWhatLastsBelow, LastingBoundsLowMark, StopLeavesWhatLasted, StopAfterLaterCalls};

/// What is stable after any call lasts from that moment on; after a sync these are all bytes of
/// the volume.
pub fn synced_bytes_last()
    ensures stable { StableBytesLast }
    ensures synced { SyncedBytesLast }
{}

/// Bytes that lasted still last after every call; after a cut those do that it doesn't cut into.
pub fn lasting_bytes_still_last()
    ensures calls { CallsKeepWhatLasts }
    ensures cuts { CutsKeepWhatLastsBelow }
{}

/// The low mark of a volume is at least the length of what lasts.
pub fn lasting_bounds_low_mark()
    ensures { LastingBoundsLowMark }
{}

/// What a stop leaves begins with what lasted, also with what lasted some calls before.
pub fn stop_leaves_what_lasted()
    ensures leaves { StopLeavesWhatLasted }
    ensures later { StopAfterLaterCalls }
{}
