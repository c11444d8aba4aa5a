// What holds of every run of the list machine.
ghost use Rattle.sd_machine.specs.Kept.{ClosedKeepTheirRecords, ClosedKeepTheirStatus};

/// Whatever events follow, a closed session of the list machine keeps its records, also once it is purged.
pub fn closed_keep_their_records()
    ensures { ClosedKeepTheirRecords }
{}

/// Whatever events follow, a closed session of the list machine stays closed or is purged, and a purged one stays
/// purged.
pub fn closed_keep_their_status()
    ensures { ClosedKeepTheirStatus }
{}
