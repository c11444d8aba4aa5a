// What holds of spans and of what they read to, whatever device they lie on.
ghost use Rattle.sd_readback.specs.Reading.{ReadsToOneList, KeptSpansRead};
ghost use Rattle.sd_readback.specs.Faults.{FaultIsNoReading, OneFirstFault};
ghost use Rattle.sd_readback.specs.HandsOver.{HandedOverAreFirst};

/// Spans read to one list of records, and in one way.
pub fn reads_to_one_list()
    ensures { ReadsToOneList }
{}

/// Spans read to the same as long as their bytes stay, whatever else comes to the volumes.
pub fn kept_spans_read()
    ensures { KeptSpansRead }
{}

/// If spans meet a fault, they don't read to any list.
pub fn fault_is_no_reading()
    ensures { FaultIsNoReading }
{}

/// Spans meet one fault first.
pub fn one_first_fault()
    ensures { OneFirstFault }
{}

/// What a read handed over of spans that read to a list are the first of its records.
pub fn handed_over_are_first()
    ensures { HandedOverAreFirst }
{}
