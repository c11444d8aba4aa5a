// What holds of placements, stretches and JobMedia texts, whoever made them.
ghost use Rattle.sd_span.specs.JobMedia.{JobMediaIsOne, JobMediaTextsApart};
ghost use Rattle.sd_span.specs.Spans.{StretchesGrow};

/// Stretches that grow by one placement at a time at their end are those of the whole list.
pub fn stretches_grow()
    ensures { StretchesGrow }
{}

/// No two sessions, and no two lists of spans, have one JobMedia text.
pub fn jobmedia_texts_apart()
    ensures { JobMediaTextsApart }
{}

/// No text says two sessions or two lists of spans, whether its last newline is there or lacks.
pub fn jobmedia_is_one()
    ensures { JobMediaIsOne }
{}
