// What holds of the bytes of labels, whoever wrote them.
ghost use Rattle.sd_label.specs.Label.{VolumeLabelsApart, SessionLabelsApart, LabelKindsApart};

/// Two volume labels with the same bytes are one label.
pub fn volume_labels_apart()
    ensures { VolumeLabelsApart }
{}

/// Two session labels with the same bytes are one label.
pub fn session_labels_apart()
    ensures { SessionLabelsApart }
{}

/// No bytes begin with a volume label and with a session label.
pub fn label_kinds_apart()
    ensures { LabelKindsApart }
{}
