//! The text of a history: functions without effect, whose contracts are the laws.

ghost use Rattle.acts_files.specs.KeptActs.{TextGoesOn};

/// The text of a history goes on from that of its older acts.
pub fn text_goes_on()
    ensures { TextGoesOn }
{}
