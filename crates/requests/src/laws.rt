//! What is true of every reading. The functions do nothing.
ghost use Rattle.requests.specs.Laws.{HasOneReading, IsSettled};

/// A text has one reading.
pub fn has_one_reading()
    ensures { HasOneReading }
{}

/// A reading for which no more bytes are needed stays, whatever bytes follow.
pub fn is_settled()
    ensures { IsSettled }
{}
