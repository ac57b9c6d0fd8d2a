//! What is true of every answer. The functions do nothing.
ghost use Rattle.wire.specs.Laws.{CommandAnswersAreJson};

/// The answer to each command is compact JSON.
pub fn command_answers_are_json()
    ensures { CommandAnswersAreJson }
{}
