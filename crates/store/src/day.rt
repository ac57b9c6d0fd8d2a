//! The business day of the books.

ghost use Rattle.std.specs.Prelude.{◌≡◌};
ghost use Rattle.machine.specs.Standing.{day_after_command};
ghost use Rattle.store.specs.Acting.{day_left as day_left_lem};

use commands::Command;
use label::BusinessDay;

/// The business day after a command that the rules accepted.
fn day_after(day: BusinessDay, command: &Command) -> BusinessDay
    ensures { result ≡ day_after_command command.now day }
{
    command.names().day.unwrap_or(day)
}

/// The business day after a command that was accepted, or that came again and so opens no day.
pub fn day_left(day: BusinessDay, command: &Command, repeated: bool) -> BusinessDay
    ensures { result ≡ day_left_lem day command.now repeated }
{
    if repeated {
        return day;
    }
    day_after(day, command)
}
