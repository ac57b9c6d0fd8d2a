//! A law on the acts of older programs: a function without effect, whose contract is the law.

ghost use Rattle.rules.specs.OlderLimits.{TodayIsNewest, LimitsMayGrow, OlderHistoriesGoOn};

/// Larger limits refuse no more, and those of today are the machine's. So a history of the programs that made books of
/// schemas 1 to 3, whose orders had 20 lines and whose items 1,000,000,000 units, is one of the machine.
pub fn older_histories_go_on()
    ensures newest { TodayIsNewest }
    ensures grow { LimitsMayGrow }
    ensures older { OlderHistoriesGoOn }
{}
