//! Laws over all histories and all runs: functions without effect, whose contracts are the laws.

ghost use Rattle.machine.specs.Laws.{NeverOverdrawn, Conserved, Covered, UrgentOrdersComeFirst, PickDisturbsNone, RecallDisturbsNone, RecallDisturbsLaterAlone, StagedLotsAreShippable, ShippedLotsAreShippable, ClosedOrdersAreEmpty, OtherItemsAreLeftAlone, Traced, LastLinesTellUnits, RunsGoOn, FilesGoOn, RunsWithMemory, RepeatsActOnce, RepeatsGetTheFirstReply};
ghost use Rattle.machine.specs.Schemas.{FirstBooksGoOn, SecondBooksGoOn};

/// No more is taken out of places in the warehouse or out of shipments than was brought there.
pub fn never_overdrawn()
    ensures { NeverOverdrawn }
{}

/// A lot of which units are staged is shippable, and no shipment holds a unit of a lot that was not shippable at that
/// act: held, recalled, or with fewer days left than its item asked for.
pub fn clean()
    ensures staged { StagedLotsAreShippable }
    ensures shipped { ShippedLotsAreShippable }
{}

/// For each lot, what was received and written on is in bins, on stages or in shipments, or was written off.
pub fn conserved()
    ensures { Conserved }
{}

/// The reservations on a lot never add up to more than its units in STORE bins.
pub fn covered()
    ensures { Covered }
{}

/// An urgent order gets what it would get if no others had booked but urgent ones.
pub fn urgent_orders_come_first()
    ensures { UrgentOrdersComeFirst }
{}

/// A pick lowers its own reservation by its quantity and changes no other.
pub fn pick_disturbs_none()
    ensures { PickDisturbsNone }
{}

/// A recall changes no reservation of the bookings of the item before the first one with units of the lot, reserved or
/// staged; where there is none, it changes no reservation.
pub fn recall_disturbs_none()
    ensures earlier { RecallDisturbsNone }
    ensures later_alone { RecallDisturbsLaterAlone }
{}

/// A closed order has nothing staged and nothing reserved.
pub fn closed_orders_are_empty()
    ensures { ClosedOrdersAreEmpty }
{}

/// An act changes neither the postings, the plan nor the reservations of an item that it does not touch.
pub fn other_items_are_left_alone()
    ensures { OtherItemsAreLeftAlone }
{}

/// A recall notice names exactly the bins and the shipments with units of the lot, each once, with those units.
pub fn traced()
    ensures { Traced }
{}

/// The last line of a lot's stock card tells how many units of the lot are in the house.
pub fn last_lines_tell_units()
    ensures { LastLinesTellUnits }
{}

/// A run over requests that keep the values' rules leads from a history to a history, and so do the rows of a goods-in
/// file; where every request finds memory, the run is the one that the rules give.
pub fn runs_go_on()
    ensures histories { RunsGoOn }
    ensures files { FilesGoOn }
    ensures with_memory { RunsWithMemory }
{}

/// Leaving out the later requests that repeat an accepted key and command gives the same acts, and each of them was
/// answered with the first reply.
pub fn repeats_act_once()
    ensures same_acts { RepeatsActOnce }
    ensures first_reply { RepeatsGetTheFirstReply }
{}

/// The tables of books of schema 1, and those of schema 2, brought to the newest schema, are those of the same acts.
pub fn older_books_go_on()
    ensures first { FirstBooksGoOn }
    ensures second { SecondBooksGoOn }
{}
