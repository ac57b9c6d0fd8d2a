//! The decision on a command.

ghost use Rattle.std.specs.Prelude.{◌≡◌, ℤ, List, IsTrue, None, Ok, IfOk, IfErr};
ghost use Rattle.machine.specs.Acts.{Act};
ghost use Rattle.machine.specs.Once.{IsHistory, is_key_of, bearer};
ghost use Rattle.machine.specs.Tables.{tables_of};
ghost use Rattle.rules.specs.Slices.{IsSlice, IsDecision, NamesChangedReservations};
ghost use Rattle.machine.specs.Verdict.{first_refusal};
ghost use Rattle.rules.specs.Made.{IsMade};
ghost use Rattle.rules.specs.Commands.{command_seen, all_seen, command_changes};

use crate::{
    Change, RuleFault, Slice, change_adjust, change_bin, change_cancel, change_count, change_day,
    change_hold, change_item, change_least, change_move, change_order, change_pick, change_recall,
    change_receive, change_release, change_ship, change_unpick, change_urgent, judge_adjust,
    judge_bin, judge_cancel, judge_count, judge_day, judge_hold, judge_item, judge_least,
    judge_move, judge_order, judge_pick, judge_recall, judge_receive, judge_release, judge_ship,
    judge_unpick,
};
use commands::laws::{every_command_is_sound, every_key_is_sound};
use commands::limits::ACTS_MAX;
use commands::{Command, Key, Refusal};
use std::alloc::{AllocError, Global};

/// Judges a command by the rows that it touches, and says what it changes.
///
/// `Refused` has the first refusal whose condition holds, and `NoMemory` is answered only where the
/// command is accepted. Nothing is promised for rows that contradict one another, as no list of acts
/// gives them, but that the call returns.
pub fn decide(
    alloc: Global,
    slice: &Slice,
    key: &Key,
    command: &Command,
) -> Result<Change, RuleFault>
    ensures decides { (first : ℤ) (acts : List Act) →
        let act : Act = record { key = key.now; command = command.now } in
        IsHistory first acts → IsTrue (is_key_of key.now command.now) → bearer key.now acts ≡ None →
        IsSlice first act acts (tables_of first acts) slice.now → IsDecision first act acts result }
    ensures reservations { IfOk result (λ change. (first : ℤ) (acts : List Act) →
        let act : Act = record { key = key.now; command = command.now } in
        IsHistory first acts → IsTrue (is_key_of key.now command.now) → bearer key.now acts ≡ None →
        IsSlice first act acts (tables_of first acts) slice.now → NamesChangedReservations first act acts change) }
{
    every_command_is_sound(command);
    every_key_is_sound(*key);
    decision(alloc, slice, key, command)
}

fn decision(alloc: Global, slice: &Slice, key: &Key, command: &Command) -> Result<Change, RuleFault>
    ensures { IsMade (first_refusal (all_seen slice.now command.now)) (command_changes slice.now key.now command.now) result }
{
    if let Some(why) = refusal(slice, command) {
        return Err(RuleFault::Refused(why));
    }
    rule_result(change(alloc, slice, key, command))
}

// The number of acts is judged first.
fn refusal(slice: &Slice, command: &Command) -> Option<Refusal>
    ensures { result ≡ first_refusal (all_seen slice.now command.now) }
{
    if ACTS_MAX <= slice.meta.acts {
        return Some(Refusal::ActsFull);
    }
    judge(slice, command)
}

#[tactic(auto, using(crate::proofs::ByCommand::judged_as))]
fn judge(slice: &Slice, command: &Command) -> Option<Refusal>
    ensures { result ≡ first_refusal (command_seen slice.now command.now) }
{
    match command {
        Command::Item(item) => judge_item(slice, item),
        Command::Bin(bin) => judge_bin(slice, bin),
        Command::Receive(receipt) => judge_receive(slice, receipt),
        Command::Move(movement) => judge_move(slice, movement),
        Command::Count(count) => judge_count(slice, count),
        Command::Adjust(adjustment) => judge_adjust(slice, adjustment),
        Command::Order(order) => judge_order(slice, order),
        Command::Cancel(order) => judge_cancel(slice, order),
        Command::Pick(picking) => judge_pick(slice, picking),
        Command::Unpick(picking) => judge_unpick(slice, picking),
        Command::Ship(order) => judge_ship(slice, order),
        Command::Hold(lot) => judge_hold(slice, lot),
        Command::Release(lot) => judge_release(slice, lot),
        Command::Recall(lot) => judge_recall(slice, lot),
        Command::OpenDay(day) => judge_day(slice, *day),
        Command::Least(least) => judge_least(slice, least),
        Command::Urgent(order) => judge_order(slice, order),
    }
}

// What the command changes, where it is accepted.
#[tactic(auto, using(crate::proofs::ByCommand::changed_as))]
fn change(alloc: Global, slice: &Slice, key: &Key, command: &Command) -> Result<Change, AllocError>
    ensures { IfOk result (λ change. change ≡ command_changes slice.now key.now command.now) }
{
    match command {
        Command::Item(item) => change_item(alloc, slice, item),
        Command::Bin(bin) => change_bin(alloc, slice, bin),
        Command::Receive(receipt) => change_receive(alloc, slice, key, receipt),
        Command::Move(movement) => change_move(alloc, slice, movement),
        Command::Count(count) => change_count(alloc, slice, count),
        Command::Adjust(adjustment) => change_adjust(alloc, slice, adjustment),
        Command::Order(order) => change_order(alloc, slice, order),
        Command::Cancel(order) => change_cancel(alloc, slice, order),
        Command::Pick(picking) => change_pick(alloc, slice, picking),
        Command::Unpick(picking) => change_unpick(alloc, slice, picking),
        Command::Ship(order) => change_ship(alloc, slice, order),
        Command::Hold(lot) => change_hold(alloc, slice, lot),
        Command::Release(lot) => change_release(alloc, slice, lot),
        Command::Recall(lot) => change_recall(alloc, slice, lot),
        Command::OpenDay(day) => change_day(alloc, slice, *day),
        Command::Least(least) => change_least(alloc, slice, least),
        Command::Urgent(order) => change_urgent(alloc, slice, order),
    }
}

// What is answered where the command is accepted.
fn rule_result(change: Result<Change, AllocError>) -> Result<Change, RuleFault>
    ensures ok { IfOk result (λ made. change ≡ Ok made) }
    ensures err { IfErr result (λ fault. fault ≡ RuleFault.NoMemory) }
{
    match change {
        Ok(change) => Ok(change),
        Err(_) => Err(RuleFault::NoMemory),
    }
}
