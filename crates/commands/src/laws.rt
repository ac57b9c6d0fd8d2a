// The laws of commands and keys: functions without effect, whose contracts are what counts.

ghost use Rattle.std.specs.Prelude.{IsTrue};
ghost use Rattle.std.specs.List.{list_all};
ghost use Rattle.std.specs.Str.{IsAscii};
ghost use Rattle.commands.specs.Laws.{OneSpellingACommand, OneTextAKey, BinKindsAreNamed, OrderStatesAreNamed, CardKindsAreNamed, LotStatusesAreNamed};
ghost use Rattle.commands.specs.Spelling.{key_text, spelling};
ghost use Rattle.commands.specs.Sound.{is_lot_id, is_order_line, is_picking, is_sound, is_sound_key};

use crate::{Command, Key, OrderLine, Picking};
use values::LotId;

/// Two commands with one spelling are one command, where every value keeps its rule.
pub fn one_spelling_a_command()
    ensures { OneSpellingACommand }
{}

/// Two keys with one text are one key, where every value keeps its rule.
pub fn one_text_a_key()
    ensures { OneTextAKey }
{}

/// Each kind and each state has a word of its own, and no other text is the word of any.
pub fn words_name_one_each()
    ensures bin_kinds { BinKindsAreNamed }
    ensures order_states { OrderStatesAreNamed }
    ensures card_kinds { CardKindsAreNamed }
    ensures lot_statuses { LotStatusesAreNamed }
{}

/// Every value of a command keeps its rule, by its type; so its spelling is ASCII.
#[tactic(auto, using(crate::proofs::AsciiTexts::spelling_ascii))]
pub fn every_command_is_sound(command: &Command)
    ensures sound { IsTrue (is_sound command.now) }
    ensures ascii { IsAscii (spelling command.now) }
{
    match command {
        Command::Item(item) => {
            let _ = item.gtin.as_bytes();
            let _ = item.name.as_bytes();
        }
        Command::Bin(bin) => {
            let _ = bin.bin.as_bytes();
        }
        Command::Receive(receipt) => {
            lot_is_sound(&receipt.lot);
            let _ = receipt.expiry.number();
            let _ = receipt.bin.as_bytes();
            let _ = receipt.qty.units();
        }
        Command::Move(movement) => {
            lot_is_sound(&movement.lot);
            let _ = movement.from.as_bytes();
            let _ = movement.to.as_bytes();
            let _ = movement.qty.units();
        }
        Command::Count(recount) => {
            lot_is_sound(&recount.lot);
            let _ = recount.bin.as_bytes();
            let _ = recount.qty.units();
        }
        Command::Adjust(adjustment) => {
            lot_is_sound(&adjustment.lot);
            let _ = adjustment.bin.as_bytes();
            let _ = adjustment.change.change();
        }
        Command::Order(order) | Command::Urgent(order) => {
            let _ = order.order.as_bytes();
            let _ = order.customer.as_bytes();
            lines_are_sound(order.lines.as_slice());
        }
        Command::Cancel(order) | Command::Ship(order) => {
            let _ = order.as_bytes();
        }
        Command::Pick(picking) | Command::Unpick(picking) => picking_is_sound(picking),
        Command::Hold(lot) | Command::Release(lot) | Command::Recall(lot) => lot_is_sound(lot),
        Command::OpenDay(day) => {
            let _ = day.day();
        }
        Command::Least(least) => {
            let _ = least.gtin.as_bytes();
            let _ = least.days.days();
        }
    }
}

/// Every value of a key keeps its rule, by its type; so its text is ASCII.
#[tactic(auto, using(crate::proofs::AsciiTexts::key_text_ascii))]
pub fn every_key_is_sound(key: Key)
    ensures sound { IsTrue (is_sound_key key) }
    ensures ascii { IsAscii (key_text key) }
{}

fn lot_is_sound(lot: &LotId)
    ensures { IsTrue (is_lot_id lot.now) }
{
    let _ = lot.gtin.as_bytes();
    let _ = lot.lot.as_bytes();
}

fn picking_is_sound(picking: &Picking)
    ensures { IsTrue (is_picking picking.now) }
{
    lot_is_sound(&picking.lot);
    let _ = picking.order.as_bytes();
    let _ = picking.bin.as_bytes();
    let _ = picking.qty.units();
}

fn lines_are_sound(lines: &[OrderLine])
    ensures { IsTrue (list_all is_order_line lines.now) }
{
    for line in lines {
        let _ = line.gtin.as_bytes();
        let _ = line.qty.units();
    }
}
