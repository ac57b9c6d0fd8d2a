//! What is asked of the books, and the answer to it.

ghost use Rattle.std.specs.Prelude.{◌≡◌, ◌≢◌, ℤ, List, Err, codes};
ghost use Rattle.machine.specs.Acts.{Act};
ghost use Rattle.machine.specs.Once.{IsHistory};
ghost use Rattle.store.specs.Books.{IsClean, AreAsBefore};
ghost use Rattle.house.specs.Answers.{act_answer, acts_with, status_of};
ghost use Rattle.house.specs.Asking.{Does, told_answer, act_of, delivered, scanned_answer, scanned_acts};

use commands::laws::{every_command_is_sound, every_key_is_sound};
use commands::{Command, Key, Receipt};
use label::read;
use requests::WireFault;
use sqlite::Alter;
use store::{Books, Fault, Reply};
use values::{LineNo, LotId, Name, Qty};
use wire::Block;
use wire::short_answers::{conflict, fault_answer, foreign_books, label_answer, reply_answer};

/// The answer that tells how an act went. It takes no memory.
fn reply_block(done: Result<Reply, Fault>) -> Block
    ensures { result ≡ told_answer done }
{
    match done {
        Ok(reply) => reply_answer(&reply.text),
        Err(fault) => answer_act_fault(fault),
    }
}

/// The answer where an act was refused, or failed. It takes no memory.
fn answer_act_fault(fault: Fault) -> Block
    ensures { result ≡ told_answer (Err fault) }
{
    match fault {
        Fault::Refused(why) => conflict(why),
        Fault::Store => fault_answer(WireFault::Memory),
        Fault::Foreign => foreign_books(),
    }
}

/// Acts on a command, and tells how it went.
pub(crate) fn act<S: Alter>(books: &mut Books<S>, key: &Key, command: &Command) -> Block
    ensures clean { IsClean S.Store books.new → IsClean S.Store books.old }
    ensures acted { IsClean S.Store books.new → (first : ℤ) (acts : List Act) → IsHistory first acts
        → Does S.Store first acts books.old (act_answer first acts (act_of key.now command.now)) (acts_with first acts (act_of key.now command.now)) result books.new }
    ensures as_before { IsClean S.Store books.new → status_of result ≢ codes "HTTP/1.1 200" → AreAsBefore S.Store books.old books.new }
{
    every_command_is_sound(command);
    every_key_is_sound(*key);
    if !key.is_of(command) {
        return fault_answer(WireFault::Path);
    }
    reply_block(books.act(key, command))
}

/// Receives what a scanned label says. The label is read at the business day of the books.
pub(crate) fn scan<S: Alter>(
    books: &mut Books<S>,
    delivery: Name,
    line: LineNo,
    label: &[u8],
    bin: Name,
    qty: Qty,
) -> Block
    ensures clean { IsClean S.Store books.new → IsClean S.Store books.old }
    ensures acted { IsClean S.Store books.new → (first : ℤ) (acts : List Act) → IsHistory first acts
        → Does S.Store first acts books.old (scanned_answer first acts (delivered delivery line bin qty) label.now) (scanned_acts first acts (delivered delivery line bin qty) label.now) result books.new }
    ensures as_before { IsClean S.Store books.new → status_of result ≢ codes "HTTP/1.1 200" → AreAsBefore S.Store books.old books.new }
{
    let today = books.day();
    match read(label, today) {
        Ok(label) => {
            let lot = LotId {
                gtin: label.gtin,
                lot: label.lot,
            };
            let receipt = Receipt {
                lot,
                expiry: label.expiry,
                bin,
                qty,
            };
            act(
                books,
                &Key::Line(delivery, line),
                &Command::Receive(receipt),
            )
        }
        Err(fault) => label_answer(fault),
    }
}
