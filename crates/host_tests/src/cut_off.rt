//! Requests that break off, and answers that cannot be written: the books are as they were, or have the act once.

use crate::deeds::{Deed, heard_of};
use book_trials::{Exchange, Receiver, Sender, of_act, opened_books};
use books_schema::ready_connection::Orderly;
use house::{House, ServeFault};
use sqlite::{Alter, Connection};
use std::alloc::Global;
use std::process::Abort;

// A bin of its own for each number.
static NEW_BIN: &str = r#"POST /bins {"key":"K-~","bin":"B-~","kind":"STORE"} => 200 {"act":^}"#;

// The reader fails after each number of bytes of the request: nothing is answered.
fn readers_fail<S: Alter>(
    rt: &impl Abort,
    alloc: Global,
    house: &mut House<S>,
    exchange: &Exchange,
) {
    for sent in 0..exchange.asked.len() {
        let mut sender = Sender::failing(exchange.asked.as_str(), sent);
        let mut receiver = Receiver::whole(alloc);
        let end = house.serve_one(&mut sender, &mut receiver);
        assert!(rt;
            end == Err(ServeFault::Read) && receiver.taken.is_empty(),
            "{sent}"
        );
    }
}

// The writer fails after so many bytes of the answer, or at the flush: a beginning of the answer was written, the act stands,
// and the request has the same answer when it comes again. Both are logged.
fn writer_fails<S: Alter>(
    rt: &impl Abort,
    alloc: Global,
    house: &mut House<S>,
    exchange: &Exchange,
    room: usize,
) {
    let told = exchange.told.as_bytes();
    let mut sender = Sender::whole(exchange.asked.as_str());
    let mut receiver = Receiver::failing(alloc, room);
    let mut log = Receiver::sipping(alloc, 3);
    let served = house.serve_one_logged(&mut sender, &mut receiver, &mut log);
    assert!(rt; served.answered == Err(ServeFault::Write) && served.logged.is_ok());
    assert!(rt;
        receiver.taken.as_slice() == &told[..room.min(told.len())],
        "{room}"
    );
    let mut sender = Sender::whole(exchange.asked.as_str());
    let mut receiver = Receiver::whole(alloc);
    let served = house.serve_one_logged(&mut sender, &mut receiver, &mut log);
    assert!(rt; served.answered == Ok(()) && served.logged.is_ok());
    assert!(rt; receiver.taken.as_slice() == told, "{room}");
    let line = format!(in alloc; "POST /bins 200 {}\n", told.len())
        .ok()
        .expect(rt, "memory");
    let twice = line.repeat(alloc, 2).ok().expect(rt, "memory");
    assert!(rt; log.taken.as_slice() == twice.as_bytes());
}

fn bin(rt: &impl Abort, alloc: Global, number: u64) -> Exchange {
    let line = of_act(alloc, NEW_BIN, number, number.saturating_add(1)).expect(rt, "memory");
    Exchange::of_line(alloc, line.as_str()).expect(rt, "an exchange")
}

// Readers and writers fail; all are about one house.
pub(crate) fn broken_off<S: Orderly + Drop>(
    rt: &impl Abort,
    alloc: Global,
    conn: Connection<S>,
) -> Connection<S> {
    let mut house = House::new(alloc, opened_books(alloc, conn).expect(rt, "books"));
    readers_fail(rt, alloc, &mut house, &bin(rt, alloc, 0));
    for number in 0..110 {
        writer_fails(
            rt,
            alloc,
            &mut house,
            &bin(rt, alloc, number),
            number as usize,
        );
    }
    house.close().close()
}

#[test]
fn clients_break_off(rt: HostRuntime) {
    drop(heard_of(&rt, &rt, [Deed::Make, Deed::BreakOff].as_slice()));
}
