ghost use Rattle.std.specs.Prelude.{◌≡◌, ◌+◌, ◌≤◌, ◌++◌, length, codes, decimal, IfOk, Some, None};
ghost use Rattle.wire.specs.Answers.{phrase as phrase_lem, CRLF, json_type, allow_line, head_text, answer_text, answer_bytes};

use crate::bin::bin_json;
use crate::books::books_json;
use crate::expiring::expiring_json;
use crate::figures::figures_json;
use crate::item_names::item_names_json;
use crate::open_orders::open_orders_json;
use crate::order::order_json;
use crate::picks::picks_json;
use crate::stock::stock_json;
use crate::trace::trace_json;
use commands::{Buffer, Listed, OrderView, Short, StockView};
use http::StatusCode;
use overviews::{
    BinView, BooksView, ExpiringView, FiguresView, ItemNamesView, OpenOrdersView, PicksView,
    TraceView,
};
use requests::Method;
use std::alloc::{AllocError, Global};

/// An answer that is written in place, of at most 512 bytes.
pub type Block = Buffer<512>;

fn phrase(status: u16) -> &'static str
    ensures value { result.now ≡ phrase_lem status }
    ensures size { length result.now ≤ 20 }
{
    match status {
        200 => "OK",
        400 => "Bad Request",
        404 => "Not Found",
        405 => "Method Not Allowed",
        409 => "Conflict",
        413 => "Content Too Large",
        503 => "Service Unavailable",
        _ => "",
    }
}

fn push_status(block: &mut Block, status: u16)
    requires { length block.old ≤ 300 }
    ensures value { block.new ≡ block.old ++ codes "HTTP/1.1 " ++ decimal status ++ codes " "
        ++ phrase_lem status ++ CRLF }
    ensures size { length block.new ≤ length block.old + 60 }
{
    block.push_all(b"HTTP/1.1 ");
    block.push_decimal(status as u64);
    block.push_all(b" ");
    block.push_all(phrase(status).as_bytes());
    block.push_all(b"\r\n");
}

fn push_fields(block: &mut Block, kind: &[u8], size: u64)
    requires room { length block.old ≤ 300 }
    requires kind { length kind.now ≤ 16 }
    ensures value { block.new ≡ block.old ++ codes "content-type: " ++ kind.now ++ CRLF
        ++ codes "content-length: " ++ decimal size ++ CRLF ++ codes "connection: close" ++ CRLF }
    ensures size { length block.new ≤ length block.old + 100 }
{
    block.push_all(b"content-type: ");
    block.push_all(kind);
    block.push_all(b"\r\ncontent-length: ");
    block.push_decimal(size);
    block.push_all(b"\r\nconnection: close\r\n");
}

fn push_allow(block: &mut Block, allow: Option<Method>)
    requires { length block.old ≤ 300 }
    ensures value { block.new ≡ block.old ++ allow_line allow }
    ensures size { length block.new ≤ length block.old + 30 }
{
    if let Some(method) = allow {
        block.push_all(b"allow: ");
        block.push_all(method.name().as_bytes());
        block.push_all(b"\r\n");
    }
}

#[tactic(auto, unfolding(crate::specs::Answers::head_text))]
fn head(status: u16, kind: &[u8], size: u64, allow: Option<Method>) -> Block
    requires { length kind.now ≤ 16 }
    ensures value { result ≡ head_text status kind.now size allow }
    ensures size { length result ≤ 200 }
{
    let mut block = Block::new();
    push_status(&mut block, status);
    push_fields(&mut block, kind, size);
    push_allow(&mut block, allow);
    block.push_all(b"\r\n");
    block
}

/// The bytes of an answer with a short JSON text, with the method that a 405 names. A status that
/// the server does not answer has an empty phrase.
pub fn write_short(status: StatusCode, allow: Option<Method>, short: &Short) -> Block
    ensures bytes { result ≡ answer_text status json_type allow short.now }
    ensures size { length result ≤ 512 }
{
    let body = short.as_bytes();
    let size = body.len() as u64;
    let mut block = head(status.as_u16(), b"application/json", size, allow);
    block.push_all(body);
    block
}

fn with_head(alloc: Global, kind: &[u8], body: &[u8]) -> Result<Vec<u8>, AllocError>
    requires { length kind.now ≤ 16 }
    ensures { IfOk result (λ b. b.items ≡ answer_text 200 kind.now None body.now) }
{
    let front = head(200, kind, body.len() as u64, None);
    let mut out = Vec::from_slice(alloc, front.as_bytes())?;
    out.extend_from_slice(body)?;
    Ok(out)
}

/// What a GET is answered.
#[derive(Drop)]
pub enum Answer {
    /// The books, as JSON.
    Books(BooksView),
    /// Open orders, as JSON.
    OpenOrders(OpenOrdersView),
    /// Items, as JSON.
    ItemNames(ItemNamesView),
    /// Lots that expire, as JSON.
    Expiring(ExpiringView),
    /// What is in a bin, as JSON.
    Bin(BinView),
    /// The stock of an item, as JSON.
    Stock(StockView),
    /// An order, as JSON.
    Order(OrderView),
    /// A text that is written already.
    Text(Listed<u8>),
    /// The trace of a lot, as JSON.
    Trace(TraceView),
    /// The pick list of an order, as JSON.
    Picks(PicksView),
    /// The figures of the house, as JSON.
    Figures(FiguresView),
}

/// The bytes of an answer to a GET, of status 200. The only error is want of memory.
pub fn write_answer(alloc: Global, answer: &Answer) -> Result<Vec<u8>, AllocError>
    ensures { IfOk result (λ b. b.items ≡ answer_bytes answer.now) }
{
    match answer {
        Answer::Books(shown) => {
            let body = books_json(alloc, shown)?;
            with_head(alloc, b"application/json", body.as_slice())
        }
        Answer::OpenOrders(shown) => {
            let body = open_orders_json(alloc, shown)?;
            with_head(alloc, b"application/json", body.as_slice())
        }
        Answer::ItemNames(shown) => {
            let body = item_names_json(alloc, shown)?;
            with_head(alloc, b"application/json", body.as_slice())
        }
        Answer::Expiring(shown) => {
            let body = expiring_json(alloc, shown)?;
            with_head(alloc, b"application/json", body.as_slice())
        }
        Answer::Bin(shown) => {
            let body = bin_json(alloc, shown)?;
            with_head(alloc, b"application/json", body.as_slice())
        }
        Answer::Stock(shown) => {
            let body = stock_json(alloc, shown)?;
            with_head(alloc, b"application/json", body.as_slice())
        }
        Answer::Order(shown) => {
            let body = order_json(alloc, shown)?;
            with_head(alloc, b"application/json", body.as_slice())
        }
        Answer::Text(text) => with_head(alloc, b"text/plain", text.as_slice()),
        Answer::Trace(shown) => {
            let body = trace_json(alloc, shown)?;
            with_head(alloc, b"application/json", body.as_slice())
        }
        Answer::Picks(shown) => {
            let body = picks_json(alloc, shown)?;
            with_head(alloc, b"application/json", body.as_slice())
        }
        Answer::Figures(shown) => {
            let body = figures_json(alloc, shown)?;
            with_head(alloc, b"application/json", body.as_slice())
        }
    }
}
