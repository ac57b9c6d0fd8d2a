ghost use Rattle.std.specs.Prelude.{◌≡◌, ◌+◌, ◌≤◌, ◌<◌, ◌++◌, ◌∷◌, [], length, decimal};
ghost use Rattle.std.specs.Fmt.{signed_decimal};

use std::marker::Model;
use values::Text;

/// A text of at most N bytes that is written in place, piece after piece.
#[derive(Drop)]
pub struct Buffer<const N: usize> {
    bytes: [u8; N],
    len: usize,
}

impl<const N: usize> Model for Buffer<N> {
    ghost use Rattle.std.specs.Prelude.{ℕ, List, take, ◌≤◌};

    ghost Value = { List ℕ };

    ghost view = { λ b. take b.len b.bytes };

    ghost invariant = { λ b. b.len ≤ N };
}

impl<const N: usize> Buffer<N> {
    /// A buffer with no bytes.
    pub fn new() -> Self
        ensures { result ≡ [] }
    {
        Buffer {
            bytes: [0; N],
            len: 0,
        }
    }

    /// The bytes written so far.
    pub fn as_bytes(&self) -> &[u8]
        ensures { result.now ≡ self.now }
    {
        &self.bytes[..self.len]
    }

    /// The text written so far.
    pub fn text(&self) -> Text<N>
        ensures text { result ≡ self.now }
        ensures bound { length self.now ≤ N }
    {
        Text::new(&self.bytes[..self.len]).unwrap()
    }

    /// Adds a byte.
    pub fn push(&mut self, byte: u8)
        requires { length self.old < N }
        ensures text { self.new ≡ self.old ++ byte ∷ [] }
        ensures size { length self.new ≡ length self.old + 1 }
    {
        self.bytes[self.len] = byte;
        self.len += 1;
    }

    /// Adds bytes.
    pub fn push_all(&mut self, more: &[u8])
        requires { length self.old + length more.now ≤ N }
        ensures text { self.new ≡ self.old ++ more.now }
        ensures size { length self.new ≡ length self.old + length more.now }
    {
        for byte in more {
            self.push(*byte);
        }
    }

    /// Adds a number in decimal, for which there is room: it has 20 digits at most.
    pub fn push_decimal(&mut self, n: u64)
        requires { length self.old + 20 ≤ N }
        ensures text { self.new ≡ self.old ++ decimal n }
        ensures size { length self.new ≤ length self.old + 20 }
    {
        self.push_all(decimal_text(n).as_bytes());
    }

    /// Adds a number in decimal, with `-` where it is negative. There is room for 21 bytes.
    pub fn push_signed(&mut self, n: i64)
        requires { length self.old + 21 ≤ N }
        ensures text { self.new ≡ self.old ++ signed_decimal n }
        ensures size { length self.new ≤ length self.old + 21 }
    {
        self.push_all(signed_text(n).as_bytes());
    }
}

/// A number in decimal.
pub fn decimal_text(n: u64) -> Buffer<20>
    ensures text { result ≡ decimal n }
    ensures size { length result ≤ 20 }
{
    if n < 10 {
        let mut text = Buffer::new();
        text.push(b'0' + n as u8);
        return text;
    }
    let mut text = decimal_text(n / 10);
    text.push(b'0' + (n % 10) as u8);
    text
}

/// A number in decimal, with `-` where it is negative.
pub fn signed_text(n: i64) -> Buffer<21>
    ensures text { result ≡ signed_decimal n }
    ensures size { length result ≤ 21 }
{
    let mut text = Buffer::new();
    if n < 0 {
        text.push(b'-');
    }
    text.push_decimal(n.unsigned_abs());
    text
}
