//! The first page of a database in which nothing is.
//!
//! An act logs each page that it changes whole, and changes a few rows on each. So the pages are of 1,024 bytes; a new
//! file that is opened without one has pages of 4,096.

ghost use Rattle.std.specs.Prelude.{◌≡◌, ◌-◌, length, take, drop, replicate};

/// How many bytes a page has.
pub const PAGE: usize = 1024;

/// The head of an empty database of one page: SQLite's file format, section 1.3, and from byte 100 on the header of a
/// page of a table's tree, section 1.6. The bytes behind it are 0.
const HEAD: [u8; 108] = [
    // 0: the magic text, with a zero at its end
    b'S', b'Q', b'L', b'i', b't', b'e', b' ', b'f', b'o', b'r', b'm', b'a', b't', b' ', b'3', 0,
    // 16: the bytes of a page, high byte first; 18: written and read with a log; 20: nothing reserved at a page's end
    4, 0, 2, 2, 0, // 21: how much of a page a payload may fill, in 255ths, as the format asks
    64, 32, 32, // 24: changes so far; 28: pages
    0, 0, 0, 0, 0, 0, 0, 1, // 32: the first page that is free; 36: how many are; 40: changes of the schema
    0, 0, 0, 0, 0, 0, 0, 0, 0, 0, 0, 0, // 44: the format of the schema; 48: pages to keep in memory
    0, 0, 0, 4, 0, 0, 0, 0, // 52: no vacuuming; 56: text is UTF-8; 60: the user's version; 64: no vacuuming
    0, 0, 0, 0, 0, 0, 0, 1, 0, 0, 0, 0, 0, 0, 0, 0, // 68: the application; 72: kept free
    0, 0, 0, 0, 0, 0, 0, 0, 0, 0, 0, 0, 0, 0, 0, 0, 0, 0, 0, 0, 0, 0, 0, 0,
    // 92: the changes for which the next holds; 96: the version of SQLite that writes such files
    0, 0, 0, 0, 0, 46, 118, 136,
    // 100: a leaf of a table; 101: no free block; 103: no cell; 105: cells begin at the page's end; 107: no fragment
    13, 0, 0, 0, 0, 4, 0, 0,
];

/// The page.
pub fn first_page() -> [u8; PAGE]
    ensures head { take (length HEAD) result ≡ HEAD }
    ensures rest { drop (length HEAD) result ≡ replicate (PAGE - length HEAD) 0 }
{
    let mut page = [0; PAGE];
    page[..HEAD.len()].copy_from_slice(&HEAD);
    page
}
