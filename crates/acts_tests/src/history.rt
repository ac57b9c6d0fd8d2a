//! The history of two days as lines, and parts of it.

/// The lines of their acts.
static LINES: &[u8] =
    b"1\t2026-05-04\tK/K-1\tITEM\t09506000134352\tOat drink\n2\t2026-05-04\tK/K-2\tBIN\tA-01\tSTORE\n3\t2026-05-04\tD/D-1/1\tRECEIVE\t09506000134352\tL1\t2026-06-30\tA-01\t10\n4\t2026-05-04\tD/D-1/2\tRECEIVE\t09506000134352\tL2\t2026-05-31\tA-01\t10\n5\t2026-05-04\tK/K-5\tORDER\tS-1\tCorner Shop\t09506000134352\t12\n6\t2026-05-05\tK/K-6\tOPENDAY\t2026-05-05\n7\t2026-05-05\tK/K-7\tPICK\tS-1\t09506000134352\tL2\tA-01\t10\n8\t2026-05-05\tK/K-8\tSHIP\tS-1\n9\t2026-05-05\tD/D-2/1\tRECEIVE\t09506000134352\tL3\t2026-07-31\tA-01\t4\n10\t2026-05-05\tK/K-10\tRECALL\t09506000134352\tL2\n";

/// How many they are.
pub(crate) const ALL: usize = 10;

/// All lines.
pub(crate) fn lines() -> &'static [u8] {
    LINES
}

// Where the line behind so many begins.
fn place_behind(count: usize) -> usize {
    let lines = lines();
    let mut left = count;
    for (at, byte) in lines.iter().enumerate() {
        if left == 0 {
            return at;
        }
        if *byte == b'\n' {
            left -= 1;
        }
    }
    lines.len()
}

/// The lines behind the first so many, up to the last of so many.
pub(crate) fn part(from: usize, to: usize) -> &'static [u8] {
    lines()
        .get(place_behind(from)..place_behind(to))
        .unwrap_or(&[])
}

/// The number of the line to which the byte at this place belongs.
pub(crate) fn line_at(at: usize) -> u64 {
    let mut number: u64 = 1;
    for byte in lines().get(..at).unwrap_or(&[]) {
        if *byte == b'\n' {
            number = number.saturating_add(1);
        }
    }
    number
}
