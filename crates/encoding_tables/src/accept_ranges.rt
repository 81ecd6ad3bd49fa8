//! Which rows are taken as the GB18030 ranges, and which row is named in the others.

ghost use Rattle.std.specs.Prelude.{◌≡◌, ◌≤◌};
ghost use Rattle.encoding_tables.specs.RangeFaults.{first_out_of_order, first_bad_value};
ghost use Rattle.encoding_tables.specs.RangeFaults.{are_scalars, above_values, above_row, bad_row};
ghost use Rattle.encoding_tables.specs.Ranges.{end_by};

// The valid pointers: those of the basic plane end here, those of the other planes begin and end there.
pub(crate) const BASIC_END: u32 = 39420;

pub(crate) const OTHER_START: u32 = 189000;

pub(crate) const OTHER_END: u32 = 1237576;

// The first row whose pointer is not above the row before's, or is above the last valid one.
fn first_out_of_order(rows: &[(u32, u32)]) -> Option<usize>
    ensures { result ≡ first_out_of_order 0 0 rows.now }
{
    let mut from = 0;
    for (row, (pointer, _)) in rows.iter().enumerate() {
        if *pointer < from || *pointer >= OTHER_END {
            return Some(row);
        }
        from = *pointer + 1;
    }
    None
}

// Whether the numbers from `first` to below `end` are scalars from `least`.
fn are_scalars(least: u64, first: u64, end: u64) -> bool
    ensures { result ≡ are_scalars least first end }
{
    first >= least && (end <= 0xD800 || first >= 0xE000 && end <= 0x110000)
}

// One above the values of a row from the pointer `from` to below `to`, or `least` if there are
// none. None if a value is no scalar from `least`.
fn above_values(row: (u32, u32), from: u32, to: u32, least: u64) -> Option<u64>
    requires { row.0 ≤ from }
    ensures { result ≡ above_values row from to least }
{
    if from >= to {
        return Some(least);
    }
    let (pointer, code) = row;
    let first = code as u64 + (from - pointer) as u64;
    let end = code as u64 + (to - pointer) as u64;
    if are_scalars(least, first, end) {
        Some(end)
    } else {
        None
    }
}

// One above the values of a row at the valid pointers from its own to below `end`, or `least` if
// there are none. None if a value is no scalar from `least`.
fn above_row(row: (u32, u32), end: u32, least: u64) -> Option<u64>
    ensures { result ≡ above_row row end least }
{
    let least = above_values(row, row.0, end.min(BASIC_END), least)?;
    above_values(row, row.0.max(OTHER_START), end, least)
}

// The first row with a value that is no scalar from U+0080, or is not above those of the rows before.
fn first_bad_value(rows: &[(u32, u32)]) -> Option<usize>
    ensures { result ≡ first_bad_value 0 0x80 rows.now }
{
    let mut least = 0x80;
    for (row, entry) in rows.iter().enumerate() {
        match above_row(*entry, end_by(&rows[row + 1..]), least) {
            Some(above) => least = above,
            None => return Some(row),
        }
    }
    None
}

// Where the pointers of a row end, by the rows after it.
pub(crate) fn end_by(rows: &[(u32, u32)]) -> u32
    ensures { result ≡ end_by rows.now }
{
    match rows {
        [(pointer, _), ..] => *pointer,
        [] => OTHER_END,
    }
}

// The row that is named if rows are not taken.
pub(crate) fn bad_row(rows: &[(u32, u32)]) -> Option<usize>
    ensures { result ≡ bad_row rows.now }
{
    match first_out_of_order(rows) {
        Some(row) => Some(row),
        None => first_bad_value(rows),
    }
}
