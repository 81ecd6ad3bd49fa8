//! A binary search among rows in order.

ghost use Rattle.std.specs.Prelude.{◌≡◌, length};
ghost use Rattle.encoding_tables.specs.calls.SortedRows.{is_below, AreRising, IsRank};
ghost use Rattle.encoding_tables.specs.calls.SortedRows.{IsWithinDigits};

// Whether a row is below a key: by the first number, and by the second if the first are equal.
#[inline(always)]
fn is_below(row: (u32, u32), key: (u32, u32)) -> bool
    ensures { result ≡ is_below row key }
{
    row.0 < key.0 || row.0 == key.0 && row.1 < key.1
}

/// Of the two numbers that are returned, the first is how many of some rows are below `key`: the
/// position of the first row that is not, if there is one. The second is how many rows were
/// compared with `key`: at most the number of binary digits of how many rows there are.
///
/// A row is below another by its first number, and by the second if the first are equal. The rows
/// rise strictly in this order, which no rows and one row do. A comparison of neighbours tests it:
///
///     rows.windows(2).all(|pair| {
///         pair[0].0 < pair[1].0 || pair[0].0 == pair[1].0 && pair[0].1 < pair[1].1
///     })
#[inline(always)]
pub fn search(rows: &[(u32, u32)], key: (u32, u32)) -> (usize, u32)
    requires { AreRising rows.now }
    ensures rank { IsRank rows.now key result.0 }
    ensures compared { IsWithinDigits result.1 (length rows.now) }
{
    match rows {
        [] => (0, 0),
        [row] => (is_below(*row, key) as usize, 1),
        _ => search_by_halves(rows, key),
    }
}

fn search_by_halves(rows: &[(u32, u32)], key: (u32, u32)) -> (usize, u32)
    requires { AreRising rows.now }
    ensures rank { IsRank rows.now key result.0 }
    ensures compared { IsWithinDigits result.1 (length rows.now) }
{
    let mut low = 0;
    let mut high = rows.len();
    let mut compared = 0;
    'halves: while low < high {
        let middle = low + (high - low) / 2;
        compared += 1;
        if is_below(rows[middle], key) {
            low = middle + 1;
        } else {
            high = middle;
        }
    }
    (low, compared)
}
