// The rows of a table image, from a position of its bytes on: each word of four bytes, the least first.
ghost use Rattle.std.specs.Prelude.{◌≡◌, ◌+◌, ◌*◌, ◌≤◌, length, take};
ghost use Rattle.input.specs.Rows.{words_at, rows_at};

/// The words of one row.
fn row_at<const WIDTH: usize>(src: &[u8], at: usize) -> [u32; WIDTH]
    requires { at + 4 * WIDTH ≤ length src.now }
    ensures { result ≡ words_at src.now at WIDTH }
{
    std::array::from_fn(|i| cip::u32_at(src, at + 4 * i))
}

/// The first n rows of a table, and rows of zeros behind them.
pub fn rows<const WIDTH: usize, const MOST: usize>(
    src: &[u8],
    at: usize,
    n: usize,
) -> [[u32; WIDTH]; MOST]
    requires { (n ≤ MOST) × (at + 4 * WIDTH * n ≤ length src.now) }
    ensures { (MOST ≡ length result) × (take n result ≡ rows_at src.now at WIDTH n) }
{
    let mut rows = [[0; WIDTH]; MOST];
    for (i, row) in rows[..n].iter_mut().enumerate() {
        *row = row_at(src, at + 4 * WIDTH * i);
    }
    rows
}
