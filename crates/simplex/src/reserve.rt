//! Vectors that keep their memory while their lengths change.

ghost use Rattle.std.specs.Prelude.{◌≡◌, ℕ, ◌+◌, ◌-◌, ◌<◌, ◌≤◌, length, vec_capacity, IfOk};
ghost use Rattle.simplex.specs.Tableau.{AreWide, RowsHold};

use std::alloc::{AllocError, Global};

/// So many empty rows, each with memory for this width.
pub fn blank_rows(alloc: Global, count: usize, width: usize) -> Result<Vec<Vec<i128>>, AllocError>
    ensures count { IfOk result (λ rows. length rows.items ≡ count) }
    ensures room { IfOk result (λ rows. count ≤ vec_capacity rows) }
    ensures hold { IfOk result (λ rows. RowsHold width rows.items) }
{
    let mut rows = Vec::with_capacity(alloc, count)?;
    while rows.len() < count {
        rows.push(Vec::with_capacity(alloc, width)?)?;
    }
    Ok(rows)
}

/// Moves the last row.
fn move_row(from: &mut Vec<Vec<i128>>, to: &mut Vec<Vec<i128>>)
    requires some { 0 < length from.old.items }
    requires room { length to.old.items < vec_capacity to.old }
    ensures from { length from.new.items + 1 ≡ length from.old.items }
    ensures to { length to.new.items ≡ length to.old.items + 1 }
    ensures from_room { vec_capacity from.new ≡ vec_capacity from.old }
    ensures to_room { vec_capacity to.new ≡ vec_capacity to.old }
    ensures from_hold { (width : ℕ) → RowsHold width from.old.items → RowsHold width from.new.items }
    ensures to_hold { (width : ℕ) → RowsHold width from.old.items → RowsHold width to.old.items →
        RowsHold width to.new.items }
{
    if let Some(row) = from.pop() {
        to.push_reserved(row);
    }
}

/// Moves the last rows, until `left` are left.
fn move_rows(from: &mut Vec<Vec<i128>>, to: &mut Vec<Vec<i128>>, left: usize)
    requires enough { left ≤ length from.old.items }
    requires room { length from.old.items + length to.old.items ≤ left + vec_capacity to.old }
    ensures from { length from.new.items ≡ left }
    ensures both { length from.new.items + length to.new.items ≡ length from.old.items + length to.old.items }
    ensures from_room { vec_capacity from.new ≡ vec_capacity from.old }
    ensures to_room { vec_capacity to.new ≡ vec_capacity to.old }
    ensures hold { (width : ℕ) → RowsHold width from.old.items → RowsHold width to.old.items →
        RowsHold width from.new.items × RowsHold width to.new.items }
{
    while from.len() > left {
        move_row(from, to);
    }
}

/// Takes rows from the spare ones, or gives some back, until there are `height`.
pub fn set_height(rows: &mut Vec<Vec<i128>>, spare: &mut Vec<Vec<i128>>, height: usize)
    requires enough { height ≤ length rows.old.items + length spare.old.items }
    requires room { height ≤ vec_capacity rows.old }
    requires spare_room { length rows.old.items + length spare.old.items ≤ vec_capacity spare.old }
    ensures height { length rows.new.items ≡ height }
    ensures both { length rows.new.items + length spare.new.items ≡ length rows.old.items + length spare.old.items }
    ensures room { vec_capacity rows.new ≡ vec_capacity rows.old }
    ensures spare_room { vec_capacity spare.new ≡ vec_capacity spare.old }
    ensures hold { (width : ℕ) → RowsHold width rows.old.items → RowsHold width spare.old.items →
        RowsHold width rows.new.items × RowsHold width spare.new.items }
{
    let now = rows.len();
    if now < height {
        let left = spare.len() - (height - now);
        move_rows(spare, rows, left);
    } else {
        move_rows(rows, spare, height);
    }
}

/// Gives the list this length within its memory.
pub fn set_length(list: &mut Vec<u32>, len: usize)
    requires { len ≤ vec_capacity list.old }
    ensures len { length list.new.items ≡ len }
    ensures room { vec_capacity list.old ≤ vec_capacity list.new }
{
    let done = list.resize(len, 0);
    prove!(done.is_ok());
}

/// Gives the words this width within their memory.
pub fn set_words(words: &mut Vec<i64>, width: usize)
    requires { width ≤ vec_capacity words.old }
    ensures width { length words.new.items ≡ width }
    ensures room { vec_capacity words.old ≤ vec_capacity words.new }
{
    let done = words.resize(width, 0);
    prove!(done.is_ok());
}

/// Gives the row this width within its memory.
fn set_width(row: &mut Vec<i128>, width: usize)
    requires { width ≤ vec_capacity row.old }
    ensures width { length row.new.items ≡ width }
    ensures room { vec_capacity row.old ≤ vec_capacity row.new }
{
    let done = row.resize(width, 0);
    prove!(done.is_ok());
}

/// Gives all rows this width within their memory.
pub fn set_widths(rows: &mut [Vec<i128>], width: usize)
    requires { RowsHold width rows.old }
    ensures wide { AreWide rows.new width }
    ensures hold { (most : ℕ) → RowsHold most rows.old → RowsHold most rows.new }
{
    for place in 0..rows.len() {
        set_width(&mut rows[place], width);
    }
}
