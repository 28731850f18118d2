//! Rows of one width in one piece of memory.
#![tactic(auto)]

ghost use Rattle.std.specs.Borrow.{sem};
ghost use Rattle.std.specs.Prelude.{IfOk, OnErr, OnOk, [], length, ◌*◌, ◌<◌, ◌≡◌, ◌≢◌, ◌≤◌};
ghost use Rattle.tab_block.specs.Lending.{LendsRow};
ghost use Rattle.tab_block.specs.Rows.{CellsAreRows, RowsAreWide, most_cells, row_at, spare_of, with_more};

use std::alloc::{AllocError, Global};
use std::marker::Model;

/// The most cells that a block may be asked for.
pub const MOST_CELLS: u32 = 1 << 24;

/// Rows of one width, one after another in one piece of memory.
#[derive(Drop)]
pub struct Block {
    alloc: Global,
    filled: Vec<i128>,
    width: u32,
    /// The number of rows.
    count: u32,
    /// The cells that were reserved, filled or not.
    cells: u32,
}

impl Model for Block {
    ghost use Rattle.tab_block.specs.Rows.{IsBlock, Rows, block_of};

    ghost Value = { Rows };

    ghost view = { block_of };

    ghost invariant = { IsBlock };
}

impl Block {
    /// A block of width 1 without cells. It takes no memory.
    pub fn new(alloc: Global) -> Block
        ensures { result ≡ record { rows = []; width = 1; cells = 0 } }
    {
        Block {
            alloc,
            filled: Vec::new(alloc),
            width: 1,
            count: 0,
            cells: 0,
        }
    }

    /// Takes memory for so many rows of a width, in place of what was reserved before. Afterwards there are no rows.
    ///
    /// # Errors
    ///
    /// Where no memory is to be had. A refusal leaves the block as it was.
    pub fn reserve(&mut self, rows: u32, width: u32) -> Result<(), AllocError>
        requires some_row { 1 ≤ rows }
        requires some_cell { 1 ≤ width }
        requires most { rows * width ≤ most_cells }
        ensures empty { OnOk result (self.new.rows ≡ []) }
        ensures width { OnOk result (self.new.width ≡ width) }
        ensures cells { OnOk result (rows * width ≤ self.new.cells) }
        ensures unchanged { OnErr result (self.new ≡ self.old) }
    {
        let cells = rows * width;
        if cells > self.cells {
            self.filled = Vec::with_capacity(self.alloc, cells as usize)?;
            self.count = 0;
            self.cells = cells;
        }
        self.clear(width);
        Ok(())
    }

    /// Drops all rows, and takes another width. The cells stay, and no memory is taken.
    pub fn clear(&mut self, width: u32)
        requires { 1 ≤ width }
        ensures { self.new ≡ record self.old { rows = []; width = width } }
    {
        self.filled.clear();
        self.count = 0;
        self.width = width;
    }

    /// Adds a row at the end. It takes no memory.
    pub fn add_row(&mut self, row: &[i128])
        requires room { 1 ≤ spare_of self.old }
        requires wide { length row.now ≡ self.old.width }
        ensures { self.new ≡ with_more self.old row.now }
    {
        let done = self.filled.extend_from_slice(row);
        prove!(done.is_ok());
        self.count += 1;
    }

    /// A row by its number.
    pub fn row(&self, i: u32) -> &[i128]
        requires { i < length self.now.rows }
        ensures { result.now ≡ row_at self.now i }
    {
        let start = self.start(i);
        &self.filled[start..start + self.width as usize]
    }

    /// A row by its number, for writing. What is written is that row afterwards; all else stays.
    pub fn row_mut(&mut self, i: u32) -> &mut [i128]
        requires { i < length self.old.rows }
        ensures* writes_back { sem 𝓛 (LendsRow self.entry i result) }
        ensures value { result.now ≡ row_at self.old i }
    {
        let start = self.start(i);
        let end = start + self.width as usize;
        self.filled.slice_mut(start..end)
    }

    /// The number of rows.
    pub fn rows(&self) -> u32
        ensures { result ≡ length self.now.rows }
    {
        self.count
    }

    /// The width of every row.
    pub fn width(&self) -> u32
        ensures width { result ≡ self.now.width }
        ensures some { 1 ≤ self.now.width }
    {
        self.width
    }

    /// How many more rows there is room for.
    pub fn spare(&self) -> u32
        ensures { result ≡ spare_of self.now }
    {
        self.cells / self.width - self.count
    }

    /// Where a row begins.
    fn start(&self, i: u32) -> usize
        requires { i < length self.now.rows }
        ensures { result ≡ i * self.now.width }
    {
        i as usize * self.width as usize
    }
}

/// A law: each row of a block has its width, and as many cells as that, written through `row_mut`, are the row.
pub fn law_block(block: &Block)
    ensures wide { RowsAreWide block.now }
    ensures row { CellsAreRows block.now }
{
    let _count = block.count;
}
