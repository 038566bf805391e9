//! Where things stand: three columns side by side make a band, and bands stand below one another. All boxes of a picture
//! are of one size, the nth of each column of a band at one height. Numbers of pixels have 128 bits: a box may have as
//! many lines as its text has bytes, and there may be many below one another.

ghost use Rattle.std.specs.Prelude.{◌≡◌, ◌≤◌};
ghost use Rattle.lab_picture.specs.Layout as layout;

use lab_table::TxnNo;

/// A point of a picture.
#[derive(Clone, Copy)]
pub struct Corner {
    pub x: u128,
    pub y: u128,
}

/// What the bands of a picture are measured by.
#[derive(Clone, Copy)]
pub struct Frame {
    /// The ground line of what stands above the columns of the first band.
    pub head: u16,
    /// How many operations are drawn of the longest column.
    pub most: u32,
    /// Whether an arrow goes below the boxes.
    pub round: bool,
    /// How many lines the fullest box has beyond four.
    pub extra: u64,
    /// Whether not all operations are drawn.
    pub few: bool,
}

/// A column.
#[derive(Clone, Copy)]
pub struct Column {
    /// How many columns come before it.
    pub place: usize,
    pub txn: TxnNo,
    /// The number of its marked operation, or 0.
    pub marked: u32,
    /// Whether it is drawn thin.
    pub thin: bool,
}

/// The edge of a box.
#[derive(Clone, Copy)]
pub enum Stroke {
    Plain,
    Thick,
    Thin,
}

/// The most transactions that are drawn.
pub const MAX_COLUMNS: usize = 40;

/// How many bytes of text a line of a box has.
pub const BOX_BYTES: usize = 28;

/// How many bytes of text a line between two columns has.
pub const GAP_BYTES: usize = 14;

/// The left side of a column.
pub fn left(column: usize) -> u128
    ensures value { result ≡ layout.left column }
    ensures low { 26 ≤ result }
    ensures small { result ≤ 642 }
{
    26 + (column % 3) as u128 * 308
}

/// How wide a picture of so many columns is: two have room, or three.
pub fn width(columns: usize) -> u128
    ensures { result ≡ layout.width columns }
{
    if columns > 2 { 864 } else { 556 }
}

/// How high a box is.
pub fn box_height(frame: Frame) -> u128
    ensures { result ≡ layout.box_height frame }
{
    60 + 13 * u128::from(frame.extra)
}

/// How far a box is below the one above it, from upper side to upper side.
fn distance(frame: Frame) -> u128
    ensures value { result ≡ layout.distance frame }
    ensures small { result ≤ 1000000000000000000000 }
{
    70 + 13 * u128::from(frame.extra)
}

/// How high the boxes of the longest column are, each with what is left free below it.
fn depth(frame: Frame) -> u128
    ensures value { result ≡ layout.depth frame }
    ensures small { result ≤ 10000000000000000000000000000000 }
{
    distance(frame) * u128::from(frame.most)
}

/// How high a band is.
fn pitch(frame: Frame) -> u128
    ensures value { result ≡ layout.pitch frame }
    ensures small { result ≤ 11000000000000000000000000000000 }
{
    30 + depth(frame) + if frame.round { 30 } else { 0 }
}

/// The ground line of what stands above a column.
pub fn top(frame: Frame, column: usize) -> u128
    requires { column ≤ 42 }
    ensures value { result ≡ layout.top frame column }
    ensures small { result ≤ 200000000000000000000000000000000 }
{
    u128::from(frame.head) + (column / 3) as u128 * pitch(frame)
}

/// The upper side of an operation's box; operations count from 1.
pub fn upper(frame: Frame, column: usize, op: u32) -> u128
    requires { column ≤ 40 }
    ensures value { result ≡ layout.upper frame column op }
    ensures small { result ≤ 300000000000000000000000000000000 }
    ensures low { 10 ≤ result }
{
    top(frame, column) + 10 + distance(frame) * u128::from(op.saturating_sub(1))
}

/// How high a picture of so many columns is.
pub fn height(frame: Frame, columns: usize) -> u128
    requires { columns ≤ 40 }
    ensures value { result ≡ layout.height frame columns }
    ensures small { result ≤ 200000000000000000000000000000000 }
{
    top(frame, columns + 2)
}

/// Where an arrow leaves a box: its right side.
pub fn exit_of(frame: Frame, column: usize, op: u32) -> Corner
    requires { column ≤ 40 }
    ensures value { result ≡ layout.exit_of frame column op }
    ensures small { (result.x ≤ 1000) × (result.y ≤ 400000000000000000000000000000000) }
    ensures low { 5 ≤ result.y }
{
    Corner {
        x: left(column) + 196,
        y: upper(frame, column, op) + 18,
    }
}

/// Where an arrow meets a box: its left side.
pub fn entry_of(frame: Frame, column: usize, op: u32) -> Corner
    requires { column ≤ 40 }
    ensures value { result ≡ layout.entry_of frame column op }
    ensures small { (result.x ≤ 1000) × (result.y ≤ 400000000000000000000000000000000) }
    ensures right { 26 ≤ result.x }
    ensures low { 5 ≤ result.y }
{
    Corner {
        x: left(column),
        y: upper(frame, column, op) + 42,
    }
}

/// Whether a column is the next one of the same band.
pub fn is_next(from: usize, to: usize) -> bool
    requires { from ≤ 40 }
    ensures { result ≡ layout.is_next from to }
{
    from + 1 == to && from / 3 == to / 3
}

/// Whether an arrow leads to a later band.
fn is_down(from: usize, to: usize) -> bool
    ensures { result ≡ layout.is_down from to }
{
    from / 3 < to / 3
}

/// Where an arrow goes below the boxes of its first column's band.
pub fn lane(frame: Frame, from: usize, to: usize) -> u128
    requires { from ≤ 40 }
    ensures value { result ≡ layout.lane frame from to }
    ensures low { 4 ≤ result }
{
    top(frame, from) + depth(frame) + if is_down(from, to) { 18 } else { 36 }
}

/// How far before its second end an arrow that goes below the boxes turns up or down.
pub fn aside(from: usize, to: usize) -> u128
    ensures value { result ≡ layout.aside from to }
    ensures small { result ≤ 18 }
{
    if to <= from { 18 } else { 10 }
}
