// Rows in sequence by links at sixteen levels over lent memory: no key, only row numbers.
#![tactic(auto)]

ghost use Rattle.links.specs.Cell.{laid};
ghost use Rattle.links.specs.Ring.{Holds};

mod cells;
mod entering;
mod leaving;
mod one_row;
mod sequence;
mod walks;

/// A link of one level: the row that it names, the head being row 0, and the difference of the two positions.
// Rows are named by number, since they lie in lent memory, and no heap holds them.
#[derive(Clone, Copy, Debug, PartialEq, Eq)]
#[repr(C)]
pub struct Link {
    pub row: u16,
    pub count: u16,
}

/// The two links of one level.
#[derive(Clone, Copy, Debug, PartialEq, Eq)]
#[repr(C)]
pub struct LevelLinks {
    pub ahead: Link,
    pub back: Link,
}

/// The links of one row, level by level.
#[derive(Clone, Copy, Debug, PartialEq, Eq)]
#[repr(C)]
pub struct Links {
    at: [LevelLinks; 16],
}

/// The two ways in which links lead.
#[derive(Clone, Copy, Debug, PartialEq, Eq)]
pub enum Way {
    Ahead,
    Back,
}

/// A row: how many levels it has, and its links.
#[derive(Clone, Copy, Debug, PartialEq, Eq)]
#[repr(C)]
pub struct Row {
    pub level: u8,
    links: Links,
}

/// The lent rows and the head, which is also the end. While a row comes in or goes out, some levels have it and others not.
// A level stays a number, with `level < 16` where it is used: a type for it would be converted at each loop over levels.
#[derive(Drop)]
#[repr(C)]
pub(crate) struct Grid<'a> {
    rows: &'a mut [Row],
    head: Row,
}

/// Lent rows that hold an order of `len` rows.
#[derive(Drop)]
#[repr(C)]
pub struct Rows<'a> {
    grid: Grid<'a>,
    pub len: u32,
    ghost holds: { ∥ Holds (laid grid) len ∥₁ },
}
