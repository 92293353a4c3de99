// The work table: one table of 32-bit places that is lent whole, with regions in it by start and length. A store in one region leaves the others, a
// region that was cleared is zero, and a planned entry takes one place. Where the regions start is in specs/Layout.antt; functions take the whole
// table and a start, since two parts of one table cannot be lent at once.
#![tactic(auto)]

ghost use Rattle.std.specs.Prelude.{◌≡◌, ◌+◌, ◌*◌, ◌≤◌, eqb, length};
ghost use Rattle.workspace.specs.Regions.{cleared};
ghost use Rattle.workspace.specs.Layout.{work_need};
ghost use Rattle.workspace.specs.Planned.{packed, FitsEntry, row_of, multiplicity_of, kind_of, kind_number};

// Where the regions of a batch start, in multiples of m; specs/Layout.antt has them all. NEXT and CHILDREN are the same places, after a column's turn and
// until then.
pub const BUFFER: usize = 2;

pub const MARKS: usize = 3;

pub const STARTS: usize = 4;

pub const CHILDREN: usize = 5;

pub const NEXT: usize = 5;

pub const LOST: usize = 6;

pub const LINKS: usize = 7;

pub const PLAN: usize = 8;

// Places of the work table for each record, from the plan on: the flags of a batch follow them.
pub const RECORD_PLACES: usize = 4;

// Rows that share a flag, and flags.
pub const BLOCK: usize = 64;

pub const FLAGS: usize = 64;

// By which the upper part of a place counts that holds two numbers.
pub const UPPER_WEIGHT: u32 = 8192;

// What a planned entry does to its row: it stays with another multiplicity, comes, or goes.
#[derive(Clone, Copy, PartialEq, Eq)]
pub enum Kind {
    Changed = 0,
    New = 1,
    Gone = 2,
}

impl Kind {
    // The number that stands for it in a planned entry.
    pub fn number(self) -> u32
        ensures { result ≡ kind_number self }
    {
        self as u32
    }
}

// How many places of the work table the sizes m, n, f and c need: W of document 01. It is summed in 64 bits, so that no sizes are too large for it.
pub fn work_need(m: u32, n: u32, f: u32, c: u32) -> usize
    ensures { result ≡ work_need m n f c }
{
    8 * (m as usize) + 4 * (f as usize) + (c as usize) + (n as usize) + 1024
}

// Clears the n places from a on.
pub fn clear(work: &mut [u32], a: usize, n: usize)
    requires { a + n ≤ length work.old }
    ensures { work.new ≡ cleared work.old a n }
{
    work[a..a + n].fill(0);
}

// A planned entry in one place: row - 1 in 12 bits, multiplicity in 18, kind in 2.
pub fn pack(row: u32, multiplicity: u32, kind: u32) -> u32
    requires { FitsEntry row multiplicity kind }
    ensures { result ≡ packed row multiplicity kind }
{
    row - 1 + 4096 * multiplicity + 1073741824 * kind
}

// The row of a planned entry.
pub fn row_of(entry: u32) -> u32
    ensures { result ≡ row_of entry }
{
    entry % 4096 + 1
}

// The multiplicity of a planned entry.
pub fn multiplicity_of(entry: u32) -> u32
    ensures { result ≡ multiplicity_of entry }
{
    entry / 4096 % 262144
}

// The number of the kind of a planned entry. A place may have a fourth one, 3, that no `Kind` has.
pub fn kind_of(entry: u32) -> u32
    ensures { result ≡ kind_of entry }
{
    entry / 1073741824
}

// Whether a planned entry is of a kind.
pub fn is_of(entry: u32, kind: Kind) -> bool
    ensures { result ≡ eqb (kind_of entry) (kind_number kind) }
{
    kind_of(entry) == kind.number()
}
