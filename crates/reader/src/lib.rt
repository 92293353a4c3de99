// A reader over one stored column: its entries, one for each call, then the end each time. `entry_at` does the work on the three tables, of any contents
// and lengths; with `place_after` it is what callers with plain slices use, whose proofs need no walk by hand. The reader holds the tables and a place:
// each call reads there and moves on. Nothing is checked: on tables that are not sound the records may form a cycle, which gives entries for ever, so a
// caller that is not sure of its tables has them checked first, or stops after m entries, which no column exceeds.
#![tactic(auto)]

ghost use Rattle.std.specs.Prelude.{◌≡◌};
ghost use Rattle.reader.specs.Reading.{entry_at, after};
ghost use Rattle.reader.specs.Reader.{begun, Reads};

use pool::Rec;

// What is read at a record: row and multiplicity, and the record after it, 0 if there is none.
#[derive(Clone, Copy)]
pub struct Entry {
    pub row: u16,
    pub count: u16,
    pub after: Rec,
}

// The entry of record r; none, the end, for record 0, a record past one of the tables, or a free one, whose row is 0.
pub fn entry_at(rows: &[u16], counts: &[u16], next: &[u32], r: Rec) -> Option<Entry>
    ensures { result ≡ entry_at rows.now counts.now next.now r.0 }
{
    let i = r.0.checked_sub(1)? as usize;
    let row = *rows.get(i)?;
    let count = *counts.get(i)?;
    let after = Rec(*next.get(i)?);
    if row == 0 {
        return None;
    }
    Some(Entry { row, count, after })
}

// Where to read on: the record after an entry's, 0 at the end.
pub fn place_after(e: Option<Entry>) -> Rec
    ensures { result ≡ after e }
{
    match e {
        Some(e) => e.after,
        None => Rec(0),
    }
}

// The tables of one pool of records and a place in them: the record to read next.
#[derive(Drop)]
pub struct Reader<'a> {
    pub rows: &'a [u16],
    pub counts: &'a [u16],
    pub next: &'a [u32],
    pub at: Rec,
}

impl<'a> Reader<'a> {
    // A reader from record r on.
    pub fn new(rows: &'a [u16], counts: &'a [u16], next: &'a [u32], r: Rec) -> Reader<'a>
        ensures { result ≡ begun rows.entry counts.entry next.entry r }
    {
        Reader {
            rows,
            counts,
            next,
            at: r,
        }
    }

    // The entry at the reader's place, which moves on to the record after it.
    pub fn read(&mut self) -> Option<Entry>
        ensures { Reads self.old result self.new }
    {
        let e = entry_at(self.rows, self.counts, self.next, self.at);
        self.at = place_after(e);
        e
    }
}

// The entries one after another. No bound on how many: on tables that are not sound the records may form a cycle.
impl<'a> Iterator for Reader<'a> {
    type Item = Entry;

    ghost next_gives = { Reads };

    fn next(&mut self) -> Option<Entry> {
        self.read()
    }
}
