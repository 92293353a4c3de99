// A line of the listing program's input, without its newline, as a command. The line is read twice: its words are first tested and
// counted, then their values are written, so that a line that is no command leaves the lent list as it was. A word is a part of the line
// between spaces; a word's end is a space or the line's end.
ghost use Rattle.std.specs.Prelude.{◌≡◌, ◌+◌, ◌≤◌, length, drop};
ghost use Rattle.lists.specs.Lists.{same, over};
ghost use Rattle.listing_text.specs.Command.{first_word, number_of, numbers_of, open_of, drop_of, EndsWord, Numbers, AddRoom, Added, Parsed};

// A command: for Add the rows stand in the lent list, count of them from its front on.
#[derive(Clone, Copy, PartialEq, Eq, Debug)]
pub enum Command {
    Open { m: u32, n: u32, f: u32, c: u32 },
    Add { id: u32, count: u32 },
    Drop(u32),
    Show,
    Unknown,
}

// Numbers are below 2^32.
const LIMIT: u64 = 4294967296;

// The end of the word that starts at a place.
fn word_end(line: &[u8], at: usize) -> usize
    requires { at ≤ length line.now }
    ensures { result ≡ at + length (first_word (drop at line.now)) }
{
    match line[at..].iter().position(|b| *b == b' ') {
        Some(length) => at + length,
        None => line.len(),
    }
}

// Whether a word is a name.
fn word_is(word: &[u8], name: &[u8]) -> bool
    ensures { result ≡ same word.now name.now }
{
    word == name
}

// The number that a word is: a digit or more, and a value below 2^32; none for any other word.
fn number_of(word: &[u8]) -> Option<u32>
    ensures { result ≡ number_of word.now }
{
    if word.is_empty() {
        return None;
    }
    let mut value: u64 = 0;
    for digit in word {
        if !digit.is_ascii_digit() {
            return None;
        }
        value = 10 * value + u64::from(*digit - b'0');
        if value >= LIMIT {
            return None;
        }
    }
    Some(value as u32)
}

// How many numbers follow a word's end, if every word that follows is a number; otherwise 0.
fn numbers_count(line: &[u8], at: usize) -> usize
    requires { EndsWord line.now at }
    ensures { result ≡ length (numbers_of (drop at line.now)) }
{
    let mut count = 0;
    for word in line[at..].split(|b| *b == b' ').skip(1) {
        if number_of(word).is_none() {
            return 0;
        }
        count += 1;
    }
    count
}

// Writes the values of the words that follow a word's end, numbers all, over the front of a list.
fn numbers_write(line: &[u8], values: &mut [u32], at: usize)
    requires { Numbers line.now at (length values.old) }
    ensures { values.new ≡ over (numbers_of (drop at line.now)) values.old }
{
    for (count, word) in line[at..].split(|b| *b == b' ').skip(1).enumerate() {
        values[count] = number_of(word).unwrap();
    }
}

// The rest of an open line: four numbers.
fn open_rest(line: &[u8], at: usize) -> Command
    requires { EndsWord line.now at }
    ensures { result ≡ open_of (numbers_of (drop at line.now)) }
{
    if numbers_count(line, at) != 4 {
        return Command::Unknown;
    }
    let mut sizes = [0u32; 4];
    numbers_write(line, &mut sizes, at);
    Command::Open {
        m: sizes[0],
        n: sizes[1],
        f: sizes[2],
        c: sizes[3],
    }
}

// The rest of an add line: an id, then a row or more, which go to the front of the list.
fn add_rest(line: &[u8], rows: &mut [u32], at: usize) -> Command
    requires { AddRoom line.now at (length rows.old) }
    ensures { Added (numbers_of (drop at line.now)) rows.old rows.new result }
{
    let count = numbers_count(line, at);
    if count < 2 {
        return Command::Unknown;
    }
    let start = at + 1;
    let end = word_end(line, start);
    let id = number_of(&line[start..end]).unwrap();
    numbers_write(line, rows, end);
    let others = (count - 1) as u32;
    Command::Add { id, count: others }
}

// The rest of a drop line: one number.
fn drop_rest(line: &[u8], at: usize) -> Command
    requires { EndsWord line.now at }
    ensures { result ≡ drop_of (numbers_of (drop at line.now)) }
{
    if numbers_count(line, at) != 1 {
        return Command::Unknown;
    }
    let start = at + 1;
    let end = word_end(line, start);
    Command::Drop(number_of(&line[start..end]).unwrap())
}

// What a line means; the rows of an add line are written over the front of the list, which any other line leaves as it was.
pub fn parse(line: &[u8], rows: &mut [u32]) -> Command
    requires { 1000 ≤ length rows.old }
    ensures { Parsed line.now rows.old rows.new result }
{
    if line.len() > 1999 {
        return Command::Unknown;
    }
    let end = word_end(line, 0);
    let word = &line[..end];
    if word_is(word, b"open") {
        open_rest(line, end)
    } else if word_is(word, b"add") {
        add_rest(line, rows, end)
    } else if word_is(word, b"drop") {
        drop_rest(line, end)
    } else if word_is(word, b"show") && end == line.len() {
        Command::Show
    } else {
        Command::Unknown
    }
}
