// Calls as text, for programs that run cases: a line names a call by its first word and has lists of numbers after it, with `/` between two lists. Whatever
// the line holds, reading it ends and stays within line and lists.
#![tactic(auto)]

ghost use Rattle.std.specs.Prelude.{◌≤◌, length};

// What was read of one list: how many numbers, and where the next list begins.
#[derive(Clone, Copy)]
pub struct Part {
    pub count: usize,
    pub end: usize,
}

// The first place from one on that holds a byte; the end where there is none.
pub fn place_of(text: &[u8], from: usize, byte: u8) -> usize
    ensures { result ≤ length text.now }
{
    text.iter()
        .skip(from)
        .position(|b| *b == byte)
        .map_or(text.len(), |k| from + k)
}

// ---- words

// Which of some words, with a blank between two, a line begins with, from 0 on; as many as there are for none of them.
pub fn word_of(line: &[u8], words: &[u8]) -> usize {
    words
        .split(|byte| *byte == b' ')
        .take_while(|word| !line.starts_with(word))
        .count()
}

// ---- lists

// The numbers so far, and the value of the digits at hand, if there are any.
#[derive(Clone, Copy)]
struct Held {
    count: usize,
    value: Option<u64>,
}

// A number with a digit more; one past 32 bits begins anew.
fn longer(value: u64, digit: u8) -> u64 {
    if 429496729 < value {
        return u64::from(digit);
    }
    10 * value + u64::from(digit)
}

// The number at hand goes to the list, if there is one and the list has a place for it; 0 for one past 32 bits.
fn put(list: &mut [u32], held: Held) -> Held {
    let Some(value) = held.value else {
        return held;
    };
    let Some(place) = list.get_mut(held.count) else {
        return held;
    };
    *place = u32::try_from(value).unwrap_or(0);
    Held {
        count: held.count + 1,
        value: None,
    }
}

// One byte more: a digit, or anything else, which ends the number at hand.
fn taken(list: &mut [u32], held: Held, byte: u8) -> Held {
    match byte {
        b'0'..=b'9' => Held {
            count: held.count,
            value: Some(longer(held.value.unwrap_or(0), byte - b'0')),
        },
        _ => put(list, held),
    }
}

// Reads the list that begins at a place, up to a `/` or the end of the line. What is no digit stands between numbers.
pub fn read(line: &[u8], from: usize, list: &mut [u32]) -> Part {
    let end = place_of(line, from, b'/');
    let mut held = Held {
        count: 0,
        value: None,
    };
    for byte in line[..end].iter().skip(from) {
        held = taken(list, held, *byte);
    }
    Part {
        count: put(list, held).count,
        end: (end + 1).min(line.len()),
    }
}

// How many minutes a line gives in one of two lists; where it has none in either, one for each id, so that no column has a window.
pub fn minutes(count: usize, other: usize, ids: usize) -> usize {
    if count != 0 || other != 0 { count } else { ids }
}
