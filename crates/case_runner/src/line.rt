// A line of the input: what is tried, and behind a colon a word and numbers, with anything between them.

ghost use Rattle.std.specs.Prelude.{◌≤◌, length};

use protocol::{Clock, Number, Profile, Settings, Width};

// What stands before the colon, the rest from the colon on, and the numbers in that.
#[derive(Clone, Copy)]
pub struct Line<'a> {
    pub what: &'a [u8],
    pub rest: &'a [u8],
    pub numbers: &'a [u64],
}

// A number with one more digit. One of more than 19 digits begins again.
fn longer(x: u64, digit: u8) -> u64 {
    if x < 1000000000000000000 && b'0' <= digit {
        10 * x + (digit - b'0') as u64
    } else {
        0
    }
}

// Puts the numbers of a text into words, and answers how many there are, or as many as there are words.
pub fn read_numbers(text: &[u8], words: &mut [u64]) -> usize
    ensures { result ≤ length words.new }
{
    let mut count = 0;
    for digits in text.split(|byte| !byte.is_ascii_digit()) {
        if !digits.is_empty() && count < words.len() {
            words[count] = digits.iter().fold(0, |x, &digit| longer(x, digit));
            count += 1;
        }
    }
    count
}

// A block's number in a call: 1000 stands for 2^64.
pub fn block_number(n: u64) -> Number {
    Number {
        lower: n % 1000,
        upper: n / 1000,
    }
}

impl<'a> Line<'a> {
    // A line is read into words for its numbers. Without a colon there is no rest.
    pub fn read(text: &'a [u8], words: &'a mut [u64]) -> Line<'a> {
        let colon = text
            .iter()
            .position(|&byte| byte == b':')
            .unwrap_or(text.len());
        let rest = &text[colon..];
        let count = read_numbers(rest, words);
        Line {
            what: &text[..colon],
            rest,
            numbers: &words[..count],
        }
    }

    // The first letter of the word that stands at a byte, from the colon on. A byte that is not there counts as 0.
    // So no case of a line goes: what it does on every input may not change.
    pub fn letter(self, at: usize) -> u8 {
        self.rest.get(at).copied().unwrap_or(0)
    }

    // A number that is not there counts as 0.
    pub fn number(self, i: usize) -> u64 {
        self.numbers.get(i).copied().unwrap_or(0)
    }

    // The same, as a length or a count.
    pub fn size(self, i: usize) -> usize {
        self.number(i) as usize
    }

    pub fn block_number(self, i: usize) -> Number {
        block_number(self.number(i))
    }

    // A fifth number of 1 is a rack's; else they are a loom's.
    pub fn settings(self) -> Settings {
        Settings {
            profile: if self.number(4) == 1 {
                Profile::Rack
            } else {
                Profile::Loom
            },
            nodes: self.number(0),
            own: self.number(1),
            expiry: self.number(2),
            depth: self.number(3),
        }
    }

    pub fn clock(self) -> Clock {
        Clock {
            seen: self.number(0),
            done: self.number(1),
            merged: self.number(2),
            proposed: self.number(3),
        }
    }

    // What Write is told: 1 for wide.
    pub fn width(self) -> Width {
        if self.number(1) == 1 {
            Width::Wide
        } else {
            Width::Narrow
        }
    }
}
