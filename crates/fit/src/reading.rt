// The words of one script, which may be one of many on the same standard input: those of a start or a call come whole, in a lent list.
ghost use Rattle.std.specs.Prelude.{◌≡◌, ◌≤◌, length, take};
ghost use Rattle.stream.specs.Input.{Begun};
ghost use Rattle.fit.specs.Reading.{Comes, Fills, Holds, Skips, wants, wants_more, is_end};

use script::{Kind, call, start};
use stream::{Input, Over, Reader};

// Where it is read on, and how many words it may still have.
#[derive(Clone, Copy, Debug, PartialEq, Eq)]
pub struct Script {
    pub input: Input,
    pub left: u64,
}

// A script with the room that it is read through.
#[derive(Drop)]
pub struct Reading<'a> {
    pub input: Reader<'a>,
    pub left: u64,
}

// What is read whole: a start, or a call of a session of a kind and an n.
#[derive(Clone, Copy)]
pub(crate) enum Part {
    Start,
    Call(Kind, usize),
}

// How many words of a part are there, and how the script ended, where it did: behind its last word or with bytes that make none.
#[derive(Clone, Copy)]
pub(crate) struct Held {
    pub(crate) count: usize,
    pub(crate) ending: Option<Over>,
}

impl Held {
    // Whether the script ended behind a whole call.
    pub(crate) fn is_end(self) -> bool
        ensures { result ≡ is_end self.ending self.count }
    {
        self.ending == Some(Over::End) && self.count == 0
    }
}

impl Reading<'_> {
    // A script of so many words.
    pub fn of(input: Reader<'_>, words: u64) -> Reading<'_>
        ensures { result ≡ record { input = input.entry; left = words } }
    {
        Reading { input, left: words }
    }

    // A script that goes on to the end of standard input.
    pub fn whole_input(room: &mut [u8]) -> Reading<'_>
        ensures begun { Begun room.entry result.input }
        ensures endless { result.left ≡ 18446744073709551615 }
    {
        Reading::of(Reader::new(room), u64::MAX)
    }

    // What is left of the script, for as long as the room holds what it holds.
    pub fn mark(&self) -> Script
        ensures { result ≡ record { input = record { at = self.now.input.at; end = self.now.input.end }; left = self.now.left } }
    {
        Script {
            input: self.input.mark(),
            left: self.left,
        }
    }

    // Reads on with this script in its place.
    pub fn go_to(&mut self, script: Script)
        ensures { self.new ≡ record { input = record self.old.input { at = script.input.at; end = script.input.end }; left = script.left } }
    {
        self.input.go_to(script.input);
        self.left = script.left;
    }

    // The next word, or how the script ended.
    fn next(&mut self) -> Result<u64, Over>
        ensures { Comes self.old self.new result }
    {
        if self.left == 0 {
            return Err(Over::End);
        }
        match self.input.next_word() {
            Ok(word) => {
                self.left -= 1;
                Ok(word)
            }
            Err(over) => {
                self.left = 0;
                Err(over)
            }
        }
    }

    // Words up to a count, where so many are there already.
    fn fill(&mut self, words: &mut [u64], have: usize, want: usize) -> Held
        requires { (have ≤ want) × (want ≤ length words.old) }
        ensures { Fills words.old have want self.old self.new result words.new }
    {
        for count in have..want {
            match self.next() {
                Ok(word) => words[count] = word,
                Err(over) => {
                    return Held {
                        count,
                        ending: Some(over),
                    };
                }
            }
        }
        Held {
            count: want,
            ending: None,
        }
    }

    // All words of a part. Each time those that are there tell how many there are to be; where they make none, no more are read.
    pub(crate) fn read(&mut self, words: &mut [u64], part: Part) -> Held
        requires { length words.old ≡ 4239 }
        ensures { Holds part self.old self.new result words.new }
    {
        let mut held = Held {
            count: 0,
            ending: None,
        };
        let mut want = part.wanted(&words[..0]);
        while held.count < want {
            held = self.fill(words, held.count, want);
            want = more(part, words, held);
        }
        held
    }

    // Reads past what is left.
    pub(crate) fn skip(&mut self)
        ensures { Skips self.old self.new }
    {
        while self.left > 0 {
            let _ = self.next();
        }
    }
}

impl Part {
    // How many words it has, as far as those that are there tell it.
    fn wanted(self, words: &[u64]) -> usize
        ensures { (result ≡ wants self words.now) × (result ≤ 4239) }
    {
        match self {
            Part::Start => start::wanted(words),
            Part::Call(kind, n) => call::wanted(kind, n, words),
        }
    }
}

// None where the script has ended.
fn more(part: Part, words: &[u64], held: Held) -> usize
    requires { held.count ≤ length words.now }
    ensures { (result ≡ wants_more held.ending (wants part (take held.count words.now))) × (result ≤ 4239) }
{
    match held.ending {
        None => part.wanted(&words[..held.count]),
        Some(_) => 0,
    }
}
