// Words from standard input.
ghost use Rattle.std.specs.Prelude.{◌≡◌};
ghost use Rattle.stream.specs.Input.{Begun, Refilled, Found, Next, NextNumber, Fills};
ghost use Rattle.stream.specs.Input.{held as Input·held};

// Where the system has standard input.
pub const STDIN_FILENO: i32 = 0;

// The bytes of a room that are still to be read: those from `at` up to `end`.
#[derive(Clone, Copy, Debug, PartialEq, Eq)]
pub struct Input {
    pub at: usize,
    pub end: usize,
}

// An input with its room, which is lent and filled with what comes.
#[derive(Drop)]
pub struct Reader<'a> {
    pub room: &'a mut [u8],
    pub at: usize,
    pub end: usize,
}

// Why there is no word: the input has ended, or the bytes that are left make none.
#[derive(Clone, Copy, Debug, PartialEq, Eq)]
pub enum Over {
    End,
    Short,
}

impl Reader<'_> {
    // Nothing is in the room yet.
    pub fn new(room: &mut [u8]) -> Reader<'_>
        ensures { Begun room.entry result }
    {
        Reader {
            room,
            at: 0,
            end: 0,
        }
    }

    // What is still to be read, for as long as the room holds what it holds.
    pub fn mark(&self) -> Input
        ensures { result ≡ record { at = self.now.at; end = self.now.end } }
    {
        Input {
            at: self.at,
            end: self.end,
        }
    }

    // Reads on with this input in its place.
    pub fn go_to(&mut self, input: Input)
        ensures { self.new ≡ record self.old { at = input.at; end = input.end } }
    {
        self.at = input.at;
        self.end = input.end;
    }

    // The next word. A room that is used up is filled again first, as far as whole words go, so that
    // only the end of the input can leave bytes that make none. Those are passed over.
    pub fn next_word(&mut self) -> Result<u64, Over>
        ensures { Next self.old self.new result }
    {
        if self.at >= self.end {
            self.refill()?;
        }
        self.word()
    }

    // What comes next, to the front of the room.
    fn refill(&mut self) -> Result<(), Over>
        ensures { Refilled self.old self.new result }
    {
        let most = self.room.len() / 8 * 8;
        self.at = 0;
        self.end = io::read_full(STDIN_FILENO, &mut self.room[..most]);
        if self.end == 0 {
            Err(Over::End)
        } else {
            Ok(())
        }
    }

    // The word that is in the room, and past it; or past all that is left, where that makes none.
    fn word(&mut self) -> Result<u64, Over>
        ensures { Found self.old self.new result }
    {
        let Ok(word) = self.held() else {
            self.at = self.end;
            return Err(Over::Short);
        };
        self.at += 8;
        Ok(word)
    }

    // The word, where all of it is there.
    fn held(&self) -> Result<u64, Over>
        ensures { result ≡ Input·held self.now.room.now self.now.at self.now.end }
    {
        if self.end.saturating_sub(self.at) < 8 {
            return Err(Over::Short);
        }
        Ok(words::word_at(self.room, self.at))
    }

    // The next word as a number.
    fn next_number(&mut self) -> Option<f64>
        ensures { NextNumber self.old self.new result }
    {
        self.next_word().ok().map(float::float_of)
    }

    // The next `count` numbers, to the front of `out`; none where it has no room for them.
    pub fn numbers(&mut self, out: &mut [f64], count: usize) -> Option<()>
        ensures { Fills self.old out.old count self.new out.new result }
    {
        if out.len() < count {
            return None;
        }
        for x in &mut out[..count] {
            *x = self.next_number()?;
        }
        Some(())
    }
}
