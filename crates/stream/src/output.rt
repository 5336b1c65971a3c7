// Text to standard output.
ghost use Rattle.std.specs.Prelude.{[], ◌∷◌};
ghost use Rattle.std.specs.Float.{binary64};
ghost use Rattle.std.specs.Float.Ieee.{to_bits};
ghost use Rattle.words.specs.Words.{hex_of};
ghost use Rattle.stream.specs.Output.{Top, Left, Put, PutWhole};

// Where the system has standard output.
const STDOUT_FILENO: i32 = 1;

// Lent bytes, and how many of them are written that have not left yet.
#[derive(Drop)]
pub struct Page<'a> {
    pub bytes: &'a mut [u8],
    pub at: usize,
}

impl Page<'_> {
    // An empty page.
    pub fn new(bytes: &mut [u8]) -> Page<'_>
        ensures { Top bytes.entry result }
    {
        Page { bytes, at: 0 }
    }

    // Puts a text on the page. Where it has no room there, what is on the page leaves first; a text longer
    // than the page leaves at once. Inlined always, as words' `put_text` is.
    #[inline(always)]
    pub fn put_text(&mut self, text: &[u8])
        ensures { Put text.now self.old self.new }
    {
        let at = self.at;
        if words::put_text(self.bytes, at, text) {
            self.at = at + text.len();
            return;
        }
        self.flush();
        if words::put_text(self.bytes, 0, text) {
            self.at = text.len();
        } else {
            io::write_all(STDOUT_FILENO, text);
        }
    }

    // What is on the page leaves.
    pub fn flush(&mut self)
        ensures { Left self.old self.new }
    {
        self.write();
        self.at = 0;
    }

    fn write(&self) {
        if let Some(written) = self.bytes.get(..self.at) {
            io::write_all(STDOUT_FILENO, written);
        }
    }

    // A number, as the 16 hexadecimal digits of its bits.
    pub fn put_number(&mut self, x: f64)
        ensures { Put (hex_of 16 (to_bits binary64 x)) self.old self.new }
    {
        let mut text = [0; 16];
        words::put_hex(&mut text, 0, float::bits_of(x));
        self.put_text(&text);
    }

    // A whole number, in decimal.
    pub fn put_whole(&mut self, n: u64)
        ensures { PutWhole n self.old self.new }
    {
        let mut digits = [0; 20];
        let k = io::decimal(n, &mut digits);
        self.put_text(&digits[..k]);
    }

    pub fn put_blank(&mut self)
        ensures { Put (32 ∷ []) self.old self.new }
    {
        self.put_text(b" ");
    }

    pub fn put_line_end(&mut self)
        ensures { Put (10 ∷ []) self.old self.new }
    {
        self.put_text(b"\n");
    }
}
