// Parts of lines that several programs write.
ghost use Rattle.stream.specs.Pieces.{Puts, refused_line, named, listed};

use crate::output::Page;

impl Page<'_> {
    // A line: `refused` and a number.
    pub fn put_refused(&mut self, number: u64)
        ensures { Puts (refused_line number) self.old self.new }
    {
        self.put_text(b"refused ");
        self.put_whole(number);
        self.put_line_end();
    }

    // A number behind its name.
    pub fn put_named(&mut self, name: &[u8], x: f64)
        ensures { Puts (named name.now x) self.old self.new }
    {
        self.put_text(name);
        self.put_number(x);
    }

    // A name and the numbers of a list, which may be none.
    pub fn put_list(&mut self, name: &[u8], v: &[f64])
        ensures { Puts (listed name.now v.now) self.old self.new }
    {
        self.put_text(name);
        for x in v {
            self.put_blank();
            self.put_number(*x);
        }
    }
}
