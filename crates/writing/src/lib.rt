// Text in a lent buffer.
#![tactic(auto)]

ghost use Rattle.std.specs.Prelude.{[], ◌∷◌, ◌++◌};
ghost use Rattle.writing.specs.Text.{decimal, spaced, Writes, Room};

// A place in a lent buffer. Each method writes its text there, as far as it fits, and moves behind it in any case.
#[derive(Drop)]
pub struct Cursor<'a> {
    pub out: &'a mut [u8],
    pub at: usize,
}

impl Cursor<'_> {
    // One character.
    pub fn put(&mut self, b: u8)
        requires { Room self.old.at (b ∷ []) }
        ensures { Writes self.old (b ∷ []) self.new }
    {
        if self.at < self.out.len() {
            self.out[self.at] = b;
        }
        self.at += 1;
    }

    // A given text.
    pub fn text(&mut self, t: &[u8])
        requires { Room self.old.at t.now }
        ensures { Writes self.old t.now self.new }
    {
        for b in t {
            self.put(*b);
        }
    }

    // A number in decimal.
    pub fn number(&mut self, x: u16)
        requires { Room self.old.at (decimal x) }
        ensures { Writes self.old (decimal x) self.new }
    {
        if x < 10 {
            self.put(b'0' + x as u8);
        } else {
            self.number(x / 10);
            self.put(b'0' + (x % 10) as u8);
        }
    }

    // A given text, and a number.
    pub fn labelled(&mut self, t: &[u8], x: u16)
        requires { Room self.old.at (t.now ++ decimal x) }
        ensures { Writes self.old (t.now ++ decimal x) self.new }
    {
        self.text(t);
        self.number(x);
    }

    // Numbers, a space in front of each.
    pub fn spaced(&mut self, row: &[u16])
        requires { Room self.old.at (spaced row.now) }
        ensures { Writes self.old (spaced row.now) self.new }
    {
        for x in row {
            self.put(b' ');
            self.number(*x);
        }
    }
}
