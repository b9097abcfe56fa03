// Text put together in a lent buffer.
#![tactic(auto)]

ghost use Rattle.std.specs.Prelude.{[], ◌∷◌, ◌+◌, ◌/◌, ◌%◌, ◌<◌, length};
ghost use Rattle.machine.specs.Text.{decimal_of};
ghost use Rattle.text.specs.Put.{HasRoom, Gains, SameBuffer};

mod line;

pub use line::Line;

// Each method asks for room in a clause: how much it needs hangs on what it puts.
// Written by hand: `put_line` promises each byte and that 52 have room, which `write!` into a lent buffer does not prove.
impl Line<'_> {
    pub fn put_byte(&mut self, b: u8)
        requires { HasRoom self.old 1 }
        ensures gains { Gains self.old self.new (b ∷ []) 1 }
        ensures buffer { SameBuffer self.old self.new }
    {
        self.out[self.len] = b;
        self.len += 1;
    }

    pub fn put_text(&mut self, text: &[u8])
        requires { HasRoom self.old (length text.now) }
        ensures gains { Gains self.old self.new text.now (length text.now) }
        ensures buffer { SameBuffer self.old self.new }
    {
        let end = self.len + text.len();
        let out = &mut *self.out;
        out[self.len..end].copy_from_slice(text);
        self.len = end;
    }

    // Four digits a turn, for a quarter of the recursive calls: those of the ten-thousandth, then the last four. At most
    // 20 for a number of 64 bits.
    pub fn put_number(&mut self, x: u64)
        requires { HasRoom self.old (length (decimal_of x)) }
        ensures gains { Gains self.old self.new (decimal_of x) 20 }
        ensures buffer { SameBuffer self.old self.new }
    {
        if x < 10000 {
            return self.put_small(x);
        }
        self.put_number(x / 10000);
        self.put_four(x % 10000);
    }

    // A number below 10,000.
    fn put_small(&mut self, x: u64)
        requires { (x < 10000) × HasRoom self.old (length (decimal_of x)) }
        ensures gains { Gains self.old self.new (decimal_of x) 20 }
        ensures buffer { SameBuffer self.old self.new }
    {
        if x < 100 {
            return self.put_below_100(x);
        }
        self.put_below_100(x / 100);
        self.put_two(x % 100);
    }

    fn put_below_100(&mut self, x: u64)
        requires { (x < 100) × HasRoom self.old (length (decimal_of x)) }
        ensures gains { Gains self.old self.new (decimal_of x) 20 }
        ensures buffer { SameBuffer self.old self.new }
    {
        if x < 10 {
            return self.put_byte(48 + x as u8);
        }
        self.put_two(x);
    }

    // The four digits of a number below 10,000, the first of which may be 0.
    fn put_four(&mut self, x: u64)
        requires { (x < 10000) × HasRoom self.old 4 }
        ensures gains { Gains self.old self.new ((48 + x / 100 / 10) ∷ (48 + x / 100 % 10)
            ∷ (48 + x % 100 / 10) ∷ (48 + x % 100 % 10) ∷ []) 4 }
        ensures buffer { SameBuffer self.old self.new }
    {
        let n = self.len;
        let out = &mut *self.out;
        out[n] = 48 + (x / 1000) as u8;
        out[n + 1] = 48 + (x / 100 % 10) as u8;
        out[n + 2] = 48 + (x % 100 / 10) as u8;
        out[n + 3] = 48 + (x % 100 % 10) as u8;
        self.len = n + 4;
    }

    // The two digits of a number below 100, the first of which may be 0.
    fn put_two(&mut self, x: u64)
        requires { (x < 100) × HasRoom self.old 2 }
        ensures gains { Gains self.old self.new ((48 + x / 10) ∷ (48 + x % 10) ∷ []) 2 }
        ensures buffer { SameBuffer self.old self.new }
    {
        let n = self.len;
        let out = &mut *self.out;
        out[n] = 48 + (x / 10) as u8;
        out[n + 1] = 48 + (x % 10) as u8;
        self.len = n + 2;
    }
}
