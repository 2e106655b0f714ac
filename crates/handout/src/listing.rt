// What is listed so far: how many tokens and how many rule numbers, whether or not there was room for them, and the two lent parts
// that they are written into as far as these reach. That these stay the same two (`SameParts`) is said of before and after, so that no
// ghost field can say it.
ghost use Rattle.std.specs.Prelude.{[], ◌∷◌, ◌<◌};
ghost use Rattle.handout.specs.Listing.{SameParts, Wrote};

use cells::put;

#[derive(Drop)]
pub struct Listing<'a> {
    pub sentence: &'a mut [u16],
    pub derivation: &'a mut [u16],
    pub tokens: usize,
    pub rules: usize,
}

impl<'a> Listing<'a> {
    // One token more.
    pub fn push_token(&mut self, s: u16)
        requires { self.old.tokens < usize.MAX }
        ensures same { SameParts self.old self.new }
        ensures wrote { Wrote (s ∷ []) [] self.old self.new }
    {
        put(self.sentence, self.tokens, s);
        self.tokens += 1;
    }

    // One rule number more.
    pub fn push_rule(&mut self, rule: u16)
        requires { self.old.rules < usize.MAX }
        ensures same { SameParts self.old self.new }
        ensures wrote { Wrote [] (rule ∷ []) self.old self.new }
    {
        put(self.derivation, self.rules, rule);
        self.rules += 1;
    }
}
