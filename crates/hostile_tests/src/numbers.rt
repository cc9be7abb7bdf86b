//! Numbers that follow one another from a seed.
ghost use Rattle.std.specs.Prelude.{◌<◌, length};

// A generator of 32 bits: xorshift by 13, 17 and 5 (Marsaglia, Xorshift RNGs). Its state isn't 0.
#[derive(Drop)]
pub(crate) struct Numbers {
    state: u32,
}

impl Numbers {
    // The numbers behind a seed.
    pub(crate) fn new(seed: u32) -> Numbers {
        Numbers {
            state: seed.wrapping_mul(0x9E37_79B9) | 1,
        }
    }

    // Any number.
    pub(crate) fn any(&mut self) -> u32 {
        self.state ^= self.state << 13;
        self.state ^= self.state >> 17;
        self.state ^= self.state << 5;
        self.state
    }

    // A number below a limit.
    pub(crate) fn below(&mut self, limit: u32) -> u32
        requires { 0 < limit }
        ensures { result < limit }
    {
        self.any() % limit
    }

    // One of a list.
    pub(crate) fn one_of(&mut self, list: &[u32]) -> u32
        requires { 0 < length list.now }
    {
        list[self.any() as usize % list.len()]
    }
}
