//! A fixed generator, so that every run tries the same cases.
ghost use Rattle.std.specs.Prelude.{◌≤◌};

/// An xorshift generator; its state is never 0.
#[derive(Drop)]
pub struct Dice {
    state: u64,
}

impl Dice {
    pub fn new() -> Dice {
        Dice {
            state: 0x9e37_79b9_7f4a_7c15,
        }
    }

    pub fn next(&mut self) -> u64 {
        let mut x = self.state;
        x ^= x << 13;
        x ^= x >> 7;
        x ^= x << 17;
        self.state = x;
        x
    }

    /// A number below n, or 0.
    pub fn below(&mut self, n: u64) -> u64
        ensures { result ≤ n }
    {
        (self.next() >> 20).checked_rem(n).unwrap_or(0)
    }

    /// True once in n throws.
    pub fn one_in(&mut self, n: u64) -> bool {
        self.below(n) == 0
    }

    pub fn byte(&mut self) -> u8 {
        (self.next() >> 32 & 0xff) as u8
    }

    /// A byte below n, or 0.
    pub fn byte_below(&mut self, n: u8) -> u8 {
        self.below(u64::from(n)) as u8
    }

    /// An index below n, or 0.
    pub fn index(&mut self, n: usize) -> usize
        ensures { result ≤ n }
    {
        self.below(n as u64) as usize
    }

    pub fn word(&mut self) -> u32 {
        (self.next() >> 16 & 0xffff_ffff) as u32
    }

    pub fn signed(&mut self) -> i32 {
        self.word().cast_signed()
    }

    /// One of the items, or the default where there is none.
    pub fn one_of<T: Copy + Default>(&mut self, items: &[T]) -> T {
        let i = self.index(items.len());
        items.get(i).copied().unwrap_or_default()
    }
}
