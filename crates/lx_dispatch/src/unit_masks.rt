//! Sets of bytes as masks.
ghost use Rattle.std.specs.Prelude.{◌≤◌};

/// Some units up to 0xFF: a unit is one of them where its bit is set, of word `unit / 64` the bit `unit % 64`.
#[derive(Clone, Copy)]
pub(crate) struct UnitMask {
    words: [u64; 4],
}

/// The bits of the units from `low` up to `high` in the word whose first unit is `base`.
fn bits_of(base: u32, low: u32, high: u32) -> u64
    requires { base ≤ 192 }
{
    let from = low.max(base);
    let to = high.min(base + 63);
    if to < from {
        return 0;
    }
    (u64::MAX << (from - base)) & (u64::MAX >> (base + 63 - to))
}

/// The first unit among bits of a word whose first unit is `base`.
fn first_bit(base: u32, bits: u64) -> Option<u32> {
    if bits == 0 {
        return None;
    }
    Some(base.saturating_add(bits.trailing_zeros()))
}

impl UnitMask {
    /// No unit.
    pub fn none() -> Self {
        Self { words: [0; 4] }
    }

    /// Adds the units from `low` up to `high`, of those up to 0xFF.
    pub fn add(&mut self, low: u32, high: u32) {
        self.words[0] |= bits_of(0, low, high);
        self.words[1] |= bits_of(64, low, high);
        self.words[2] |= bits_of(128, low, high);
        self.words[3] |= bits_of(192, low, high);
    }

    /// Takes out a unit.
    pub fn remove(&mut self, unit: u32) {
        if unit <= 0xFF {
            let index = (unit / 64) as usize;
            self.words[index] &= !(1u64 << (unit % 64));
        }
    }

    /// Whether a unit is one of them.
    pub fn has(&self, unit: u32) -> bool {
        unit <= 0xFF && (self.words[(unit / 64) as usize] >> (unit % 64)) % 2 == 1
    }

    /// Those that are not among others.
    pub fn without(&self, others: &UnitMask) -> Self {
        Self {
            words: [
                self.words[0] & !others.words[0],
                self.words[1] & !others.words[1],
                self.words[2] & !others.words[2],
                self.words[3] & !others.words[3],
            ],
        }
    }

    /// Whether there is none.
    pub fn is_empty(&self) -> bool {
        self.words[0] | self.words[1] | self.words[2] | self.words[3] == 0
    }

    /// Whether they are the same as others.
    pub fn equals(&self, others: &UnitMask) -> bool {
        self.words[0] == others.words[0]
            && self.words[1] == others.words[1]
            && self.words[2] == others.words[2]
            && self.words[3] == others.words[3]
    }

    /// How many there are.
    pub fn count(&self) -> u32 {
        let low = self.words[0]
            .count_ones()
            .saturating_add(self.words[1].count_ones());
        let high = self.words[2]
            .count_ones()
            .saturating_add(self.words[3].count_ones());
        low.saturating_add(high)
    }

    /// The first of them that is no less than a unit.
    pub fn first_from(&self, low: u32) -> Option<u32> {
        first_bit(0, self.words[0] & bits_of(0, low, 0xFF))
            .or(first_bit(64, self.words[1] & bits_of(64, low, 0xFF)))
            .or(first_bit(128, self.words[2] & bits_of(128, low, 0xFF)))
            .or(first_bit(192, self.words[3] & bits_of(192, low, 0xFF)))
    }
}
