// What the program's lines hold: numbers, each with a rule by which it is read.
ghost use Rattle.std.specs.Prelude.{◌≡◌, ℕ, List};
ghost use Rattle.rules.specs.ReadText.{Read, number8, number32, weight};
ghost use Rattle.decimal.specs.Seen.{seen};

pub trait Field: Copy {
    ghost one: { ℕ → List ℕ → Read Self };

    // The number at the front of the text, with the byte `end` after it.
    fn read(text: &[u8], end: u8) -> Option<(Self, &[u8])>
        ensures { seen result ≡ one end text.now };
}

impl Field for u8 {
    ghost one = { number8 };

    fn read(text: &[u8], end: u8) -> Option<(u8, &[u8])> {
        let (v, rest) = decimal::read_number(text, u64::from(u8::MAX), end)?;
        Some((v as u8, rest))
    }
}

// Kept: u8 and u32 read alike, but no trait of std gives a type's MAX: one reader of both would need a trait of its own, no plainer than two lines.
impl Field for u32 {
    ghost one = { number32 };

    fn read(text: &[u8], end: u8) -> Option<(u32, &[u8])> {
        let (v, rest) = decimal::read_number(text, u64::from(u32::MAX), end)?;
        Some((v as u32, rest))
    }
}

impl Field for i64 {
    ghost one = { weight };

    fn read(text: &[u8], end: u8) -> Option<(i64, &[u8])> {
        decimal::read_signed(text, end)
    }
}
