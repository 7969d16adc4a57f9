// The check: s1 and s2, 16-bit sums that wrap.
ghost use Rattle.std.specs.Prelude.{◌≡◌};
ghost use Rattle.rules.specs.Record.{check, check_right};

#[derive(Clone, Copy, Debug, PartialEq, Eq)]
pub struct Sums {
    pub s1: u16,
    pub s2: u16,
}

// s1 gains each byte, then s2 gains s1.
pub fn sums_of(bytes: &[u8]) -> Sums
    ensures { (result.s1 ≡ (check bytes.now).s1) × (result.s2 ≡ (check bytes.now).s2) }
{
    let mut sums = Sums { s1: 1, s2: 0 };
    for b in bytes {
        let s1 = sums.s1.wrapping_add(u16::from(*b));
        sums = Sums {
            s1,
            s2: sums.s2.wrapping_add(s1),
        };
    }
    sums
}

// Does the block end in its own sums?
pub fn is_right(block: &[u8; 512]) -> bool
    ensures { result ≡ check_right block.now }
{
    let sums = sums_of(&block[..508]);
    u16::from_le_bytes([block[508], block[509]]) == sums.s1
        && u16::from_le_bytes([block[510], block[511]]) == sums.s2
}
