// The decisions of a mask, ascending, as an iterator: its lowest bit is taken off until none is left.
ghost use Rattle.std.specs.Iterator.{YieldsFirst, item_count};
ghost use Rattle.whole.specs.Masks.{these};

#[derive(Clone, Copy)]
pub struct Members(pub u64);

impl Iterator for Members {
    type Item = usize;

    ghost next_gives = { YieldsFirst (λ s. these s.0) };

    ghost remaining = { item_count (λ s. these s.0) };

    fn next(&mut self) -> Option<usize> {
        if self.0 == 0 {
            return None;
        }
        let j = self.0.trailing_zeros() as usize;
        self.0 &= self.0 - 1;
        Some(j)
    }
}
