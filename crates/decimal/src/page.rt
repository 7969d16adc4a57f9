// A lent slice that is written from its front on.
ghost use Rattle.std.specs.Prelude.{◌≡◌, ◌++◌, ◌+◌, length};
ghost use Rattle.rules.specs.WriteText.{decimal};
ghost use Rattle.decimal.specs.Puts.{HasRoom, Put};

use crate::shown::Shown;

#[derive(Drop)]
pub struct Page<'a> {
    pub out: &'a mut [u8],
    // The place of the next byte.
    pub at: usize,
}

impl<'a> Page<'a> {
    pub fn new(out: &'a mut [u8]) -> Page<'a>
        ensures same { result.out.ghost_name ≡ out.entry.ghost_name }
        ensures bytes { result.out.now ≡ out.old }
        ensures start { result.at ≡ 0 }
    {
        Page { out, at: 0 }
    }

    // The bytes of s.
    pub fn put(&mut self, s: &[u8])
        requires { HasRoom self.old (length s.now) }
        ensures { Put self.old s.now self.new }
    {
        let end = self.at + s.len();
        self.out[self.at..end].copy_from_slice(s);
        self.at = end;
    }

    // v in at most k digits.
    pub(crate) fn put_digits(&mut self, v: u64, k: usize)
        requires { HasRoom self.old (length (decimal k v)) }
        ensures { Put self.old (decimal k v) self.new }
    {
        if k == 0 {
            return;
        }
        if v >= 10 {
            self.put_digits(v / 10, k - 1);
        }
        self.put(&[b'0' + (v % 10) as u8]);
    }

    // The bytes of `label`, and x after them.
    pub fn put_number<T: Shown>(&mut self, label: &[u8], x: T)
        requires { HasRoom self.old (length label.now + length (T.text x)) }
        ensures { Put self.old (label.now ++ T.text x) self.new }
    {
        self.put(label);
        x.show(self);
    }
}
