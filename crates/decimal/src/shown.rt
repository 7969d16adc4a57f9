// The numbers that are written, each with its text.
ghost use Rattle.std.specs.Prelude.{ℕ, List, length};
ghost use Rattle.rules.specs.WriteText.{shown, shown_z};
ghost use Rattle.decimal.specs.Puts.{HasRoom, Put};

use crate::page::Page;

pub trait Shown: Copy {
    ghost text: { Self → List ℕ };

    fn show(self, page: &mut Page)
        requires { HasRoom page.old (length (text self)) }
        ensures { Put page.old (text self) page.new };
}

impl Shown for u64 {
    ghost text = { shown };

    fn show(self, page: &mut Page) {
        page.put_digits(self, 20);
    }
}

impl Shown for u8 {
    ghost text = { shown };

    fn show(self, page: &mut Page) {
        u64::from(self).show(page);
    }
}

impl Shown for i64 {
    ghost text = { shown_z };

    fn show(self, page: &mut Page) {
        if self < 0 {
            page.put(b"-");
        }
        self.unsigned_abs().show(page);
    }
}
