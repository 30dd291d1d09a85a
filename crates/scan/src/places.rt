// Walking the places of a row in order: elimination of the lists at them, and the check columns of the basic ones.
ghost use Rattle.std.specs.Prelude.{◌≡◌, ℕ, suc, ◌+◌, ◌-◌, ◌*◌, ◌<◌, length};
ghost use Rattle.algebra.specs.Divisors.{Combination};
ghost use Rattle.algebra.specs.Frames.{FrameColumns};
ghost use Rattle.algebra.specs.Series.{series};
ghost use Rattle.frames.specs.Rows.{column_in, generator_in};
ghost use Rattle.tables.specs.Places.{Kept};
ghost use Rattle.scan.specs.Columns.{ZeroPast};
ghost use Rattle.scan.specs.Walks.{WalkedTo};

use crate::columns::{write_at, write_check};
use crate::lists::{write_list, write_unit};
use crate::walk::Walk;
use fields::field::Field;
use tables::sizes::{COLUMNS, FRAME};

impl<'a, F: Field> Walk<'a, F> {
    // Walks the place q. A place whose class has a basic place is passed. Else its list is taken: where it is pivotal, its step is
    // recorded; where not, it is the next basic place, and its check column is written.
    fn walk_place(&mut self, q: usize, frame: &mut [F])
        requires place { q < self.old.row.n * suc self.old.row.d }
        requires room { length frame.old ≡ FRAME }
        requires walked { WalkedTo q self.old frame.old }
        ensures walked { WalkedTo (suc q) self.new frame.new }
        ensures row { self.new.row ≡ self.old.row }
        ensures behind { Kept F.ops F.member 0 COLUMNS frame.old frame.new }
    {
        let class = q % self.row.n;
        if self.found[class] {
            return;
        }
        write_list(&self.row, q, self.column);
        let rank = self.steps.rank;
        if self.steps.take_column(self.column) {
            self.places[rank] = q;
            return;
        }
        let next = self.basics + 1;
        write_check(&self.row, next, q, &self.places[..rank], self.column, frame);
        self.basics = next;
        self.found[class] = true;
    }

    // Walks all places of a row, from place 0 on, in order.
    pub fn walk(&mut self, frame: &mut [F])
        requires room { length frame.old ≡ FRAME }
        requires walked { WalkedTo 0 self.old frame.old }
        ensures walked { WalkedTo (self.old.row.n * suc self.old.row.d) self.new frame.new }
        ensures row { self.new.row ≡ self.old.row }
        ensures behind { Kept F.ops F.member 0 COLUMNS frame.old frame.new }
    {
        // q is a place of the row, and no index.
        for q in 0..self.row.n * (self.row.d + 1) {
            self.walk_place(q, frame);
        }
    }

    // Writes column 0, when all places of a row are walked: the multipliers whose sum of the pivotal lists is the unit list.
    pub fn write_first(&mut self, frame: &mut [F])
        requires room { length frame.old ≡ FRAME }
        requires walked { WalkedTo (self.old.row.n * suc self.old.row.d) self.old frame.old }
        requires coprime { Combination F.ops self.old.row.n (generator_in F.ops F.member self.old.row.entries.now) (series F.ops).one }
        ensures columns { (p : ℕ → ℕ) × FrameColumns F.ops (self.old.row.n - 1) self.old.row.d (generator_in F.ops F.member self.old.row.entries.now) p (column_in F.ops F.member frame.new) }
        ensures rest { ZeroPast F.ops F.member self.old.row.n frame.new }
        ensures behind { Kept F.ops F.member 0 COLUMNS frame.old frame.new }
    {
        let rank = self.steps.rank;
        write_unit(self.column);
        self.steps.take_column(self.column);
        write_at(&self.row, 0, &self.places[..rank], self.column, frame);
    }
}
