// Is a port wrong that the copies of a driver name in one of the two columns of ports?
ghost use Rattle.std.specs.Prelude.{◌≡◌, ◌&&◌, ℕ, Bool, eqb};
ghost use Rattle.theory.specs.Search.{any};
ghost use Rattle.cells.specs.Cell.{Column, named_at};
ghost use Rattle.program.specs.Tables.{Tables, copy_width, copy_count, copy_driver};
ghost use Rattle.ports_6_8.specs.Asked.{Asks};

use cells::columns::copy;
use cells::kinds::{Driver, Port};
use cells::table;
use theory::scan;

// Some copy of driver d names a port in this column that is wrong.
pub(crate) fn some_copy<F: Fn(Port) -> bool>(
    copies: &[i32],
    column: usize,
    d: Driver,
    wrong: F,
) -> bool
    requires in_row { Column copy_width column }
    requires callable { (p : Port) → F.pre wrong p }
    ensures { (T : Tables) → T.copies ≡ copies.now → (bad : ℕ → Bool) → Asks (F.post wrong) bad
        → result ≡ any (λ c. eqb (copy_driver T c) d.0 && bad (named_at copy_width column T.copies c)) (copy_count T) }
{
    scan::any(
        copies.len() / copy::WIDTH,
        |c|
            requires in_row { Column copy_width column }
            requires callable { (p : Port) → F.pre wrong p }
        {
            let owner: Driver = table::named(copies, copy::WIDTH, c, copy::DRIVER);
            owner == d && wrong(table::named(copies, copy::WIDTH, c, column))
        },
    )
}
