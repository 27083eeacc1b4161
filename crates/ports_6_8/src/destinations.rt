// Does a driver set a port that it may not?
ghost use Rattle.std.specs.Prelude.{◌≡◌, ℕ, Bool};
ghost use Rattle.program.specs.Tables.{Tables};
ghost use Rattle.rules.specs.Modes.{some_destination};
ghost use Rattle.ports_6_8.specs.Asked.{Asks};

use crate::copies::some_copy;
use cells::columns::copy;
use cells::kinds::{Driver, Port};

// Some copy of driver d goes to a port that is wrong.
#[tactic(auto, unfolding(rules::specs::Modes::some_destination, rules::specs::Modes::destination_with))]
pub fn some_destination<F: Fn(Port) -> bool>(copies: &[i32], d: Driver, wrong: F) -> bool
    requires { (p : Port) → F.pre wrong p }
    ensures { (T : Tables) → T.copies ≡ copies.now → (bad : ℕ → Bool) → Asks (F.post wrong) bad
        → result ≡ some_destination T bad d.0 }
{
    some_copy(copies, copy::DESTINATION, d, wrong)
}
