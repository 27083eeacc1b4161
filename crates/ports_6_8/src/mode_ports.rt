// Is a port of a mode wrong?
ghost use Rattle.std.specs.Prelude.{◌≡◌, ℕ, Bool};
ghost use Rattle.program.specs.Tables.{Tables};
ghost use Rattle.rules.specs.Modes.{some_port};
ghost use Rattle.ports_6_8.specs.Asked.{Asks};

use cells::columns::mode_port;
use cells::kinds::{Mode, Port};
use cells::table;
use theory::scan;

// Some port of mode m is wrong.
#[tactic(auto, unfolding(rules::specs::Modes::some_port, rules::specs::Modes::port_with))]
pub fn some_port<F: Fn(Port) -> bool>(mode_ports: &[i32], m: Mode, wrong: F) -> bool
    requires { (p : Port) → F.pre wrong p }
    ensures { (T : Tables) → T.mode_ports ≡ mode_ports.now → (bad : ℕ → Bool) → Asks (F.post wrong) bad
        → result ≡ some_port T bad m.0 }
{
    scan::any(mode_ports.len() / mode_port::WIDTH, |k| {
        let owner: Mode = table::named(mode_ports, mode_port::WIDTH, k, mode_port::MODE);
        owner == m && wrong(table::named(mode_ports, mode_port::WIDTH, k, mode_port::PORT))
    })
}
