// One instant of the E machine over lent words: from the pending address to `return`, in at most as many instructions as there are.
#![tactic(auto)]

ghost use Rattle.std.specs.Prelude.{◌≡◌, ℤ};
ghost use Rattle.program.specs.Tables.{tables_in};
ghost use Rattle.program.specs.Program.{program_of};
ghost use Rattle.rules.specs.Shape.{InShape};
ghost use Rattle.code.specs.Op.{instructions};
ghost use Rattle.machine.specs.Instant.{ran_out, run_instant};
ghost use Rattle.machine.specs.Advance.{answer};
ghost use Rattle.machine.specs.Told.{advanced_of};

use cells::limits::Program;
use cells::refusals::Refusal;
use cells::tables::ProgramTables;
use instructions::Stepping;
use machine::{At, State};

mod calls;
mod instructions;

// What an instant comes to after as many instructions as the code has: too many at an address inside the code, faulty past its end.
fn spent(count: usize, address: usize, s: State) -> Result<State, Refusal>
    ensures { advanced_of s result ≡ answer s (ran_out count address) }
{
    if address < count {
        return Err(Refusal::Count);
    }
    Err(Refusal::Faulty)
}

// The state after one instant, or its refusal with the state as it was.
pub fn instant(
    tables: &ProgramTables,
    code: &[u32],
    readings: &[i32],
    times: &[i32],
    s: State,
) -> Result<State, Refusal>
    requires { InShape tables.now }
    ensures { (start : ℤ) → let P = program_of (tables_in tables.now start) in
        advanced_of s result ≡ answer s (run_instant P readings.now times.now (instructions code.now) s) }
{
    let count = code.len() / Program::WORDS;
    let mut at = At {
        address: s.pending,
        planned: false,
        state: s,
    };
    for _done in 0..count {
        match instructions::step(tables, code, readings, times, at)? {
            Stepping::On(next) => at = next,
            Stepping::Over(last) => return Ok(last.state),
        }
    }
    spent(count, at.address, s)
}
