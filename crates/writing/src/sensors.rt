// E code that reads all sensors.
ghost use Rattle.std.specs.Prelude.{◌≡◌, ◌+◌, ◌≤◌};
ghost use Rattle.cells.specs.Cell.{rows_in, greatest_word};
ghost use Rattle.cells.specs.Limits.{max_ports};
ghost use Rattle.program.specs.Tables.{port_width};
ghost use Rattle.program.specs.Sets.{sensor_rows};
ghost use Rattle.words.specs.Written.{written, writes};
ghost use Rattle.writing.specs.Rows.{reading};

use crate::rows;
use cells::codes::PortKind;
use cells::columns::port;
use cells::kinds::{Kind, Port};
use cells::ports;
use words::Instruction;

// The readings of all sensors are written, in port order. The next address is returned.
pub fn sensors(code: &mut [u32], at: usize, ports: &[i32]) -> usize
    requires ports_bound { at + rows_in port_width ports.now ≤ greatest_word }
    requires ports_bound_2 { rows_in port_width ports.now ≤ max_ports }
    ensures { written code.new result ≡ writes (sensor_rows ports.now reading) (written code.old at) }
{
    rows::passing(
        code,
        at,
        ports.len() / port::WIDTH,
        |k| ports::is(ports, Port::of(k), PortKind::Sensor),
        |k| Instruction::sensor_call(Port::of(k)),
    )
}
