// The table of ports, and values by port: each is read and written by a port alone.
ghost use Rattle.std.specs.Prelude.{◌≡◌, eqb, ltb, set};
ghost use Rattle.cells.specs.Codes.{port_kind_number};
ghost use Rattle.cells.specs.Cell.{rows_in, field_at, value_at, cell_at};
ghost use Rattle.cells.specs.Columns.{port_width, port_kind_column, port_first_column};

use crate::codes::PortKind;
use crate::columns::port;
use crate::kinds::Port;
use crate::table;

// Port p is declared.
// It stands for each kind by itself, since a number of one kind never indexes another's table.
pub fn declared(ports: &[i32], p: Port) -> bool
    ensures { result ≡ ltb p.0 (rows_in port_width ports.now) }
{
    p.index() < ports.len() / port::WIDTH
}

// The number of the kind of port p, in its row.
pub fn kind(ports: &[i32], p: Port) -> usize
    ensures { result ≡ field_at port_width port_kind_column ports.now p.0 }
{
    table::field(ports, port::WIDTH, p.index(), port::KIND)
}

// Port p is of this kind.
pub fn is(ports: &[i32], p: Port, k: PortKind) -> bool
    ensures { result ≡ eqb (field_at port_width port_kind_column ports.now p.0) (port_kind_number k) }
{
    kind(ports, p) == usize::from(k)
}

// The first value of port p.
pub fn first(ports: &[i32], p: Port) -> i32
    ensures { result ≡ value_at port_width port_first_column ports.now p.0 }
{
    table::signed(ports, port::WIDTH, p.index(), port::FIRST)
}

// What port p holds among values by port; 0 where there are not so many.
pub fn value(values: &[i32], p: Port) -> i32
    ensures { result ≡ cell_at values.now p.0 }
{
    table::at(values, p.index(), 0)
}

// A value is put where port p holds it; where there are not so many, nothing is.
pub fn put(values: &mut [i32], p: Port, v: i32)
    ensures { values.new ≡ set values.old p.0 v }
{
    table::put(values, p.index(), v);
}
