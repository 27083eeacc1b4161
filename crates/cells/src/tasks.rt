// The table of tasks, and times by task: each is read and written by a task alone.
ghost use Rattle.std.specs.Prelude.{◌≡◌, ltb, get_or, set};
ghost use Rattle.cells.specs.Cell.{rows_in, field_at, num_at};
ghost use Rattle.cells.specs.Columns.{task_width, task_supplier_column, task_worst_column};

use crate::columns::task;
use crate::kinds::Task;
use crate::table;

// Task t is declared.
// As for ports: a number of one kind never indexes another's table.
pub fn declared(tasks: &[i32], t: Task) -> bool
    ensures { result ≡ ltb t.0 (rows_in task_width tasks.now) }
{
    t.index() < tasks.len() / task::WIDTH
}

// The supplier of task t.
pub fn owner(tasks: &[i32], t: Task) -> usize
    ensures { result ≡ field_at task_width task_supplier_column tasks.now t.0 }
{
    table::field(tasks, task::WIDTH, t.index(), task::SUPPLIER)
}

// The worst-case time of task t.
pub fn worst(tasks: &[i32], t: Task) -> usize
    ensures { result ≡ field_at task_width task_worst_column tasks.now t.0 }
{
    table::field(tasks, task::WIDTH, t.index(), task::WORST)
}

// The execution time that is lent for task t; a negative one is out of every range.
pub fn time(times: &[i32], t: Task) -> usize
    ensures { result ≡ num_at times.now t.0 }
{
    table::num(times, t.index())
}

// The remaining time of task t; 0 where there are not so many.
pub fn left(left: &[usize], t: Task) -> usize
    ensures { result ≡ get_or left.now t.0 0 }
{
    table::at(left, t.index(), 0)
}

// A remaining time is put for task t; where there are not so many, none is.
pub fn put_left(left: &mut [usize], t: Task, time: usize)
    ensures { left.new ≡ set left.old t.0 time }
{
    table::put(left, t.index(), time);
}
