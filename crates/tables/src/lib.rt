//! A table that a sheet handed out, as a machine of its own.
#![tactic(auto)]

ghost use Rattle.std.specs.Prelude.{◌≡◌, ◌*◌, take, IfOk};
ghost use Rattle.forms.specs.Forms.{grid_of};
ghost use Rattle.forms.specs.Grids.{grid_opening};
ghost use Rattle.std.specs.Result.{result_map_both};
ghost use Rattle.tables.specs.Tables.{IsTable};

use forms::{Grid, OpenRefusal};
use machine::Output;
use sheet::Table;

/// Opens the written part of a table's two buffers as a grid. Where they are a complete machine, as those of a sheet's table are, an
/// opened grid is sound and is that machine.
pub fn open_table<O: Output>(
    table: Table,
    inputs: u16,
    mut next: Vec<u16>,
    mut outputs: Vec<O>,
) -> Result<Grid<O>, OpenRefusal>
    ensures answer { result_map_both grid_of (λ e. e) result ≡ grid_opening table.classes inputs table.start (take (table.classes * inputs) next.items) (take (table.classes * inputs) outputs.items) }
    ensures means { IfOk result (λ g. IsTable O.Output.key table.classes inputs next.items outputs.items (grid_of g)) }
{
    let cells = table.classes as usize * inputs as usize;
    next.truncate(cells);
    outputs.truncate(cells);
    Grid::open(table.classes, inputs, table.start, next, outputs)
}
