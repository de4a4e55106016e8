ghost use Rattle.std.specs.Prelude.{◌≡◌, true};
ghost use Rattle.vax_table.specs.Acted.{meaning_by};
ghost use Rattle.vax_table.specs.InstructionSet.{opcode_meaning};
ghost use Rattle.vax_table.specs.Operations.{is_narrow, operation_of};
ghost use Rattle.vax_table.specs.RowViews.{opcode_entry_view, row_views};
ghost use Rattle.vax_table.specs.Rows.{row_of};

use crate::forms::{Form, Row};
use crate::meaning::Operation;
use crate::meanings::OPERATIONS;
use crate::packed_rows::{PACKED_ROWS, PackedRow};
use arrayvec::ArrayVec;

fn packed_row(opcode: u8) -> PackedRow
    ensures { opcode_entry_view result ≡ row_of opcode }
{
    PACKED_ROWS[usize::from(opcode)]
}

/// The row of an opcode; None exactly where the table has none. The row of FD is that of WAIT,
/// the one instruction whose first byte that is.
pub fn row(opcode: u8) -> Option<Row>
    ensures { row_views result ≡ row_of opcode }
{
    let mut operands: ArrayVec<Form, 4> = ArrayVec::new();
    match packed_row(opcode) {
        PackedRow::Unknown => {
            return None;
        }
        PackedRow::None => {}
        PackedRow::One(first) => {
            operands.push(first);
        }
        PackedRow::Two(first, second) => {
            operands.push(first);
            operands.push(second);
        }
        PackedRow::Three(first, second, third) => {
            operands.push(first);
            operands.push(second);
            operands.push(third);
        }
        PackedRow::Four(first, second, third, fourth) => {
            operands.push(first);
            operands.push(second);
            operands.push(third);
            operands.push(fourth);
        }
    }
    Some(Row { operands })
}

/// What the instruction of an opcode does after its operands; `Other` exactly where no instruction has the opcode.
pub fn operation(opcode: u8) -> Operation
    ensures value { result ≡ operation_of opcode }
    ensures means { meaning_by result ≡ opcode_meaning opcode }
    ensures narrow { is_narrow result ≡ true }
{
    OPERATIONS[usize::from(opcode)]
}
