// A plan's bytes read in one form, and written in the other. Where anything is refused the buffer stays as it was. The plan is read into
// tables of the call's own.
ghost use Rattle.converting.specs.Answer.{convert_of};
ghost use Rattle.converting.specs.Outcome.{Upgrades, Downgrades};

use crate::ConvertRefusal;
use crate::written::{write_older, write_plan};
use loading::read_form_tables;
use plan::Form;
use tables::empty;

// From the older form, read loosely, to the newer one: the length written.
pub fn upgrade(plan: &[u8], buffer: &mut [u8]) -> Result<usize, ConvertRefusal>
    ensures { Upgrades plan.now buffer.old (convert_of result) buffer.new }
{
    let mut tables = empty();
    read_form_tables(Form::Older, false, plan, &mut tables)?;
    write_plan(Form::Newer, tables.lend(), buffer)
}

// From the newer form back to the older one.
pub fn downgrade(plan: &[u8], buffer: &mut [u8]) -> Result<usize, ConvertRefusal>
    ensures { Downgrades plan.now buffer.old (convert_of result) buffer.new }
{
    let mut tables = empty();
    read_form_tables(Form::Newer, true, plan, &mut tables)?;
    write_older(plan, tables.lend(), buffer)
}
