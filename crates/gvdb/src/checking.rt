// Checking a table.
ghost use Rattle.std.specs.Prelude.{◌≡◌};
ghost use Rattle.read_find.specs.Find.{manner_of};
ghost use Rattle.check_rules.specs.Rules.{check_table};
ghost use Rattle.answers.specs.Manner.{manner_named};
ghost use Rattle.answers.specs.Checking.{checked_answer};

use answers::checking::GvdbCheck;
use answers::manner::manner_of;

// Checks the table at a pointer.
#[unsafe(no_mangle)]
pub extern "C" fn gvdb_check(file: &[u8], start: u32, end: u32, manner: u32) -> GvdbCheck
    ensures { result ≡ checked_answer (check_table (manner_of (manner_named manner)) file.now start end) }
{
    check_table::check::check_table(file, start, end, manner_of(manner)).into()
}
