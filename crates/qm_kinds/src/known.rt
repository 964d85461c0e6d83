// Names that stand in the rules.
ghost use Rattle.std.specs.Prelude.{◌≡◌};
ghost use Rattle.qm_kinds.specs.Names.{default_form, batch_queue, print_queue, system_user};

use crate::name::Name;

/// The form that is always there, `DEFAULT`.
pub fn default_form() -> Name
    ensures { result ≡ default_form }
{
    Name::read(b"DEFAULT").unwrap()
}

/// The queue of batch jobs that name none, `SYS$BATCH`.
pub fn batch_queue() -> Name
    ensures { result ≡ batch_queue }
{
    Name::read(b"SYS$BATCH").unwrap()
}

/// The queue of print jobs that name none, `SYS$PRINT`.
pub fn print_queue() -> Name
    ensures { result ≡ print_queue }
{
    Name::read(b"SYS$PRINT").unwrap()
}

/// The user of a line that names none, `SYSTEM`.
pub fn system_user() -> Name
    ensures { result ≡ system_user }
{
    Name::read(b"SYSTEM").unwrap()
}
