// Marks of access: which users may send a command.
ghost use Rattle.std.specs.Prelude.{◌≡◌};
ghost use Rattle.wire.specs.Rules.{judge};
ghost use Rattle.control.specs.Table.{in_mode, has_mark};
ghost use Rattle.control.specs.Control.{mark_rules};
ghost use Rattle.wire.specs.Refusals.{refusing};

use crate::Command;
use access::{Access, Level, Mode};
use wire::Refusal;

#[derive(Clone, Copy)]
pub struct Marks {
    pub admin: bool,
    pub member: bool,
    pub basic: bool,
    pub setup: bool,
}

pub const A: Marks = Marks {
    admin: true,
    member: false,
    basic: false,
    setup: false,
};

pub const AM: Marks = Marks {
    admin: true,
    member: true,
    basic: false,
    setup: false,
};

pub const AMB: Marks = Marks {
    admin: true,
    member: true,
    basic: true,
    setup: false,
};

pub const AMBS: Marks = Marks {
    admin: true,
    member: true,
    basic: true,
    setup: true,
};

pub const S: Marks = Marks {
    admin: false,
    member: false,
    basic: false,
    setup: true,
};

// Whether a mark of the mode is there.
pub fn in_mode(marks: Marks, mode: Mode) -> bool
    ensures { result ≡ in_mode mode marks }
{
    match mode {
        Mode::Normal => {
            if marks.admin {
                return true;
            }
            if marks.member {
                return true;
            }
            marks.basic
        }
        Mode::Setup => marks.setup,
    }
}

// Whether an encrypted packet's level has its mark; a plain one needs none, and there is none for a number that no level has.
pub fn has_mark(marks: Marks, access: Access) -> bool
    ensures { result ≡ has_mark access marks }
{
    match access {
        Access::Plain => true,
        Access::Keyed(level) => match level {
            Level::Admin => marks.admin,
            Level::Member => marks.member,
            Level::Basic => marks.basic,
            Level::Setup => marks.setup,
        },
        Access::Unknown => false,
    }
}

// What was read of the payload, if the marks permit it.
pub fn by_mark(
    marks: Marks,
    mode: Mode,
    access: Access,
    read: Result<Command, Refusal>,
) -> Result<Command, Refusal>
    ensures { result ≡ judge refusing (mark_rules marks mode access) read }
{
    if in_mode(marks, mode) {
        if has_mark(marks, access) {
            read
        } else {
            Err(Refusal::NoMarkForLevel)
        }
    } else {
        Err(Refusal::NoMarkForMode)
    }
}
