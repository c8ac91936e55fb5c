// Modes, user levels, and how a packet came.
#![tactic(auto)]

ghost use Rattle.std.specs.Prelude.{◌≡◌};
ghost use Rattle.access.specs.Level.{level_number, Reads};

#[derive(Clone, Copy)]
pub enum Mode {
    Normal,
    Setup,
}

// Whose key a packet is encrypted with.
#[derive(Clone, Copy)]
pub enum Level {
    Admin,
    Member,
    Basic,
    Setup,
}

// A packet comes plain, encrypted with a level's key, or under a number that no level has, which no command has a mark for.
#[derive(Clone, Copy)]
pub enum Access {
    Plain,
    Keyed(Level),
    Unknown,
}

// A number that no level has.
#[derive(Clone, Copy, Debug, PartialEq, Eq)]
pub struct UnknownLevel(pub u8);

// A level's number.
impl From<Level> for u8 {
    ghost from_gives = { λ level number. number ≡ level_number level };

    fn from(level: Level) -> u8 {
        match level {
            Level::Admin => 0,
            Level::Member => 1,
            Level::Basic => 2,
            Level::Setup => 100,
        }
    }
}

// The level that has a number.
impl TryFrom<u8> for Level {
    type Error = UnknownLevel;

    ghost try_from_gives = { Reads };

    fn try_from(number: u8) -> Result<Self, UnknownLevel> {
        match number {
            0 => Ok(Level::Admin),
            1 => Ok(Level::Member),
            2 => Ok(Level::Basic),
            100 => Ok(Level::Setup),
            _ => Err(UnknownLevel(number)),
        }
    }
}
