// The commands of a query, and the sorts of its variables.
ghost use Rattle.std.specs.Prelude.{◌≡◌, Some, None, MatchResult};
ghost use Rattle.formats.specs.QueryBytes.{command_of, operand_width, is_binder};

/// The commands, in the order of their bytes, 20 to 2E.
#[derive(Clone, Copy, Debug, PartialEq, Eq)]
pub enum Command {
    Nothing,
    Document,
    Single,
    Held,
    Union,
    Scale,
    Make,
    Named,
    Child,
    Below,
    Only,
    For,
    Let,
    IfName,
    Alike,
}

/// Whether a variable stands for a tree or for a forest.
#[derive(Clone, Copy, Debug, PartialEq, Eq)]
pub enum Sort {
    OfTree,
    OfForest,
}

/// A byte that stands for no command.
#[derive(Clone, Copy, Debug, PartialEq, Eq)]
pub struct UnknownCommand(pub u8);

/// The command that a byte stands for.
impl TryFrom<u8> for Command {
    type Error = UnknownCommand;

    ghost try_from_gives = { λ b r. MatchResult r (λ c. command_of b ≡ Some c) (λ e. (command_of b ≡ None) × (e.0 ≡ b)) };

    fn try_from(byte: u8) -> Result<Command, UnknownCommand> {
        match byte {
            0x20 => Ok(Command::Nothing),
            0x21 => Ok(Command::Document),
            0x22 => Ok(Command::Single),
            0x23 => Ok(Command::Held),
            0x24 => Ok(Command::Union),
            0x25 => Ok(Command::Scale),
            0x26 => Ok(Command::Make),
            0x27 => Ok(Command::Named),
            0x28 => Ok(Command::Child),
            0x29 => Ok(Command::Below),
            0x2A => Ok(Command::Only),
            0x2B => Ok(Command::For),
            0x2C => Ok(Command::Let),
            0x2D => Ok(Command::IfName),
            0x2E => Ok(Command::Alike),
            _ => Err(UnknownCommand(byte)),
        }
    }
}

impl Command {
    /// How many bytes of operands follow the command's own byte, before the queries that it takes.
    pub fn width(self) -> usize
        ensures { result ≡ operand_width self }
    {
        match self {
            Command::Nothing
            | Command::Union
            | Command::Child
            | Command::Below
            | Command::For
            | Command::Let => 0,
            Command::Document | Command::Single | Command::Held | Command::Named => 1,
            Command::Scale | Command::Make | Command::Only | Command::Alike => 2,
            Command::IfName => 3,
        }
    }

    /// Whether the command binds a variable in its second query.
    pub fn binds(self) -> bool
        ensures { result ≡ is_binder self }
    {
        matches!(self, Command::For | Command::Let)
    }
}
