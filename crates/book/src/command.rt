ghost use Rattle.std.specs.Prelude.{◌≡◌, ℕ, ◌≤◌, length};
ghost use Rattle.byte_layer.specs.Fault.{heard, told_byte};
ghost use Rattle.bid.specs.Format.{bid_read};
ghost use Rattle.border.specs.Format.{border_read};
ghost use Rattle.need.specs.Format.{need_read};
ghost use Rattle.book.specs.Fault.{told_book};
ghost use Rattle.units.specs.Field.{told_field};
ghost use Rattle.units.specs.Named.{Names};
ghost use Rattle.book.specs.Command.{command_byte, command_for, command_size, command_at, is_bid, is_seal};
ghost use Rattle.book.specs.Rows.{rowed, group_read, row_read};
ghost use Rattle.book.specs.declared.row.Row.TheVariants as kind;

use crate::fault::BookFault;
use crate::row::Row;
use bid::lawful::Bid;
use bid::size::GroupSize;
use border::lawful::Border;
use byte_layer::fault::ByteFault;
use need::lawful::Need;
use units::field::FieldFault;
use units::named::Unnamed;

// The command bytes.
pub const BID: u8 = 0x42;

pub const GROUP: u8 = 0x45;

pub const NEED: u8 = 0x4E;

pub const BORDER: u8 = 0x4C;

pub const SEAL: u8 = 0x53;

#[derive(Clone, Copy, PartialEq, Eq, Debug)]
pub enum Command {
    Bid,
    Group,
    Need,
    Border,
    Seal,
}

// The command that a byte of a text names, if it names one.
impl TryFrom<u8> for Command {
    type Error = Unnamed;

    ghost try_from_gives = { Names command_for };

    fn try_from(byte: u8) -> Result<Command, Unnamed> {
        match byte {
            BID => Ok(Command::Bid),
            GROUP => Ok(Command::Group),
            NEED => Ok(Command::Need),
            BORDER => Ok(Command::Border),
            SEAL => Ok(Command::Seal),
            _ => Err(Unnamed(byte)),
        }
    }
}

impl From<Command> for u8 {
    ghost from_gives = { λ command byte. byte ≡ command_byte command };

    fn from(command: Command) -> u8 {
        match command {
            Command::Bid => BID,
            Command::Group => GROUP,
            Command::Need => NEED,
            Command::Border => BORDER,
            Command::Seal => SEAL,
        }
    }
}

impl Command {
    // How many bytes the command has, its operands included.
    pub fn size(self) -> usize
        ensures { result ≡ command_size self }
    {
        match self {
            Command::Bid => 51,
            Command::Group => 2,
            Command::Need => 36,
            Command::Border => 36,
            Command::Seal => 1,
        }
    }

    pub fn is_bid(self) -> bool
        ensures { result ≡ is_bid self }
    {
        self == Command::Bid
    }

    pub fn is_seal(self) -> bool
        ensures { result ≡ is_seal self }
    {
        self == Command::Seal
    }

    // The command at the front of a text, whole, which stands at an offset in a longer one.
    pub fn at(text: &[u8], offset: usize) -> Result<Command, ByteFault>
        ensures { heard told_byte result ≡ command_at offset text.now }
    {
        let [byte, ..] = text else {
            return Err(ByteFault::Cut(offset));
        };
        let command = Command::try_from(*byte).map_err(|_unnamed| ByteFault::Unknown(offset))?;
        if text.len() < command.size() {
            return Err(ByteFault::Cut(offset));
        }
        Ok(command)
    }
}

impl Command {
    // The row of the command at the front of a text, or the rule that its fields break; the seal is none.
    #[tactic(auto, unfolding(crate::specs::Rows::row_read))]
    fn read(self, text: &[u8]) -> Result<Option<Row>, FieldFault>
        requires { command_size self ≤ length text.now }
        ensures { (row : ℕ) → heard (told_field row) result ≡ row_read self row text.now }
    {
        let row = match (self, text) {
            (Command::Bid, [_, operands @ ..]) => Row::Bid(Bid::read(operands)?.fields()),
            (Command::Group, [_, members, ..]) => Row::Group(GroupSize::try_from(
                *members,
            )?.members()),
            (Command::Need, [_, operands @ ..]) => Row::Need(Need::read(operands)?.fields()),
            (Command::Border, [_, operands @ ..]) => Row::Border(Border::read(operands)?.fields()),
            (Command::Seal, _) => return Ok(None),
            _ => return unreachable(),
        };
        Ok(Some(row))
    }

    // The same, with the fault in the row of that number.
    pub fn row(self, text: &[u8], row: usize) -> Result<Option<Row>, BookFault>
        requires { command_size self ≤ length text.now }
        ensures { heard told_book result ≡ row_read self row text.now }
    {
        self.read(text)
            .map_err(|fault| BookFault::in_row(fault, row))
    }
}
