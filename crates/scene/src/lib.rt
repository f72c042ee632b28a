// What a scene text means: specs/ has the definitions, proofs/ their laws and the exchange law. The code here is what all crates share:
// how a text is read, and why one is refused.
#![tactic(auto)]

ghost use Rattle.std.specs.Prelude.{◌≡◌};
ghost use Rattle.lexer.specs.Fault.{number_of};
ghost use Rattle.scene.specs.Reason.{reason_number};

use lexer::WordFault;

// Which reading: the new one refuses antimatter, and the archive one, for old scenes, accepts it.
#[derive(Clone, Copy)]
pub enum Mode {
    New,
    Archive,
}

// How a text is read: in which mode, and how many records and how many reals there is room for. The definitions and the code
// take the same settings.
#[derive(Clone, Copy)]
pub struct Settings {
    pub mode: Mode,
    pub records: usize,
    pub reals: usize,
}

// Why a text, a table or a question is refused. The numbers are those that calls for other languages answer and programs print.
#[derive(Clone, Copy, PartialEq, Eq, Debug)]
pub enum Reason {
    TextTooLong = 1,
    BadByte = 2,
    WordTooLong = 3,
    Command = 4,
    EndsInStatement = 5,
    NoRoomForRecord = 6,
    UnknownModifier = 7,
    UnknownType = 8,
    NameIsVoid = 9,
    UnknownTarget = 10,
    BadCount = 12,
    NoRoomForReals = 13,
    BadNumeral = 14,
    NumeralTooLarge = 15,
    BreaksHouseRule = 16,
    NoSuchPrimitive = 17,
    BadTable = 18,
    AllowanceUsedUp = 19,
    NotFinite = 20,
    OutOfRange = 21,
    TablesDiffer = 22,
    OutputTooSmall = 23,
    IndexTooShort = 24,
    UnknownSide = 25,
    Loop = 26,
    PairsTooShort = 27,
    RetiredType = 28,
    NameTwice = 29,
    ChangedByBoth = 30,
    NoOrder = 31,
    NotTheJoin = 32,
    LastLineOpen = 33,
    LineOfTwo = 34,
}

impl Reason {
    pub fn number(self) -> u32
        ensures { result ≡ reason_number self }
    {
        self as u32
    }
}

// What is wrong with a word is a reason for refusing the text.
impl From<WordFault> for Reason {
    ghost from_gives = { λ fault reason. reason_number reason ≡ number_of fault };

    fn from(fault: WordFault) -> Reason {
        match fault {
            WordFault::BadByte => Reason::BadByte,
            WordFault::TooLong => Reason::WordTooLong,
        }
    }
}

// A reason, and the place in the text that it is given at.
#[derive(Clone, Copy, PartialEq, Eq, Debug)]
pub struct Refusal {
    pub reason: Reason,
    pub place: usize,
}
