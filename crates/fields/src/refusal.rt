// Why a call refuses what it is given, and where: the error of every call that can fail.
ghost use Rattle.std.specs.Prelude.{◌≡◌};
ghost use Rattle.fields.specs.Refusal.{code_of, because};

// The rule that holds first. Each has the number by which C and the papers know it.
#[derive(Clone, Copy, Debug, PartialEq, Eq)]
pub enum Reason {
    FileTooLong = 1,
    FileTooShort = 2,
    FileVersion = 3,
    Target = 4,
    OptionalSize = 5,
    Unresolved = 6,
    TooManySections = 7,
    HeadersCut = 8,
    Magic = 9,
    RawData = 10,
    SectionLoad = 11,
    SectionRun = 12,
    SectionsMeet = 13,
    ImageWouldBeTooLong = 14,
    OutputTooShort = 15,
    SectionName = 16,
    Patterns = 17,
    ImageTooLong = 20,
    ImageCut = 21,
    TooManyBlocks = 22,
    BlockLoad = 23,
    BlockRun = 24,
    Padding = 25,
    BytesFollow = 26,
    BlocksMeet = 27,
    Window = 28,
    Outside = 29,
    NoSuchBlock = 30,
    Order = 33,
    EntryDiffers = 40,
    PlacementDiffers = 41,
}

impl Reason {
    pub fn code(self) -> u32
        ensures { result ≡ code_of self }
    {
        self as u32
    }

    // Of the section or the block of this number.
    pub fn at(self, index: usize) -> Refusal
        ensures { result ≡ record { reason = self; index = index } }
    {
        Refusal {
            reason: self,
            index,
        }
    }
}

// A rule and the number of the section or the block of which it holds.
#[derive(Clone, Copy, Debug, PartialEq, Eq)]
pub struct Refusal {
    pub reason: Reason,
    pub index: usize,
}

// Of the input as a whole the index is 0.
impl From<Reason> for Refusal {
    ghost from_gives = { λ reason r. r ≡ because reason };

    fn from(reason: Reason) -> Refusal {
        reason.at(0)
    }
}
