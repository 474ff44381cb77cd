// Every reason for which a call of the analyser answers a number of document 01 or of a request of document 02.
#![tactic(auto)]

ghost use Rattle.std.specs.Prelude.{◌≡◌};
ghost use Rattle.refusal.specs.Refusals.{number_of};

#[derive(Clone, Copy, Debug, PartialEq, Eq)]
pub enum Refusal {
    // Reading and receiving a frame: 1 to 15, and 16 (request #105), which is asked between 13 and 14; these three with tag 1 alone
    // (request #108).
    FrameTooShort = 1,
    FrameTooLong = 2,
    WrongTpid = 3,
    CfiSet = 4,
    WrongEthertype = 5,
    ControlAvtpdu = 6,
    WrongSubtype = 7,
    WrongVersion = 8,
    NoStreamId = 9,
    WrongAddress = 10,
    DataBeyondFrame = 11,
    WrongTag = 12,
    NoCipHeader = 13,
    PartialBlock = 14,
    NotAdmitted = 15,
    WrongQpc = 16,
    // Tables: 20 to 23, and 24 (request #107), which is asked between 21 and 22.
    TableTooLong = 20,
    AlreadyAdmitted = 21,
    TableFull = 22,
    NothingToRemove = 23,
    LimitTooLarge = 24,
    // Writing a frame: 31 to 35.
    WriteWrongAddress = 31,
    WriteFieldTooWide = 32,
    WritePartialBlock = 33,
    WritePayloadTooLong = 34,
    WriteOutputTooShort = 35,
    // Captures: 41 to 43, and 44 (request #109), which is asked between 42 and 43.
    RecordCut = 41,
    RecordLength = 42,
    RecordKind = 43,
    RecordRetired = 44,
    // Cycle times (request #101): 61 to 63.
    CycleTooLarge = 61,
    OffsetInCycleTooLarge = 62,
    CycleSecondsTooLarge = 63,
}

impl From<Refusal> for u8 {
    ghost from_gives = { λ refusal number. number ≡ number_of refusal };

    fn from(refusal: Refusal) -> u8 {
        refusal as u8
    }
}
