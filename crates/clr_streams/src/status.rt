/// How a command ended.
#[derive(Clone, Copy, Debug, PartialEq, Eq)]
pub enum Status {
    /// The command was done to its end, and all that it writes is written.
    Done,
    /// The words say no command.
    Usage,
    /// A read failed.
    ReadFault,
    /// A write failed.
    WriteFault,
    /// There was no memory for the command. Nothing was written, and `run` and `soak` have read nothing. `open` has read
    /// nothing of its script.
    Memory,
    /// The script or the image has more bytes than its command reads.
    TooMuch,
    /// The bytes that `inspect`, `migrate` or `open` read are no image of a heap, or `open` can't go on from it.
    BadImage,
}

impl Status {
    ghost use Rattle.std.specs.Prelude.{◌≡◌};
    ghost use Rattle.clr_streams.specs.Codes.{code_of};

    /// The exit code of the program.
    pub fn code(&self) -> u8
        ensures { result ≡ code_of self.now }
    {
        match self {
            Status::Done => 0,
            Status::Usage => 2,
            Status::ReadFault => 3,
            Status::WriteFault => 4,
            Status::Memory => 5,
            Status::TooMuch => 6,
            Status::BadImage => 7,
        }
    }
}
