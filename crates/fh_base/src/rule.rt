// Why a command is refused.
ghost use Rattle.std.specs.Prelude.{◌≡◌};
ghost use Rattle.fh_base.specs.Rules.{rule_number, rule_name};

/// A rule that refused a command. A refused command changes nothing. Rules are numbered from 1 in the
/// order of the variants.
#[derive(Clone, Copy, Debug, PartialEq, Eq)]
pub enum Rule {
    /// The moment handed in is greater than the greatest one.
    MomentTooLate,
    /// A name breaks its grammar.
    BadName,
    /// A text, a list or an entry is longer than its limit.
    TooLarge { size: u64, limit: u64 },
    /// A number lies outside its range.
    OutOfRange { given: u64, low: u64, high: u64 },
    /// No function of that name has a trigger of the kind that the command needs.
    NoSuchFunction,
    QueueNotFound,
    BlobNotFound,
    /// No live message of that queue has that number.
    MessageNotFound,
    /// No running invocation has that number.
    NoSuchInvocation,
    /// The message has another receipt.
    PopReceiptMismatch { current: u64 },
    /// Another holder has the lease, until that moment.
    LeaseHeld { holder: u64, until: u64 },
    /// The lease's last holder is another, or 0 where there is none.
    LeaseMismatch { holder: u64 },
    /// So many messages are live already.
    StoreFull { live: u64 },
    /// The journal has that length and no room for the entry.
    JournalFull { length: u64 },
    /// The journal is of an older version, which has no such command.
    OldJournal { version: u16 },
    /// So many tokens are kept already.
    TokensFull { kept: u64 },
    /// A text is no rule of a time zone.
    BadZone,
}

impl Rule {
    pub fn number(&self) -> u8
        ensures { result ≡ rule_number self.now }
    {
        match self {
            Rule::MomentTooLate => 1,
            Rule::BadName => 2,
            Rule::TooLarge { .. } => 3,
            Rule::OutOfRange { .. } => 4,
            Rule::NoSuchFunction => 5,
            Rule::QueueNotFound => 6,
            Rule::BlobNotFound => 7,
            Rule::MessageNotFound => 8,
            Rule::NoSuchInvocation => 9,
            Rule::PopReceiptMismatch { .. } => 10,
            Rule::LeaseHeld { .. } => 11,
            Rule::LeaseMismatch { .. } => 12,
            Rule::StoreFull { .. } => 13,
            Rule::JournalFull { .. } => 14,
            Rule::OldJournal { .. } => 15,
            Rule::TokensFull { .. } => 16,
            Rule::BadZone => 17,
        }
    }

    /// The rule's name, as answers print it.
    pub fn name(&self) -> &'static str
        ensures { result.now ≡ rule_name self.now }
    {
        match self {
            Rule::MomentTooLate => "MomentTooLate",
            Rule::BadName => "BadName",
            Rule::TooLarge { .. } => "TooLarge",
            Rule::OutOfRange { .. } => "OutOfRange",
            Rule::NoSuchFunction => "NoSuchFunction",
            Rule::QueueNotFound => "QueueNotFound",
            Rule::BlobNotFound => "BlobNotFound",
            Rule::MessageNotFound => "MessageNotFound",
            Rule::NoSuchInvocation => "NoSuchInvocation",
            Rule::PopReceiptMismatch { .. } => "PopReceiptMismatch",
            Rule::LeaseHeld { .. } => "LeaseHeld",
            Rule::LeaseMismatch { .. } => "LeaseMismatch",
            Rule::StoreFull { .. } => "StoreFull",
            Rule::JournalFull { .. } => "JournalFull",
            Rule::OldJournal { .. } => "OldJournal",
            Rule::TokensFull { .. } => "TokensFull",
            Rule::BadZone => "BadZone",
        }
    }
}
