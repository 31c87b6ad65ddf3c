// The table of the fields of each kind of command, from which its reader and its writer are made.

/// What a field of an entry holds.
#[derive(Clone, Copy, Debug, PartialEq, Eq)]
pub enum FieldType {
    /// Eight bytes, the greatest place first.
    Number,
    /// A length in four bytes, and so many bytes of UTF-8.
    Words,
    /// A byte 0, or a byte 1 and a number.
    MaybeNumber,
    /// A byte 0, or a byte 1 and a text.
    MaybeWords,
    /// A byte that names the form of a function's settings, and the fields of that form.
    Settings,
    /// A byte 0 and the cause of a failure, or a byte 1 and a list of outputs: its length in four bytes, and
    /// for each output a byte that names its form, and the fields of that form.
    Outcome,
}

/// One kind of command: its number, and the types of its fields in order.
#[derive(Clone, Copy)]
pub struct Table<const N: usize> {
    pub kind: u8,
    pub fields: [FieldType; N],
}

// Each macro hands its table to the macro of that name, with the arguments that stand behind the name.
macro_rules! make_queue {
    ($with:ident $($args:tt)*) => { $with!([$($args)*] 1 MakeQueue { 1 queue: Words }) };
}

macro_rules! put {
    ($with:ident $($args:tt)*) => {
        $with!([$($args)*] 2 Put { 1 queue: Words, 2 delay: Number, 3 ttl: MaybeNumber, 4 text: Words })
    };
}

macro_rules! take {
    ($with:ident $($args:tt)*) => {
        $with!([$($args)*] 3 Take { 1 queue: Words, 2 count: Number, 3 hold: Number })
    };
}

macro_rules! update {
    ($with:ident $($args:tt)*) => {
        $with!([$($args)*] 4 Update {
            1 queue: Words, 2 number: Number, 3 receipt: Number, 4 hold: Number, 5 text: MaybeWords
        })
    };
}

macro_rules! delete {
    ($with:ident $($args:tt)*) => {
        $with!([$($args)*] 5 Delete { 1 queue: Words, 2 number: Number, 3 receipt: Number })
    };
}

macro_rules! clear {
    ($with:ident $($args:tt)*) => { $with!([$($args)*] 6 Clear { 1 queue: Words }) };
}

macro_rules! put_blob {
    ($with:ident $($args:tt)*) => {
        $with!([$($args)*] 7 PutBlob { 1 container: Words, 2 blob: Words, 3 text: Words })
    };
}

macro_rules! delete_blob {
    ($with:ident $($args:tt)*) => { $with!([$($args)*] 8 DeleteBlob { 1 container: Words, 2 blob: Words }) };
}

macro_rules! note {
    ($with:ident $($args:tt)*) => {
        $with!([$($args)*] 9 Note { 1 function: Words, 2 container: Words, 3 blob: Words })
    };
}

macro_rules! acquire {
    ($with:ident $($args:tt)*) => {
        $with!([$($args)*] 10 Acquire { 1 lease: Words, 2 holder: Number, 3 seconds: Number })
    };
}

macro_rules! renew_lease {
    ($with:ident $($args:tt)*) => { $with!([$($args)*] 11 RenewLease { 1 lease: Words, 2 holder: Number }) };
}

macro_rules! release_lease {
    ($with:ident $($args:tt)*) => { $with!([$($args)*] 12 ReleaseLease { 1 lease: Words, 2 holder: Number }) };
}

macro_rules! configure {
    ($with:ident $($args:tt)*) => { $with!([$($args)*] 13 Configure { 1 function: Words, 2 settings: Settings }) };
}

macro_rules! session {
    ($with:ident $($args:tt)*) => { $with!([$($args)*] 14 Session {}) };
}

macro_rules! arm {
    ($with:ident $($args:tt)*) => { $with!([$($args)*] 15 Arm { 1 function: Words }) };
}

macro_rules! tick {
    ($with:ident $($args:tt)*) => { $with!([$($args)*] 16 Tick { 1 function: Words }) };
}

macro_rules! fetch {
    ($with:ident $($args:tt)*) => { $with!([$($args)*] 17 Fetch { 1 function: Words }) };
}

macro_rules! begin {
    ($with:ident $($args:tt)*) => { $with!([$($args)*] 18 Begin { 1 function: Words, 2 high: Number, 3 low: Number }) };
}

macro_rules! finish {
    ($with:ident $($args:tt)*) => { $with!([$($args)*] 19 Finish { 1 invocation: Number, 2 outcome: Outcome }) };
}

macro_rules! renewals {
    ($with:ident $($args:tt)*) => { $with!([$($args)*] 20 Renewals {}) };
}

macro_rules! peek {
    ($with:ident $($args:tt)*) => { $with!([$($args)*] 21 Peek { 1 queue: Words, 2 count: Number }) };
}

macro_rules! get_blob {
    ($with:ident $($args:tt)*) => { $with!([$($args)*] 22 GetBlob { 1 container: Words, 2 blob: Words }) };
}

macro_rules! locate {
    ($with:ident $($args:tt)*) => { $with!([$($args)*] 23 Locate { 1 number: Number }) };
}

macro_rules! unnoted {
    ($with:ident $($args:tt)*) => { $with!([$($args)*] 24 Unnoted { 1 function: Words, 2 container: Words }) };
}

// The forms of a function's settings. Their fields have the number of the field of the command that holds them.
macro_rules! queue_settings {
    ($with:ident $($args:tt)*) => {
        $with!([$($args)*] 1 Queue {
            2 queue: Words, 2 batch: Number, 2 threshold: Number, 2 limit: Number, 2 retry: Number, 2 singleton: Number
        })
    };
}

macro_rules! blob_settings {
    ($with:ident $($args:tt)*) => {
        $with!([$($args)*] 2 Blob {
            2 batch: Number, 2 threshold: Number, 2 limit: Number, 2 retry: Number, 2 singleton: Number
        })
    };
}

macro_rules! timer_settings {
    ($with:ident $($args:tt)*) => {
        $with!([$($args)*] 3 Timer { 2 masks: Masks, 2 startup: Flag, 2 monitor: Flag, 2 singleton: Number })
    };
}

// The forms of an output of an invocation. Their fields have the number of the field of the command that holds
// the outcome.
macro_rules! queue_output {
    ($with:ident $($args:tt)*) => { $with!([$($args)*] 1 Queue { 2 queue: Words, 2 text: Words }) };
}

macro_rules! blob_output {
    ($with:ident $($args:tt)*) => {
        $with!([$($args)*] 2 Blob { 2 container: Words, 2 blob: Words, 2 text: Words })
    };
}

// Hands the table of a command's kind to the macro of that name, as above.
macro_rules! of_command {
    ($command:ident $with:ident $($args:tt)*) => {
        match $command {
            Command::MakeQueue { .. } => make_queue!($with $($args)*),
            Command::Put { .. } => put!($with $($args)*),
            Command::Take { .. } => take!($with $($args)*),
            Command::Update { .. } => update!($with $($args)*),
            Command::Delete { .. } => delete!($with $($args)*),
            Command::Clear { .. } => clear!($with $($args)*),
            Command::PutBlob { .. } => put_blob!($with $($args)*),
            Command::DeleteBlob { .. } => delete_blob!($with $($args)*),
            Command::Note { .. } => note!($with $($args)*),
            Command::Acquire { .. } => acquire!($with $($args)*),
            Command::RenewLease { .. } => renew_lease!($with $($args)*),
            Command::ReleaseLease { .. } => release_lease!($with $($args)*),
            Command::Configure { .. } => configure!($with $($args)*),
            Command::Session { .. } => session!($with $($args)*),
            Command::Arm { .. } => arm!($with $($args)*),
            Command::Tick { .. } => tick!($with $($args)*),
            Command::Fetch { .. } => fetch!($with $($args)*),
            Command::Begin { .. } => begin!($with $($args)*),
            Command::Finish { .. } => finish!($with $($args)*),
            Command::Renewals { .. } => renewals!($with $($args)*),
            Command::Peek { .. } => peek!($with $($args)*),
            Command::GetBlob { .. } => get_blob!($with $($args)*),
            Command::Locate { .. } => locate!($with $($args)*),
            Command::Unnoted { .. } => unnoted!($with $($args)*),
        }
    };
}

// Hands the table of the form of settings to the macro of that name, as above.
macro_rules! of_settings {
    ($settings:ident $with:ident $($args:tt)*) => {
        match $settings {
            FunctionSettings::Queue { .. } => queue_settings!($with $($args)*),
            FunctionSettings::Blob { .. } => blob_settings!($with $($args)*),
            FunctionSettings::Timer { .. } => timer_settings!($with $($args)*),
        }
    };
}

// Hands the table of the form of an output to the macro of that name, as above.
macro_rules! of_output {
    ($output:ident $with:ident $($args:tt)*) => {
        match $output {
            Output::Queue { .. } => queue_output!($with $($args)*),
            Output::Blob { .. } => blob_output!($with $($args)*),
        }
    };
}

macro_rules! kind {
    ([] $kind:literal $variant:ident { $($field:literal $name:ident: $type:ident),* }) => { $kind };
}

pub(crate) use acquire;
pub(crate) use arm;
pub(crate) use begin;
pub(crate) use blob_output;
pub(crate) use blob_settings;
pub(crate) use clear;
pub(crate) use configure;
pub(crate) use delete;
pub(crate) use delete_blob;
pub(crate) use fetch;
pub(crate) use finish;
pub(crate) use get_blob;
pub(crate) use kind;
pub(crate) use locate;
pub(crate) use make_queue;
pub(crate) use note;
pub(crate) use of_command;
pub(crate) use of_output;
pub(crate) use of_settings;
pub(crate) use peek;
pub(crate) use put;
pub(crate) use put_blob;
pub(crate) use queue_output;
pub(crate) use queue_settings;
pub(crate) use release_lease;
pub(crate) use renew_lease;
pub(crate) use renewals;
pub(crate) use session;
pub(crate) use take;
pub(crate) use tick;
pub(crate) use timer_settings;
pub(crate) use unnoted;
pub(crate) use update;

macro_rules! table {
    ([] $kind:literal $variant:ident { $($field:literal $name:ident: $type:ident),* }) => {
        Table { kind: $kind, fields: [$(FieldType::$type),*] }
    };
}

pub const MAKE_QUEUE: Table<1> = make_queue!(table);

pub const PUT: Table<4> = put!(table);

pub const TAKE: Table<3> = take!(table);

pub const UPDATE: Table<5> = update!(table);

pub const DELETE: Table<3> = delete!(table);

pub const CLEAR: Table<1> = clear!(table);

pub const PUT_BLOB: Table<3> = put_blob!(table);

pub const DELETE_BLOB: Table<2> = delete_blob!(table);

pub const NOTE: Table<3> = note!(table);

pub const ACQUIRE: Table<3> = acquire!(table);

pub const RENEW_LEASE: Table<2> = renew_lease!(table);

pub const RELEASE_LEASE: Table<2> = release_lease!(table);

pub const CONFIGURE: Table<2> = configure!(table);

pub const SESSION: Table<0> = session!(table);

pub const ARM: Table<1> = arm!(table);

pub const TICK: Table<1> = tick!(table);

pub const FETCH: Table<1> = fetch!(table);

pub const BEGIN: Table<3> = begin!(table);

pub const FINISH: Table<2> = finish!(table);

pub const RENEWALS: Table<0> = renewals!(table);

pub const PEEK: Table<2> = peek!(table);

pub const GET_BLOB: Table<2> = get_blob!(table);

pub const LOCATE: Table<1> = locate!(table);

pub const UNNOTED: Table<2> = unnoted!(table);
