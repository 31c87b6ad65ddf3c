// What holds of entries whoever writes or reads them.
ghost use Rattle.std.specs.Prelude.{◌≡◌, ℕ, List, Ok};
ghost use Rattle.fh_event.specs.declared.command.Command.{Command};
ghost use Rattle.fh_event.specs.Kinds.{make_queue, put, take, update, delete, clear, put_blob, delete_blob, note, acquire, renew_lease, release_lease, configure, session, arm, tick, fetch, begin, finish, renewals, peek, get_blob, locate, unnoted, kind_number, types_of};
ghost use Rattle.fh_event.specs.Entries.{entry, IsEntry};
ghost use Rattle.fh_event.specs.Reading.{entry_read};

use crate::tables::{
    ACQUIRE, ARM, BEGIN, CLEAR, CONFIGURE, DELETE, DELETE_BLOB, FETCH, FINISH, GET_BLOB, LOCATE,
    MAKE_QUEUE, NOTE, PEEK, PUT, PUT_BLOB, RELEASE_LEASE, RENEW_LEASE, RENEWALS, SESSION, TAKE,
    TICK, UNNOTED, UPDATE,
};

/// Bytes are the entry of one moment and one command at most, and reading them gives these two. So what
/// `encode` wrote is what `decode` reads, and no second spelling is read.
#[tactic(auto, using(crate::proofs::EntryLaws::is_one_entry, crate::proofs::EntryLaws::read_again))]
pub fn entries_have_one_reading()
    ensures one { (bytes : List ℕ) (m n : ℕ) (c d : Command) → IsEntry bytes m c → IsEntry bytes n d
        → (m ≡ n) × (c ≡ d) }
    ensures read { (m : ℕ) (c : Command) → IsEntry (entry m c) m c → entry_read (entry m c) ≡ Ok (m, c) }
{}

/// The tables are those of the grammar.
pub fn tables_are_those_of_the_grammar()
    ensures make_queue { (MAKE_QUEUE.kind ≡ kind_number make_queue) × (MAKE_QUEUE.fields ≡ types_of make_queue) }
    ensures put { (PUT.kind ≡ kind_number put) × (PUT.fields ≡ types_of put) }
    ensures take { (TAKE.kind ≡ kind_number take) × (TAKE.fields ≡ types_of take) }
    ensures update { (UPDATE.kind ≡ kind_number update) × (UPDATE.fields ≡ types_of update) }
    ensures delete { (DELETE.kind ≡ kind_number delete) × (DELETE.fields ≡ types_of delete) }
    ensures clear { (CLEAR.kind ≡ kind_number clear) × (CLEAR.fields ≡ types_of clear) }
    ensures put_blob { (PUT_BLOB.kind ≡ kind_number put_blob) × (PUT_BLOB.fields ≡ types_of put_blob) }
    ensures delete_blob { (DELETE_BLOB.kind ≡ kind_number delete_blob) × (DELETE_BLOB.fields ≡ types_of delete_blob) }
    ensures note { (NOTE.kind ≡ kind_number note) × (NOTE.fields ≡ types_of note) }
    ensures acquire { (ACQUIRE.kind ≡ kind_number acquire) × (ACQUIRE.fields ≡ types_of acquire) }
    ensures renew_lease { (RENEW_LEASE.kind ≡ kind_number renew_lease) × (RENEW_LEASE.fields ≡ types_of renew_lease) }
    ensures release_lease { (RELEASE_LEASE.kind ≡ kind_number release_lease)
        × (RELEASE_LEASE.fields ≡ types_of release_lease) }
    ensures configure { (CONFIGURE.kind ≡ kind_number configure) × (CONFIGURE.fields ≡ types_of configure) }
    ensures session { (SESSION.kind ≡ kind_number session) × (SESSION.fields ≡ types_of session) }
    ensures arm { (ARM.kind ≡ kind_number arm) × (ARM.fields ≡ types_of arm) }
    ensures tick { (TICK.kind ≡ kind_number tick) × (TICK.fields ≡ types_of tick) }
    ensures fetch { (FETCH.kind ≡ kind_number fetch) × (FETCH.fields ≡ types_of fetch) }
    ensures begin { (BEGIN.kind ≡ kind_number begin) × (BEGIN.fields ≡ types_of begin) }
    ensures finish { (FINISH.kind ≡ kind_number finish) × (FINISH.fields ≡ types_of finish) }
    ensures renewals { (RENEWALS.kind ≡ kind_number renewals) × (RENEWALS.fields ≡ types_of renewals) }
    ensures peek { (PEEK.kind ≡ kind_number peek) × (PEEK.fields ≡ types_of peek) }
    ensures get_blob { (GET_BLOB.kind ≡ kind_number get_blob) × (GET_BLOB.fields ≡ types_of get_blob) }
    ensures locate { (LOCATE.kind ≡ kind_number locate) × (LOCATE.fields ≡ types_of locate) }
    ensures unnoted { (UNNOTED.kind ≡ kind_number unnoted) × (UNNOTED.fields ≡ types_of unnoted) }
{}
