// What the fields of a head say of the body behind it.
ghost use Rattle.std.specs.Prelude.{◌≡◌, All, length, map};
ghost use Rattle.std.specs.List.{list_all};
ghost use Rattle.std.specs.Char.{is_ascii};
ghost use Rattle.std.specs.Str.{str_eq_ignore_ascii_case};
ghost use Rattle.httparse.specs.Spans.{IsHeaderWithin, header_bytes};
ghost use Rattle.fh_wire.specs.Fields.{plain, noted, framing, stated, kind_of, agree};

use crate::fault::WireFault;
use fh_base::read_number;
use httparse::spans::HeaderSpan;

/// What a field is to the body.
#[derive(Clone, Copy, Debug, PartialEq, Eq)]
pub(crate) enum FieldKind {
    TransferEncoding,
    ContentEncoding,
    ContentLength,
    Other,
}

/// What the fields say together.
#[derive(Clone, Copy, Debug, PartialEq, Eq)]
pub(crate) struct Framing {
    /// A field that is needed has a byte from 128 on.
    pub wide: bool,
    pub chunked: bool,
    /// The body is coded in a way other than `identity`.
    pub coded: bool,
    /// A length isn't 1 to 15 digits, or two differ.
    pub unread: bool,
    pub length: Option<u64>,
}

impl Framing {
    /// No field was seen.
    const PLAIN: Framing = Framing {
        wide: false,
        chunked: false,
        coded: false,
        unread: false,
        length: None,
    };

    pub(crate) fn of(text: &[u8], fields: &[HeaderSpan]) -> Framing
        requires { All (IsHeaderWithin (length text.now)) fields.now }
        ensures { result ≡ framing (map (header_bytes text.now) fields.now) }
    {
        let mut framing = Framing::PLAIN;
        for field in fields {
            framing = framing.note(field.name.of(text), field.value.of(text));
        }
        framing
    }

    fn note(self, name: &[u8], value: &[u8]) -> Framing
        ensures { result ≡ noted self (name.now, value.now) }
    {
        let kind = kind_of(name);
        if kind == FieldKind::Other {
            return self;
        }
        let wide = self.wide || !is_ascii(value);
        match kind {
            FieldKind::TransferEncoding => Framing {
                wide,
                chunked: true,
                ..self
            },
            FieldKind::ContentEncoding => Framing {
                wide,
                coded: self.coded || !is_named(b"identity", value),
                ..self
            },
            FieldKind::ContentLength => {
                let length = read_number(value);
                Framing {
                    wide,
                    unread: self.unread || !agree(self.length, length),
                    length,
                    ..self
                }
            }
            FieldKind::Other => self,
        }
    }

    /// The length of the body where one is stated, or the first fault.
    pub(crate) fn stated(self) -> Result<Option<u64>, WireFault>
        ensures { result ≡ stated self }
    {
        if self.wide {
            return Err(WireFault::BadHead);
        }
        if self.chunked {
            return Err(WireFault::Chunked);
        }
        if self.coded {
            return Err(WireFault::Coded);
        }
        if self.unread {
            return Err(WireFault::BadLength);
        }
        Ok(self.length)
    }
}

#[tactic(auto, unfolding(crate::specs::Fields::kind_of))]
fn kind_of(name: &[u8]) -> FieldKind
    ensures { result ≡ kind_of name.now }
{
    if is_named(b"transfer-encoding", name) {
        return FieldKind::TransferEncoding;
    }
    if is_named(b"content-encoding", name) {
        return FieldKind::ContentEncoding;
    }
    if is_named(b"content-length", name) {
        return FieldKind::ContentLength;
    }
    FieldKind::Other
}

// Whether the word is this name, without regard to case.
fn is_named(name: &[u8], word: &[u8]) -> bool
    ensures { result ≡ str_eq_ignore_ascii_case name.now word.now }
{
    name.eq_ignore_ascii_case(word)
}

fn is_ascii(value: &[u8]) -> bool
    ensures { result ≡ list_all is_ascii value.now }
{
    value.iter().all(|b| b.is_ascii())
}

// Whether a length is there that a length before doesn't gainsay.
fn agree(before: Option<u64>, length: Option<u64>) -> bool
    ensures { result ≡ agree before length }
{
    match (before, length) {
        (_, None) => false,
        (None, Some(_)) => true,
        (Some(first), Some(second)) => first == second,
    }
}
