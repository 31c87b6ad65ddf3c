// Where a head's lines end.
ghost use Rattle.std.specs.Prelude.{◌≡◌, ◌+◌, ◌<◌, ◌≤◌, ◌^◌, ◌-◌, length, true};
ghost use Rattle.std.specs.List.{fold};
ghost use Rattle.fh_wire.specs.Scan.{fresh, place_behind, ends_line, stepped};

/// The start line and 64 fields.
pub(crate) const MOST_LINES: u64 = 65;

/// Where the next byte stands.
#[derive(Clone, Copy, Debug, PartialEq, Eq)]
pub(crate) enum Place {
    /// Before the first line that isn't empty.
    Before,
    /// In a line that isn't empty.
    Inside,
    /// At the start of a line behind such a line.
    Start,
    /// Behind a carriage return that stands there.
    Returned,
    /// Behind the empty line that ends the head.
    Ended,
}

/// What has been seen of a head.
#[derive(Clone, Copy, Debug, PartialEq, Eq)]
pub(crate) struct Scan {
    pub place: Place,
    /// How many lines that aren't empty have ended.
    pub lines: u64,
    /// Whether the first of them has a byte from 128 on.
    pub wide: bool,
}

impl Place {
    fn behind(self, byte: u8) -> Place
        ensures { result ≡ place_behind self byte }
    {
        match (self, byte) {
            (Place::Before, b'\r' | b'\n') => Place::Before,
            (Place::Inside, b'\n') => Place::Start,
            (Place::Start | Place::Returned, b'\n') => Place::Ended,
            (Place::Start, b'\r') => Place::Returned,
            (Place::Ended, _) => Place::Ended,
            _ => Place::Inside,
        }
    }
}

impl Scan {
    /// Nothing has been seen.
    pub(crate) const FRESH: Scan = Scan {
        place: Place::Before,
        lines: 0,
        wide: false,
    };

    /// What has been seen of these bytes.
    pub(crate) fn of(bytes: &[u8]) -> Scan
        ensures { result ≡ fold stepped fresh bytes.now }
    {
        Scan::FRESH.onward(bytes)
    }

    /// The same with more bytes.
    pub(crate) fn onward(self, bytes: &[u8]) -> Scan
        requires { self.lines + length bytes.now < 2 ^ 64 }
        ensures seen { result ≡ fold stepped self bytes.now }
        ensures lines { result.lines ≤ self.lines + length bytes.now }
    {
        let mut scan = self;
        for byte in bytes {
            scan = scan.step(*byte);
        }
        scan
    }

    /// Whether it is clear by now what the bytes are: the head has ended, or it is refused.
    pub(crate) fn is_over(self) -> bool
        ensures { self.place ≡ Place.Ended → result ≡ true }
    {
        self.place == Place::Ended || self.lines > MOST_LINES || self.wide
    }

    fn step(self, byte: u8) -> Scan
        requires { self.lines < 2 ^ 64 - 1 }
        ensures { result ≡ stepped self byte }
    {
        let lines = if self.place == Place::Inside && byte == b'\n' {
            self.lines + 1
        } else {
            self.lines
        };
        Scan {
            place: self.place.behind(byte),
            lines,
            wide: self.wide || (self.lines == 0 && byte >= 128),
        }
    }
}
