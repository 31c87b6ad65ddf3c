// That what is printed can be read.
ghost use Rattle.std.specs.Prelude.{◌≡◌, ◌∷◌, [], Ok};
ghost use Rattle.fh_event.specs.Lines.{escaped};
ghost use Rattle.fh_script.specs.Forms.{text_of};
ghost use Rattle.fh_script.specs.Words.{words};

/// A text that an answer prints is one word of a line, and is read as the same text.
pub fn printed_texts_are_read(text: &str)
    ensures word { words (escaped text.now) ≡ escaped text.now ∷ [] }
    ensures text { text_of (escaped text.now) ≡ Ok text.now }
{
    let _bytes = text.as_bytes();
}
