// The name of a blob.
ghost use Rattle.std.specs.Prelude.{◌≡◌, not};
ghost use Rattle.std.specs.List.{list_all};
ghost use Rattle.fh_base.specs.BlobNames.{is_barred, is_blob_name};

/// Whether the text is a blob's name: 1 to 1,024 bytes without control characters, `"` and `\`.
pub fn is_blob_name(text: &str) -> bool
    ensures { result ≡ is_blob_name text.now }
{
    !text.is_empty() && text.len() <= 1024 && bars_nothing(text.as_bytes())
}

fn bars_nothing(text: &[u8]) -> bool
    ensures { result ≡ list_all (λ c. not (is_barred c)) text.now }
{
    text.iter().all(|c| !is_barred(*c))
}

fn is_barred(c: u8) -> bool
    ensures { result ≡ is_barred c }
{
    c < 32 || c == 127 || c == b'"' || c == b'\\'
}
