//! Tab separated text.
ghost use Rattle.std.specs.Prelude.{◌≡◌, option_map};
ghost use Rattle.programs.specs.Cells.{tsv_escape};

/// Returns what is written for a byte in tab separated text, if not the byte itself.
pub fn tsv_escape(byte: u8) -> Option<&'static [u8]>
    ensures { option_map (λ escape. escape.now) result ≡ tsv_escape byte }
{
    match byte {
        b'\t' => Some(b"\\t"),
        b'\n' => Some(b"\\n"),
        b'\r' => Some(b"\\r"),
        b'\\' => Some(b"\\\\"),
        _ => None,
    }
}
