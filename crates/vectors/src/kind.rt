// The kind of a file, by the last component of its path, up to the first dot.
ghost use Rattle.std.specs.Prelude.{◌≤◌, length};

// What a file holds: what the shipped program reads, or cases of a kind.
#[derive(Clone, Copy, Debug, PartialEq, Eq)]
pub enum Kind {
    Main,
    Cases(Cases),
}

#[derive(Clone, Copy, Debug, PartialEq, Eq)]
pub enum Cases {
    Verdict,
    Compile,
    Windows,
    Supplier,
    Fresh,
    Advance,
    Run,
    Long,
}

// The last component of a path.
fn last(name: &[u8]) -> &[u8]
    ensures { length result.now ≤ length name.now }
{
    match name.iter().rposition(|b| *b == b'/') {
        Some(slash) => &name[slash + 1..],
        None => name,
    }
}

// A name up to its first dot.
fn stem(name: &[u8]) -> &[u8]
    ensures { length result.now ≤ length name.now }
{
    match name.iter().position(|b| *b == b'.') {
        Some(dot) => &name[..dot],
        None => name,
    }
}

// The kind of the file of this path, if there is such a kind.
pub fn of(name: &[u8]) -> Option<Kind> {
    match stem(last(name)) {
        b"main" => Some(Kind::Main),
        b"verdict" => Some(Kind::Cases(Cases::Verdict)),
        b"compile" => Some(Kind::Cases(Cases::Compile)),
        b"windows" => Some(Kind::Cases(Cases::Windows)),
        b"supplier" => Some(Kind::Cases(Cases::Supplier)),
        b"fresh" => Some(Kind::Cases(Cases::Fresh)),
        b"advance" => Some(Kind::Cases(Cases::Advance)),
        b"run" => Some(Kind::Cases(Cases::Run)),
        b"long" => Some(Kind::Cases(Cases::Long)),
        _ => None,
    }
}
