// The elementary types: a type more is a row more in each of the tables of this file, and in those of `specs/Types.antt`.
ghost use Rattle.std.specs.Prelude.{◌≡◌, ◌<◌, ◌≤◌};
ghost use Rattle.plc_types.specs.Types.{elementary_types, type_name, type_among, type_named, width_of, is_signed, is_integer};

/// An elementary type (IEC 61131-3, 2.3.1). Bit strings are read as unsigned numbers.
#[derive(Clone, Copy, PartialEq, Eq)]
pub enum Elementary {
    Bool,
    Sint,
    Int,
    Dint,
    Lint,
    Usint,
    Uint,
    Udint,
    Ulint,
    Byte,
    Word,
    Dword,
    Lword,
}

static ELEMENTARY_TYPES: [Elementary; 13] = [
    Elementary::Bool,
    Elementary::Sint,
    Elementary::Int,
    Elementary::Dint,
    Elementary::Lint,
    Elementary::Usint,
    Elementary::Uint,
    Elementary::Udint,
    Elementary::Ulint,
    Elementary::Byte,
    Elementary::Word,
    Elementary::Dword,
    Elementary::Lword,
];

// The type of a name, among these.
fn type_among(types: &[Elementary], text: &[u8]) -> Option<Elementary>
    ensures { result ≡ type_among types.now text.now }
{
    for kind in types {
        if kind.name().as_bytes() == text {
            return Some(*kind);
        }
    }
    None
}

impl Elementary {
    /// All of them.
    pub fn all() -> &'static [Elementary]
        ensures { result.now ≡ elementary_types }
    {
        &ELEMENTARY_TYPES
    }

    /// The type of a name in upper case.
    pub fn named(text: &[u8]) -> Option<Elementary>
        ensures { result ≡ type_named text.now }
    {
        type_among(Elementary::all(), text)
    }

    /// The name that the standard gives it, in upper case.
    pub fn name(self) -> &'static str
        ensures { result.now ≡ type_name self }
    {
        match self {
            Elementary::Bool => "BOOL",
            Elementary::Sint => "SINT",
            Elementary::Int => "INT",
            Elementary::Dint => "DINT",
            Elementary::Lint => "LINT",
            Elementary::Usint => "USINT",
            Elementary::Uint => "UINT",
            Elementary::Udint => "UDINT",
            Elementary::Ulint => "ULINT",
            Elementary::Byte => "BYTE",
            Elementary::Word => "WORD",
            Elementary::Dword => "DWORD",
            Elementary::Lword => "LWORD",
        }
    }

    /// How many bits a value has.
    pub fn width(self) -> u32
        ensures width { result ≡ width_of self }
        ensures some_bits { 0 < result }
        ensures at_most_64_bits { result ≤ 64 }
    {
        match self {
            Elementary::Bool => 1,
            Elementary::Sint | Elementary::Usint | Elementary::Byte => 8,
            Elementary::Int | Elementary::Uint | Elementary::Word => 16,
            Elementary::Dint | Elementary::Udint | Elementary::Dword => 32,
            Elementary::Lint | Elementary::Ulint | Elementary::Lword => 64,
        }
    }

    /// Whether it is one of the integer types.
    pub fn is_integer(self) -> bool
        ensures { result ≡ is_integer self }
    {
        match self {
            Elementary::Sint | Elementary::Int | Elementary::Dint | Elementary::Lint => true,
            Elementary::Usint | Elementary::Uint | Elementary::Udint | Elementary::Ulint => true,
            Elementary::Bool
            | Elementary::Byte
            | Elementary::Word
            | Elementary::Dword
            | Elementary::Lword => false,
        }
    }

    /// Whether some values are below 0.
    pub fn is_signed(self) -> bool
        ensures { result ≡ is_signed self }
    {
        matches!(
            self,
            Elementary::Sint | Elementary::Int | Elementary::Dint | Elementary::Lint
        )
    }
}
