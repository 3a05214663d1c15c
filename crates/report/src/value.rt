ghost use Rattle.std.specs.Prelude.{◌≡◌, ℕ, List, length};
ghost use Rattle.report.specs.Fields.{one_byte, four_bytes, of_one_byte, of_four_bytes};
ghost use Rattle.std.proofs.Common.{rules};

/// The value of a field, as `N` bytes of a record, high byte first.
pub trait FieldValue<const N: usize>: Copy {
    ghost bytes_of: { Self → List ℕ };

    ghost value_of: { List ℕ → Self };

    fn to_bytes(self) -> [u8; N]
        ensures { result ≡ bytes_of self };

    fn from_bytes(bytes: &[u8; N]) -> Self
        ensures { result ≡ value_of bytes.now };

    ghost length_bytes: { (v : Self) → length (bytes_of v) ≡ N };

    ghost read_back: { (v : Self) → value_of (bytes_of v) ≡ v };
}

impl FieldValue<1> for u8 {
    ghost bytes_of = { one_byte };

    ghost value_of = { of_one_byte };

    ghost length_bytes = { Prim.search rules };

    ghost read_back = { Prim.search rules };

    fn to_bytes(self) -> [u8; 1] {
        [self]
    }

    fn from_bytes(bytes: &[u8; 1]) -> u8 {
        bytes[0]
    }
}

impl FieldValue<4> for u32 {
    ghost bytes_of = { four_bytes };

    ghost value_of = { of_four_bytes };

    ghost length_bytes = { Prim.search rules };

    ghost read_back = { Prim.search rules };

    fn to_bytes(self) -> [u8; 4] {
        self.to_be_bytes()
    }

    fn from_bytes(bytes: &[u8; 4]) -> u32 {
        u32::from_be_bytes(*bytes)
    }
}
