// A field of a record: 8 bytes, highest first, two's complement.
ghost use Rattle.std.specs.Prelude.{◌≡◌, ◌++◌, ◌≤◌, ◌<◌, length, drop, MatchOption};
ghost use Rattle.ints.specs.Digits.{digits};
ghost use Rattle.records.specs.Fields.{field_of, bits_of};

// The field that begins the bytes, and the bytes behind it.
#[tactic(auto, using(crate::proofs::FieldBytes::field_from_bytes))]
pub(crate) fn split_field(bytes: &[u8]) -> Option<(i64, &[u8])>
    ensures { MatchOption result (length bytes.now < 8) (λ p. (8 ≤ length bytes.now) × (p.0 ≡ field_of bytes.now) × (p.1.now ≡ drop 8 bytes.now)) }
{
    let (field, rest) = bytes.split_first_chunk()?;
    Some((i64::from_be_bytes(*field), rest))
}

// Stores the field of a number at the front.
#[tactic(auto, using(crate::proofs::FieldBytes::field_to_bytes))]
pub(crate) fn put_field(field: &mut [u8], number: i64)
    requires { 8 ≤ length field.old }
    ensures { field.new ≡ digits 256 8 (bits_of number) ++ drop 8 field.old }
{
    field[..8].copy_from_slice(&number.to_be_bytes());
}
