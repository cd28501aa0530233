//! Laws over the definitions, for proofs to cite. Each function has an empty body: its contract is
//! the law.

ghost use Rattle.std.specs.Prelude.{◌≡◌, ◌<◌, ◌^◌, ℕ, length, FitsSigned};
ghost use Rattle.std.specs.Int.{w8, w16, w32};
ghost use Rattle.std.specs.List.{flat_map};
ghost use Rattle.krb_file.specs.Cursor.{times_at, bytes_at, number_at, signed_at, data_at, number_bytes, signed_bytes, data_bytes};
ghost use Rattle.krb_file.specs.Field.{IsField, AreDataOf};
ghost use Rattle.krb_file.specs.File.{file_limit};
ghost use Rattle.krb_file.specs.declared.file.TheConstants.{FILE_LIMIT};

/// States that so many bytes are read as they are spelled.
pub fn bytes_are_fields()
    ensures { (count : ℕ)
        → IsField (bytes_at count) (λ bytes. bytes) (λ bytes. length bytes ≡ count) }
{}

/// States that unsigned numbers are read as they are spelled, big-endian.
pub fn numbers_are_fields()
    ensures u8 { IsField (number_at w8) (number_bytes w8) (λ number. number < 2 ^ 8) }
    ensures u16 { IsField (number_at w16) (number_bytes w16) (λ number. number < 2 ^ 16) }
    ensures u32 { IsField (number_at w32) (number_bytes w32) (λ number. number < 2 ^ 32) }
{}

/// States that signed numbers are read as they are spelled, big-endian in two's complement.
pub fn signed_numbers_are_fields()
    ensures i16 { IsField (signed_at w16) (signed_bytes w16) (FitsSigned w16) }
    ensures i32 { IsField (signed_at w32) (signed_bytes w32) (FitsSigned w32) }
{}

/// States that bytes after their length are read as they are spelled.
pub fn data_are_fields()
    ensures data16 { IsField (data_at w16) (data_bytes w16) (λ bytes. length bytes < 2 ^ 16) }
    ensures data32 { IsField (data_at w32) (data_bytes w32) (λ bytes. length bytes < 2 ^ 32) }
{}

/// States that so many data after their lengths are read as they are spelled, one after another.
pub fn repeated_data_are_fields()
    ensures data16 { (count : ℕ) → IsField (times_at (data_at w16) count)
        (flat_map (data_bytes w16)) (AreDataOf count (2 ^ 16)) }
    ensures data32 { (count : ℕ) → IsField (times_at (data_at w32) count)
        (flat_map (data_bytes w32)) (AreDataOf count (2 ^ 32)) }
{}

/// States that `FILE_LIMIT` is the limit that the definitions of files use.
pub fn the_limit_is_one()
    ensures { FILE_LIMIT ≡ file_limit }
{}
