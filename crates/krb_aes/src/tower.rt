// The S-box on 16 lanes, by look-ups in tables of 16 bytes: a byte is k + i * s over the field of 16
// elements, where its inverse needs few of them. Between rounds, bytes are kept as 16 * i + k.
// docs/TOWER.md says where the tables come from.

ghost use Rattle.std.specs.Prelude.{◌≡◌, map, bit_xor};
ghost use Rattle.std.specs.Simd.Lanes.{zip2};
ghost use Rattle.krb_aes.specs.Field.{product};
ghost use Rattle.krb_aes.specs.SBox.{s_box};
ghost use Rattle.krb_aes.specs.Inner.Tower.{ArePlaces, LanesBelow, looked_up, by_nibbles, io_of, jo_of, io_at, jo_at, read_from, substituted_of, tower_form, inv_form, inv_by_09, inv_by_0b, inv_by_0d, inv_by_0e};
ghost use Rattle.krb_aes.specs.declared.tower.TheConstants.{ONCE_IO, ONCE_JO, THRICE_IO, THRICE_JO, INV_SUB_IO, INV_SUB_JO, INV_04_IO, INV_04_JO, INV_01_IO, INV_01_JO, INV_THRICE_LOW, INV_THRICE_HIGH};

use std::simd::prelude::*;

static INVERSES: [u8; 16] = [
    0x80, 0x01, 0x09, 0x0e, 0x0d, 0x0b, 0x07, 0x06, 0x0f, 0x02, 0x0c, 0x05, 0x0a, 0x04, 0x03, 0x08,
];

static A_OVER: [u8; 16] = [
    0x80, 0x02, 0x01, 0x0f, 0x09, 0x05, 0x0e, 0x0c, 0x0d, 0x04, 0x0b, 0x0a, 0x07, 0x08, 0x06, 0x03,
];

static TOWER_LOW: [u8; 16] = [
    0x00, 0x01, 0x1c, 0x1d, 0x2d, 0x2c, 0x31, 0x30, 0x27, 0x26, 0x3b, 0x3a, 0x0a, 0x0b, 0x16, 0x17,
];

static TOWER_HIGH: [u8; 16] = [
    0x00, 0x86, 0xfd, 0x7b, 0x8e, 0x08, 0x73, 0xf5, 0x77, 0xf1, 0x8a, 0x0c, 0xf9, 0x7f, 0x04, 0x82,
];

static SUB_IO: [u8; 16] = [
    0x00, 0xcb, 0xd7, 0xb0, 0x21, 0x8d, 0x67, 0xac, 0x7b, 0x5a, 0xea, 0x3d, 0x46, 0xf6, 0x91, 0x1c,
];

static SUB_JO: [u8; 16] = [
    0x00, 0x9f, 0x61, 0x16, 0xc2, 0x2a, 0x77, 0xe8, 0x89, 0x4b, 0x5d, 0x3c, 0xb5, 0xa3, 0xd4, 0xfe,
];

static ONCE_IO: [u8; 16] = [
    0x00, 0xc3, 0x4f, 0x0c, 0xfc, 0x7c, 0x43, 0x80, 0xcf, 0x33, 0x3f, 0x70, 0xbf, 0xb3, 0xf0, 0x8c,
];

static ONCE_JO: [u8; 16] = [
    0x00, 0xe6, 0x72, 0xb7, 0xe5, 0xc6, 0xc5, 0x23, 0x51, 0xb4, 0x03, 0x71, 0x20, 0x97, 0x52, 0x94,
];

static THRICE_IO: [u8; 16] = [
    0x00, 0xbf, 0x6f, 0xc3, 0x6e, 0x7d, 0xac, 0x13, 0x7c, 0x12, 0xd1, 0xbe, 0xc2, 0x01, 0xad, 0xd0,
];

static THRICE_JO: [u8; 16] = [
    0x00, 0x37, 0x97, 0x40, 0x03, 0xe3, 0xd7, 0xe0, 0x77, 0x74, 0x34, 0xa3, 0xd4, 0x94, 0x43, 0xa0,
];

static INV_FORM_LOW: [u8; 16] = [
    0x2c, 0x99, 0xf0, 0x45, 0xf7, 0x42, 0x2b, 0x9e, 0x38, 0x8d, 0xe4, 0x51, 0xe3, 0x56, 0x3f, 0x8a,
];

static INV_FORM_HIGH: [u8; 16] = [
    0x00, 0xa7, 0xa8, 0x0f, 0xed, 0x4a, 0x45, 0xe2, 0xd1, 0x76, 0x79, 0xde, 0x3c, 0x9b, 0x94, 0x33,
];

static INV_SUB_IO: [u8; 16] = [
    0x00, 0x3b, 0xe4, 0xc8, 0x03, 0x14, 0x2c, 0x17, 0xf3, 0xf0, 0x38, 0xdc, 0x2f, 0xe7, 0xcb, 0xdf,
];

static INV_SUB_JO: [u8; 16] = [
    0x00, 0x24, 0x91, 0x19, 0x23, 0x8f, 0x88, 0xac, 0x3d, 0x1e, 0x07, 0x96, 0xab, 0xb2, 0x3a, 0xb5,
];

static INV_09_IO: [u8; 16] = [
    0x00, 0x27, 0xbf, 0x47, 0xda, 0x05, 0xf8, 0xdf, 0x60, 0xba, 0xfd, 0x42, 0x22, 0x65, 0x9d, 0x98,
];

static INV_09_JO: [u8; 16] = [
    0x00, 0x01, 0x8c, 0x2e, 0xa8, 0x0b, 0xa2, 0xa3, 0x2f, 0x87, 0xa9, 0x25, 0x0a, 0x24, 0x86, 0x8d,
];

static INV_04_IO: [u8; 16] = [
    0x00, 0x5b, 0xa4, 0x7a, 0xcf, 0x4a, 0xde, 0x85, 0x21, 0xee, 0x94, 0x30, 0x11, 0x6b, 0xb5, 0xff,
];

static INV_04_JO: [u8; 16] = [
    0x00, 0x76, 0x3e, 0x9e, 0x1e, 0xc8, 0xa0, 0xd6, 0xe8, 0xf6, 0x68, 0x56, 0xbe, 0x20, 0x80, 0x48,
];

static INV_02_IO: [u8; 16] = [
    0x00, 0xe5, 0xf2, 0xac, 0x07, 0xbc, 0x5e, 0xbb, 0x49, 0x4e, 0xe2, 0x10, 0x59, 0xf5, 0xab, 0x17,
];

static INV_02_JO: [u8; 16] = [
    0x00, 0xf9, 0xae, 0xd3, 0xea, 0x6e, 0x7d, 0x84, 0x2a, 0xc0, 0x13, 0xbd, 0x97, 0x44, 0x39, 0x57,
];

static INV_01_IO: [u8; 16] = [
    0x00, 0x72, 0x4f, 0x28, 0x69, 0x7c, 0x67, 0x15, 0x5a, 0x33, 0x1b, 0x54, 0x0e, 0x26, 0x41, 0x3d,
];

static INV_01_JO: [u8; 16] = [
    0x00, 0x73, 0xc3, 0x06, 0xc1, 0x77, 0xc5, 0xb6, 0x75, 0xb4, 0xb2, 0x71, 0x04, 0x02, 0xc7, 0xb0,
];

static INV_THRICE_LOW: [u8; 16] = [
    0x00, 0x1d, 0x46, 0x5b, 0x93, 0x8e, 0xd5, 0xc8, 0x82, 0x9f, 0xc4, 0xd9, 0x11, 0x0c, 0x57, 0x4a,
];

static INV_THRICE_HIGH: [u8; 16] = [
    0x00, 0x20, 0x06, 0x26, 0xf7, 0xd7, 0xf1, 0xd1, 0xc1, 0xe1, 0xc7, 0xe7, 0x36, 0x16, 0x30, 0x10,
];

static TIMES_0E_LOW: [u8; 16] = [
    0x00, 0x0e, 0x1c, 0x12, 0x38, 0x36, 0x24, 0x2a, 0x70, 0x7e, 0x6c, 0x62, 0x48, 0x46, 0x54, 0x5a,
];

static TIMES_0E_HIGH: [u8; 16] = [
    0x00, 0xe0, 0xdb, 0x3b, 0xad, 0x4d, 0x76, 0x96, 0x41, 0xa1, 0x9a, 0x7a, 0xec, 0x0c, 0x37, 0xd7,
];

static TIMES_0B_LOW: [u8; 16] = [
    0x00, 0x0b, 0x16, 0x1d, 0x2c, 0x27, 0x3a, 0x31, 0x58, 0x53, 0x4e, 0x45, 0x74, 0x7f, 0x62, 0x69,
];

static TIMES_0B_HIGH: [u8; 16] = [
    0x00, 0xb0, 0x7b, 0xcb, 0xf6, 0x46, 0x8d, 0x3d, 0xf7, 0x47, 0x8c, 0x3c, 0x01, 0xb1, 0x7a, 0xca,
];

static TIMES_0D_LOW: [u8; 16] = [
    0x00, 0x0d, 0x1a, 0x17, 0x34, 0x39, 0x2e, 0x23, 0x68, 0x65, 0x72, 0x7f, 0x5c, 0x51, 0x46, 0x4b,
];

static TIMES_0D_HIGH: [u8; 16] = [
    0x00, 0xd0, 0xbb, 0x6b, 0x6d, 0xbd, 0xd6, 0x06, 0xda, 0x0a, 0x61, 0xb1, 0xb7, 0x67, 0x0c, 0xdc,
];

static TIMES_09_LOW: [u8; 16] = [
    0x00, 0x09, 0x12, 0x1b, 0x24, 0x2d, 0x36, 0x3f, 0x48, 0x41, 0x5a, 0x53, 0x6c, 0x65, 0x7e, 0x77,
];

static TIMES_09_HIGH: [u8; 16] = [
    0x00, 0x90, 0x3b, 0xab, 0x76, 0xe6, 0x4d, 0xdd, 0xec, 0x7c, 0xd7, 0x47, 0x9a, 0x0a, 0xa1, 0x31,
];

// The entry at each lane's place, or 0 if the place is 128 or above.
#[inline(always)]
pub(crate) fn looked_up(table: &[u8; 16], places: u8x16) -> u8x16
    requires { ArePlaces places }
    ensures { result ≡ map (looked_up table.now) places }
{
    u8x16::from_array(*table).swizzle_dyn(places)
}

// The sum of an entry for each byte's low half and one for its high half.
#[inline(always)]
fn by_nibbles(low: &[u8; 16], high: &[u8; 16], bytes: u8x16) -> u8x16
    ensures { result ≡ map (by_nibbles low.now high.now) bytes }
{
    looked_up(low, bytes & u8x16::splat(0x0f)) ^ looked_up(high, bytes >> u8x16::splat(4))
}

// The two values from which the inverse of k + i * s is read.
#[inline(always)]
fn inverted(i: u8x16, k: u8x16) -> (u8x16, u8x16)
    requires i { LanesBelow 16 i }
    requires k { LanesBelow 16 k }
    ensures io { result.0 ≡ zip2 io_of i k }
    ensures jo { result.1 ≡ zip2 jo_of i k }
{
    let j = i ^ k;
    let a_over_k = looked_up(&A_OVER, k);
    let io = looked_up(&INVERSES, looked_up(&INVERSES, i) ^ a_over_k) ^ j;
    let jo = looked_up(&INVERSES, looked_up(&INVERSES, j) ^ a_over_k) ^ i;
    (io, jo)
}

// Each byte in the form that encryption keeps: as 16 * i + k.
#[inline(always)]
pub(crate) fn formed(bytes: u8x16) -> u8x16
    ensures { result ≡ map tower_form bytes }
{
    by_nibbles(&TOWER_LOW, &TOWER_HIGH, bytes)
}

// Each byte in the form that decryption keeps: as 16 * i + k, with the affine transformation undone.
#[inline(always)]
pub(crate) fn inv_formed(bytes: u8x16) -> u8x16
    ensures { result ≡ map inv_form bytes }
{
    by_nibbles(&INV_FORM_LOW, &INV_FORM_HIGH, bytes)
}

// The two values from which the inverse of each k + i * s is read, where a lane is 16 * i + k.
#[inline(always)]
fn inverted_form(form: u8x16) -> (u8x16, u8x16)
    ensures io { result.0 ≡ map io_at form }
    ensures jo { result.1 ≡ map jo_at form }
    ensures io_places { ArePlaces result.0 }
    ensures jo_places { ArePlaces result.1 }
{
    inverted(form >> u8x16::splat(4), form & u8x16::splat(0x0f))
}

// The sum of what two tables have at these two values.
#[inline(always)]
fn read(io_table: &[u8; 16], jo_table: &[u8; 16], values: (u8x16, u8x16)) -> u8x16
    requires io { ArePlaces values.0 }
    requires jo { ArePlaces values.1 }
    ensures { result ≡ zip2 bit_xor (map (looked_up io_table.now) values.0) (map (looked_up jo_table.now) values.1) }
{
    looked_up(io_table, values.0) ^ looked_up(jo_table, values.1)
}

// SBox of each byte in the form that encryption keeps.
#[inline(always)]
pub(crate) fn substituted_form(form: u8x16) -> u8x16
    ensures { result ≡ map substituted_of form }
{
    read(&SUB_IO, &SUB_JO, inverted_form(form)) ^ u8x16::splat(0x63)
}

// SBox of each byte.
#[inline(always)]
pub(crate) fn substituted(bytes: u8x16) -> u8x16
    ensures { result ≡ map s_box bytes }
{
    substituted_form(formed(bytes))
}

// SBox of each byte in the form that encryption keeps, without the constant 63, and 03 times that: both in this form.
#[inline(always)]
pub(crate) fn products(form: u8x16) -> (u8x16, u8x16)
    ensures once { result.0 ≡ map (read_from ONCE_IO ONCE_JO) form }
    ensures tripled { result.1 ≡ map (read_from THRICE_IO THRICE_JO) form }
{
    let values = inverted_form(form);
    (
        read(&ONCE_IO, &ONCE_JO, values),
        read(&THRICE_IO, &THRICE_JO, values),
    )
}

// InvSBox of each byte in the form that decryption keeps.
#[inline(always)]
pub(crate) fn inv_substituted(form: u8x16) -> u8x16
    ensures { result ≡ map (read_from INV_SUB_IO INV_SUB_JO) form }
{
    read(&INV_SUB_IO, &INV_SUB_JO, inverted_form(form))
}

// InvSBox of 16 bytes times the entries of InvMixColumns, in the form that decryption keeps but for its constant.
pub(crate) struct InvProducts {
    pub(crate) by_0e: u8x16,
    pub(crate) by_0b: u8x16,
    pub(crate) by_0d: u8x16,
    pub(crate) by_09: u8x16,
}

// By sums of four products. Of two look-ups that one permutation alone waits for, the compiler would permute each.
#[inline(always)]
pub(crate) fn inv_products(form: u8x16) -> InvProducts
    ensures by_0e { result.by_0e ≡ map inv_by_0e form }
    ensures by_0b { result.by_0b ≡ map inv_by_0b form }
    ensures by_0d { result.by_0d ≡ map inv_by_0d form }
    ensures by_09 { result.by_09 ≡ map inv_by_09 form }
{
    let values = inverted_form(form);
    let by_09 = read(&INV_09_IO, &INV_09_JO, values);
    let by_04 = read(&INV_04_IO, &INV_04_JO, values);
    let by_02 = read(&INV_02_IO, &INV_02_JO, values);
    let by_01 = read(&INV_01_IO, &INV_01_JO, values);
    let by_0d = by_09 ^ by_04;
    InvProducts {
        by_0e: by_0d ^ (by_02 ^ by_01),
        by_0b: by_09 ^ by_02,
        by_0d,
        by_09,
    }
}

// InvSBox of each byte in the form that decryption keeps, and 04 times that: both in this form but for its constant.
#[inline(always)]
pub(crate) fn inv_by_01_and_04(form: u8x16) -> (u8x16, u8x16)
    ensures by_01 { result.0 ≡ map (read_from INV_01_IO INV_01_JO) form }
    ensures by_04 { result.1 ≡ map (read_from INV_04_IO INV_04_JO) form }
{
    let values = inverted_form(form);
    (
        read(&INV_01_IO, &INV_01_JO, values),
        read(&INV_04_IO, &INV_04_JO, values),
    )
}

// 03 times each byte: both in the form that decryption keeps but for its constant.
#[inline(always)]
pub(crate) fn inv_thrice(form: u8x16) -> u8x16
    ensures { result ≡ map (by_nibbles INV_THRICE_LOW INV_THRICE_HIGH) form }
{
    by_nibbles(&INV_THRICE_LOW, &INV_THRICE_HIGH, form)
}

#[inline(always)]
pub(crate) fn times_0e(bytes: u8x16) -> u8x16
    ensures { result ≡ map (product 0x0e) bytes }
{
    by_nibbles(&TIMES_0E_LOW, &TIMES_0E_HIGH, bytes)
}

#[inline(always)]
pub(crate) fn times_0b(bytes: u8x16) -> u8x16
    ensures { result ≡ map (product 0x0b) bytes }
{
    by_nibbles(&TIMES_0B_LOW, &TIMES_0B_HIGH, bytes)
}

#[inline(always)]
pub(crate) fn times_0d(bytes: u8x16) -> u8x16
    ensures { result ≡ map (product 0x0d) bytes }
{
    by_nibbles(&TIMES_0D_LOW, &TIMES_0D_HIGH, bytes)
}

#[inline(always)]
pub(crate) fn times_09(bytes: u8x16) -> u8x16
    ensures { result ≡ map (product 0x09) bytes }
{
    by_nibbles(&TIMES_09_LOW, &TIMES_09_HIGH, bytes)
}
