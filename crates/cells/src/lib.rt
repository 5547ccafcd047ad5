// Key cells: the text form of a public key, 120 hexadecimal characters for its 60 bytes.
#![tactic(auto)]

ghost use Rattle.std.specs.Prelude.{◌≡◌, ◌<◌, true, false, MatchOption};
ghost use Rattle.octets.specs.Lists.{alike};
ghost use Rattle.cells.specs.Character.{class_of, is_hex, hex_value};
ghost use Rattle.cells.specs.Cell.{all_hex, read_bytes, hex_char, write_text, CellRead, CellWritten};
ghost use Rattle.cells.specs.Answer.{number_of, number_of_refusal};

/// The bytes of a public key.
pub const KEY: usize = 60;

/// The characters of its cell.
pub const CELL: usize = 2 * KEY;

/// Why a cell was not read or written. The output is untouched then.
#[derive(Clone, Copy, Debug, PartialEq, Eq)]
pub enum Refusal {
    /// Number 1: the output, or the key that is to be written, has another length.
    Length,
    /// Number 7: the cell is not of 120 characters.
    CellLength,
    /// Number 8: the cell has 120 characters, and one is no hexadecimal digit (0 to 9, a to f, A to F).
    Character,
}

impl From<Refusal> for u8 {
    ghost from_gives = { λ refusal n. n ≡ number_of_refusal refusal };

    fn from(refusal: Refusal) -> u8 {
        match refusal {
            Refusal::Length => 1,
            Refusal::CellLength => 7,
            Refusal::Character => 8,
        }
    }
}

/// The number of an answer: 0 where it is done, else the refusal's.
// mqom has one like it: the two crates know nothing of each other, and the enums are two.
pub fn number(answer: Result<(), Refusal>) -> u8
    ensures { result ≡ number_of answer }
{
    match answer {
        Ok(()) => 0,
        Err(refusal) => u8::from(refusal),
    }
}

// The classes of a character: 0 to 9, a to f, A to F, each with the digit's value, and anything else. Document 01 asks for four classes by
// a match over byte ranges: `to_digit` would do, and name none of them.
#[derive(Clone, Copy)]
enum Class {
    Digit(u8),
    Lower(u8),
    Upper(u8),
    Other,
}

#[tactic(auto, unfolding(crate::specs::Character::class_of, crate::specs::Character::between))]
fn class_of(c: u8) -> Class
    ensures { result ≡ class_of c }
{
    match c {
        b'0'..=b'9' => Class::Digit(c - b'0'),
        b'a'..=b'f' => Class::Lower(c - b'a' + 10),
        b'A'..=b'F' => Class::Upper(c - b'A' + 10),
        _ => Class::Other,
    }
}

// The value of a hexadecimal digit; of what is no digit there is none.
#[tactic(auto, unfolding(crate::specs::Character::is_hex, crate::specs::Character::hex_value))]
fn hex_value(c: u8) -> Option<u8>
    ensures { MatchOption result (is_hex c ≡ false) (λ v. (is_hex c ≡ true) × (v ≡ hex_value c)) }
{
    match class_of(c) {
        Class::Digit(v) | Class::Lower(v) | Class::Upper(v) => Some(v),
        Class::Other => None,
    }
}

// Byte i has character 2i as its high half and character 2i + 1 as its low half. By place, here and in write_text: two characters to a byte.
fn read_bytes(cell: &[u8; CELL]) -> Option<[u8; KEY]>
    ensures { MatchOption result (all_hex cell.now ≡ false) (λ key. (all_hex cell.now ≡ true) × (key ≡ read_bytes cell.now)) }
{
    let mut key = [0; KEY];
    for i in 0..KEY {
        let high = hex_value(cell[2 * i])?;
        let low = hex_value(cell[2 * i + 1])?;
        key[i] = high * 16 + low;
    }
    Some(key)
}

/// Reads a key cell.
///
/// `cell`: the characters of the cell, as they stand in the text. Nothing is cut off and nothing is filled up.
/// `out`: lent at 60 bytes. It holds the public key afterwards, and after a refusal it is untouched.
///
/// Of the refusals that apply, the one with the lowest number is given: `Length`, `CellLength`, `Character`.
///
/// It does not say whether the bytes are a key that key generation makes: 120 zeros are read as 60 zero bytes.
#[tactic(auto, unfolding(crate::specs::Cell::read_number, crate::specs::Cell::read_output))]
pub fn read_cell(cell: &[u8], out: &mut [u8]) -> Result<(), Refusal>
    ensures { CellRead cell.now out.old (number_of result) out.new }
{
    let out = out.as_mut_array::<KEY>().ok_or(Refusal::Length)?;
    let cell = cell.as_array::<CELL>().ok_or(Refusal::CellLength)?;
    *out = read_bytes(cell).ok_or(Refusal::Character)?;
    Ok(())
}

// A digit as its definition has it: 0 to 9, a to f.
#[tactic(auto, unfolding(crate::specs::Cell::hex_char))]
fn hex_char(v: u8) -> u8
    requires { v < 16 }
    ensures { result ≡ hex_char v }
{
    if v < 10 { b'0' + v } else { b'a' + (v - 10) }
}

fn write_text(key: &[u8; KEY], cell: &mut [u8; CELL])
    ensures { cell.new ≡ write_text key.now }
{
    for (i, &b) in key.iter().enumerate() {
        cell[2 * i] = hex_char(b / 16);
        cell[2 * i + 1] = hex_char(b % 16);
    }
}

/// Writes the key cell of a public key.
///
/// `key`: the 60 bytes of a public key, and any 60 bytes have a cell.
/// `out`: lent at 120 bytes. It holds the cell afterwards, in digits and a to f, two characters to a byte and the high half first.
/// After a refusal, which is `Length`, it is untouched.
#[tactic(auto, unfolding(crate::specs::Cell::write_number, crate::specs::Cell::write_output))]
pub fn write_cell(key: &[u8], out: &mut [u8]) -> Result<(), Refusal>
    ensures { CellWritten key.now out.old (number_of result) out.new }
{
    let key = key.as_array::<KEY>().ok_or(Refusal::Length)?;
    let out = out.as_mut_array::<CELL>().ok_or(Refusal::Length)?;
    write_text(key, out);
    Ok(())
}

/// Whether two cells name the same signer, which they do exactly when their texts are equal.
///
/// `a`, `b`: cells of any length, read and not judged: a text that is no key cell equals itself. A cell in upper case and one in lower
/// case are two texts, also where both are read as the same bytes.
pub fn same_signer(a: &[u8], b: &[u8]) -> bool
    ensures { result ≡ alike a.now b.now }
{
    octets::same(a, b)
}
