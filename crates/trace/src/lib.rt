// Reads the rows of a trace: a field, a number, a triple, a whole row, and the header.
// The rule is document 01, "The trace and its program" and "Refusal numbers"; specs/ says it.
#![tactic(auto)]

ghost use Rattle.std.specs.Prelude.{◌≡◌};
ghost use Rattle.trace.specs.Answers.{read_says, form_says, row_says};
ghost use Rattle.trace.specs.Numbers.{number_of, triple_of};
ghost use Rattle.trace.specs.Rows.{field_part, fields_of, fields_from, triples_of, form_of, read_row};
ghost use Rattle.trace.specs.Header.{header_text, same_text};

use refusals::Refusal;

// A row has at most so many bytes, without its line break.
pub const LONGEST_ROW: usize = 512;

// What a row bears beside its sample.
#[derive(Clone, Copy, PartialEq, Eq)]
pub struct Row {
    pub label: u32,
    pub stamp: u32,
}

// A row in form, with its sample.
#[derive(Clone, Copy)]
struct Form {
    row: Row,
    sample: [u8; 54],
}

// The field that starts at `at`: up to the next comma or the row's end.
pub fn field<'a>(row: &'a [u8], at: usize) -> &'a [u8]
    ensures { (result.ref_ptr, result.now) ≡ field_part row.entry.ref_ptr row.now at }
{
    let start = at.min(row.len());
    let end = spans::find(row, start, row.len(), b',');
    &row[start..end]
}

// A decimal number of 32 bits with no sign and no leading zero.
#[tactic(auto, using(crate::proofs::Digits::digits), unfolding(crate::specs::Numbers::number_of))]
pub fn read_number(field: &[u8]) -> Option<u32>
    ensures { read_says result ≡ number_of field.now }
{
    if field.is_empty() || field[0] == b'0' && 1 < field.len() {
        return None;
    }
    let mut value: u64 = 0;
    for byte in field {
        if !byte.is_ascii_digit() {
            return None;
        }
        value = value * 10 + u64::from(*byte - b'0');
        if u64::from(u32::MAX) < value {
            return None;
        }
    }
    Some(value as u32)
}

// Three digits 0 or 1, as the channels' values.
#[tactic(auto, unfolding(crate::specs::Numbers::triple_of))]
pub fn read_triple(field: &[u8]) -> Option<[u8; 3]>
    ensures { read_says result ≡ triple_of field.now }
{
    match *field {
        [a @ b'0'..=b'1', b @ b'0'..=b'1', c @ b'0'..=b'1'] => Some([a - b'0', b - b'0', c - b'0']),
        _ => None,
    }
}

// Reads a row, without its line break, whose label must be the one due, into a sample buffer of 54 bytes. After 4,294,967,295 no label is.
#[tactic(auto, unfolding(crate::specs::Rows::read_row, crate::specs::Rows::in_turn))]
pub fn read_row(row: &[u8], due: Option<u32>, sample: &mut [u8]) -> Result<Row, Refusal>
    ensures { (row_says result, sample.new) ≡ read_row row.now due sample.old }
{
    if sample.len() != 54 {
        return Err(Refusal::Room);
    }
    if LONGEST_ROW < row.len() {
        return Err(Refusal::RowLength);
    }
    let Some(form) = read_form(row) else {
        return Err(Refusal::Form);
    };
    if due != Some(form.row.label) {
        return Err(Refusal::Label);
    }
    sample.copy_from_slice(&form.sample);
    Ok(form.row)
}

// Whether a row is the header of a trace. (Its text stands here as it is: put together from `names`, it costs each row of a trace some
// 75 instructions.)
pub fn is_header(row: &[u8]) -> bool
    ensures { result ≡ same_text row.now header_text }
{
    row == b"step,stamp,handle,analogical_switch,gear_extended_front,gear_extended_left,gear_extended_right,gear_retracted_front,gear_retracted_left,gear_retracted_right,gear_shock_absorber_front,gear_shock_absorber_left,gear_shock_absorber_right,door_closed_front,door_closed_left,door_closed_right,door_open_front,door_open_left,door_open_right,circuit_pressurized".as_slice()
}

// The channels of eighteen triples from `at` to the row's end, and no more. (A triple is taken apart by `let .. else`, and a number below: so document
// 01 asks.)
#[tactic(auto, using(crate::proofs::Triples::triples))]
fn read_triples(row: &[u8], at: usize) -> Option<[u8; 54]>
    ensures { read_says result ≡ triples_of 18 (fields_from row.now at) }
{
    let mut channels = [0u8; 54];
    let mut next = at;
    for i in 0..18 {
        let part = field(row, next);
        let Some(bits) = read_triple(part) else {
            return None;
        };
        channels[3 * i..3 * i + 3].copy_from_slice(&bits);
        next += part.len() + 1;
    }
    if next <= row.len() {
        return None;
    }
    Some(channels)
}

// Reads a row whose label may be any.
#[tactic(auto, using(crate::proofs::Forms::form))]
fn read_form(row: &[u8]) -> Option<Form>
    ensures { form_says result ≡ form_of (fields_of row.now) }
{
    let first = field(row, 0);
    let Some(label) = read_number(first) else {
        return None;
    };
    let at = first.len() + 1;
    let second = field(row, at);
    let Some(stamp) = read_number(second) else {
        return None;
    };
    let sample = read_triples(row, at + second.len() + 1)?;
    let row = Row { label, stamp };
    Some(Form { row, sample })
}
