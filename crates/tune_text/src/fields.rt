// The numbers of a line.
ghost use Rattle.std.specs.Prelude.{◌≡◌, ◌^◌, ◌≤◌, ◌<◌};
ghost use Rattle.tune_text.specs.Fields.{whole_number, hexadecimal};
ghost use Rattle.tune_text.specs.Handed.{number_read, numbers_read};

use numerals::from_digits;

// The form of a field's number: its base, and how few and how many digits it may have.
#[derive(Clone, Copy)]
struct Form {
    base: u64,
    least: usize,
    most: usize,
}

// Of 1 to 10 decimal digits.
const WHOLE_NUMBER: Form = Form {
    base: 10,
    least: 1,
    most: 10,
};

// A float by the 16 hexadecimal digits of its bits.
const HEXADECIMAL: Form = Form {
    base: 16,
    least: 16,
    most: 16,
};

// The number that a field of this form is.
#[tactic(auto, using(numerals::proofs::Digits::value_fits))]
fn read_number(field: &[u8], form: Form) -> Option<u64>
    requires { (1 < form.base) × (form.base ≤ 16) × (form.base ^ form.most ≤ 2 ^ 64) }
    ensures { result ≡ number_read form field.now }
{
    if !(form.least..=form.most).contains(&field.len()) {
        return None;
    }
    from_digits(field, form.base)
}

// The numbers of a line that has K fields of this form, with one space between fields.
#[tactic(auto, using(crate::proofs::Laws::Splitting::outcome_few))]
fn read_numbers<const K: usize>(line: &[u8], form: Form) -> Option<[u64; K]>
    requires fits { (1 < form.base) × (form.base ≤ 16) × (form.base ^ form.most ≤ 2 ^ 64) }
    requires few { K ≤ 4 }
    ensures { result ≡ numbers_read form K line.now }
{
    let mut numbers = [0; K];
    let mut fields = line.split(|b| *b == b' ');
    for number in &mut numbers {
        *number = read_number(fields.next()?, form)?;
    }
    fields.next().is_none().then_some(numbers)
}

// The numbers of a line of K whole numbers.
pub(super) fn whole_numbers<const K: usize>(line: &[u8]) -> Option<[u64; K]>
    requires { K ≤ 4 }
    ensures { result ≡ numbers_read whole_number K line.now }
{
    read_numbers(line, WHOLE_NUMBER)
}

// The numbers of a line of four floats, by their bits.
pub(super) fn four_floats(line: &[u8]) -> Option<[u64; 4]>
    ensures { result ≡ numbers_read hexadecimal 4 line.now }
{
    read_numbers(line, HEXADECIMAL)
}
